//! The constants of the static fields of a class (JVMS 4.7.2; 5.5, step 6).

ghost use Rattle.std.specs.Prelude.{◌≡◌};
ghost use Rattle.machine_state.specs.class_initialisation.Constants.{with_constants};

use linked_code::LinkedConstant;

/// Sets each in the slot of its field.
pub(crate) fn set_constants(statics: &mut Vec<u32>, constants: &[LinkedConstant])
    ensures { statics.new.items ≡ with_constants constants.now statics.old.items }
{
    for constant in constants {
        if let Some(word) = statics.get_mut(constant.slot as usize) {
            *word = constant.word;
        }
    }
}

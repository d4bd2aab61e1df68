//! Whether each descriptor is one, of the kind that is asked for (JVMS 4.3).

ghost use Rattle.std.specs.Prelude.{◌≡◌, ◌&&◌, ◌||◌, List, Bool};
ghost use Rattle.std.specs.List.{list_all};
ghost use Rattle.constant_pool.specs.declared.reading.fault.Cause.TheVariants as causes;
ghost use Rattle.model.specs.Spelling.{entry_at};
ghost use Rattle.model.specs.DescriptorScan.{is_field_descriptor, is_method_descriptor};
ghost use Rattle.model.specs.Conditions.{descriptor_text, entry_descriptors};
ghost use Rattle.constant_pool.specs.View.{entry_of};
ghost use Rattle.constant_pool.specs.Checking.{Checks};
ghost use Rattle.constant_pool.specs.Texts.{kind_of};

use crate::condition::{Condition, check_entries, require};
use crate::constant::Constant;
use crate::kind::{TextKind, kind_of};
use crate::reading::{Cause, Malformed};
use crate::texts::Texts;

/// Each descriptor is one, of the kind that is asked for.
#[derive(Drop)]
struct Descriptors<'a, 'b>(&'a Texts<'b>);

/// What the descriptor in the NameAndType of an index is.
fn descriptor(texts: &Texts<'_>, index: u16) -> TextKind
    ensures { result ≡ kind_of (descriptor_text texts.now (entry_at texts.now index)) }
{
    match texts.pool().constant(index) {
        Some(Constant::NameAndType { descriptor, .. }) => texts.kind(*descriptor),
        _ => kind_of(&[]),
    }
}

impl Condition for Descriptors<'_, '_> {
    ghost cause = { causes.Descriptor };

    ghost is_met = { λ descriptors e. entry_descriptors descriptors.0.now e };

    fn check(&self, constant: &Constant, at: usize) -> Result<(), Malformed> {
        let texts = self.0;
        let is_met = match constant {
            Constant::NameAndType { descriptor, .. } => {
                let kind = texts.kind(*descriptor);
                kind.is_field_descriptor || kind.method_slots.is_some()
            }
            Constant::Field { name_and_type, .. } => {
                descriptor(texts, *name_and_type).method_slots.is_none()
            }
            Constant::Method { name_and_type, .. }
            | Constant::InterfaceMethod { name_and_type, .. } => {
                !descriptor(texts, *name_and_type).is_field_descriptor
            }
            _ => true,
        };
        require(is_met, Cause::Descriptor, at.saturating_add(3))
    }
}

impl Texts<'_> {
    /// Whether each descriptor that a NameAndType of the pool has is one, and of the kind that the references to it ask
    /// for. The pool begins at the offset `at`; the fault is `Descriptor` at the first index of another.
    pub fn check_descriptors(&self, at: usize) -> Result<(), Malformed>
        ensures { Checks causes.Descriptor result (list_all (entry_descriptors self.now) self.now) }
    {
        check_entries(&Descriptors(self), self.pool().constants(), at)
    }
}

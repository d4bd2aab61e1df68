//! Fields that are outside of the profile.

ghost use Rattle.std.specs.Prelude.{◌≡◌, false, true, map, slice_get, take, IfNone, IfSome};
ghost use Rattle.std.specs.Option.{option_map_or};
ghost use Rattle.std.specs.List.{list_any};
ghost use Rattle.model.specs.Spelling.{entry_at};
ghost use Rattle.model.specs.Profile.{is_int_or_string, is_left_out_constant, left_out_constant, instance_field_of_interface, field_of_left_out_type, field_outside_profile};
ghost use Rattle.classfile.specs.View.{field_part_of, field_of, file_of};
ghost use Rattle.classfile.specs.profile.Descriptions.{rows_of};

use crate::access_flags::{STATIC, has};
use crate::profile::described::{Described, text_says};
use crate::{ClassFile, Constant, Field, FieldAttribute};

/// Whether the entry of an index is an Integer or a String.
fn is_int_or_string(file: &ClassFile, index: u16) -> bool
    ensures { result ≡ is_int_or_string (entry_at file.now.pool index) }
{
    matches!(
        file.constant(index),
        Some(Constant::Integer(_) | Constant::String { .. })
    )
}

/// Whether a field has a constant that is left out.
fn has_left_out_constant(file: &ClassFile, attributes: &[FieldAttribute]) -> bool
    ensures { result ≡ list_any (is_left_out_constant file.now.pool) (map field_part_of attributes.now) }
{
    for attribute in attributes {
        if let FieldAttribute::ConstantValue { index, .. } = attribute {
            if !is_int_or_string(file, *index) {
                return true;
            }
        }
    }
    false
}

/// Whether a field is outside of the profile: its type, its constant, or its flags.
pub(crate) fn is_outside(file: &ClassFile, rows: &[Described], field: &Field) -> bool
    requires { rows.now ≡ rows_of file.now.pool }
    ensures { result ≡ field_outside_profile (file_of file.now) (field_of field.now) }
{
    text_says(file, rows, field.descriptor).leaves_out
        || has_left_out_constant(file, &field.attributes)
        || file.is_interface() && !has(field.flags, STATIC)
}

/// The first field that is outside of the profile.
pub(crate) fn first_field(file: &ClassFile, rows: &[Described]) -> Option<usize>
    requires { rows.now ≡ rows_of file.now.pool }
    ensures none { IfNone result (list_any (field_outside_profile (file_of file.now)) (file_of file.now).fields
        ≡ false) }
    ensures some { IfSome result (λ k.
        option_map_or (field_outside_profile (file_of file.now)) (slice_get (file_of file.now).fields k)
        false ≡ true) }
    ensures first { IfSome result (λ k.
        list_any (field_outside_profile (file_of file.now)) (take k (file_of file.now).fields) ≡ false) }
{
    for (place, field) in file.fields.iter().enumerate() {
        if is_outside(file, rows, field) {
            return Some(place);
        }
    }
    None
}

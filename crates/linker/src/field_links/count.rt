//! How many fields are static, and how many are not (JVMS 4.5).

ghost use Rattle.std.specs.Prelude.{◌≡◌, length, map};
ghost use Rattle.std.specs.List.{filter};
ghost use Rattle.model.specs.AccessFlags.{is_static_field, is_instance_field};
ghost use Rattle.classfile.specs.View.{field_of};

use classfile::Field;

pub(crate) fn static_count(fields: &[Field]) -> usize
    ensures { result ≡ length (filter is_static_field (map field_of fields.now)) }
{
    let mut count = 0usize;
    for field in fields {
        if field.is_static() {
            count += 1;
        }
    }
    count
}

pub(crate) fn instance_count(fields: &[Field]) -> usize
    ensures { result ≡ length (filter is_instance_field (map field_of fields.now)) }
{
    let mut count = 0usize;
    for field in fields {
        if !field.is_static() {
            count += 1;
        }
    }
    count
}

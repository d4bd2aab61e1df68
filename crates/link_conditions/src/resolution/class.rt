//! The superclass and the superinterfaces of a class file, and its fields.

ghost use Rattle.std.specs.Prelude.{◌≡◌, false, true, slice_get, MatchOption, option_map};
ghost use Rattle.std.specs.Option.{option_map_or};
ghost use Rattle.std.specs.List.{list_any};
ghost use Rattle.model.specs.Resolution.{is_missing, interface_missing};
ghost use Rattle.classfile.specs.View.{file_of};
ghost use Rattle.link_conditions.specs.resolution.Rows.{lacking_texts};
ghost use Rattle.link_conditions.specs.resolution.Unresolved.{class_stands, field_stands};

use crate::resolution::descriptor::text_lacks_class;
use crate::resolution::operand::is_missing;
use classfile::ClassFile;
use hierarchy::ClassSet;

/// Whether a class that is named is not found.
fn names_missing(set: &ClassSet, name: Option<&[u8]>) -> bool
    ensures { result ≡ option_map_or (is_missing set.now) (option_map (λ t. t.now) name.entry) false }
{
    match name {
        Some(name) => is_missing(set, name),
        None => false,
    }
}

/// Whether a superinterface is not found.
fn interface_missing(set: &ClassSet, file: &ClassFile) -> bool
    ensures { result ≡ interface_missing set.now (file_of file.now) }
{
    for index in &file.interfaces {
        if names_missing(set, file.class_name(*index)) {
            return true;
        }
    }
    false
}

/// Whether the superclass or a superinterface is not found (JVMS 5.3.5).
pub(crate) fn is_class_unresolved(set: &ClassSet, file: &ClassFile) -> bool
    ensures { result ≡ class_stands set.now (file_of file.now) }
{
    names_missing(set, file.class_name(file.super_class)) || interface_missing(set, file)
}

/// The first field with a class in its descriptor that is not found.
pub(crate) fn first_field(set: &ClassSet, file: &ClassFile, lacking: &[bool]) -> Option<usize>
    requires { lacking.now ≡ lacking_texts set.now file.now.pool }
    ensures { MatchOption result (list_any (field_stands set.now (file_of file.now)) (file_of file.now).fields ≡ false)
        (λ k. option_map_or (field_stands set.now (file_of file.now)) (slice_get (file_of file.now).fields k) false
        ≡ true) }
{
    for (place, field) in file.fields.iter().enumerate() {
        if text_lacks_class(set, file, lacking, field.descriptor) {
            return Some(place);
        }
    }
    None
}

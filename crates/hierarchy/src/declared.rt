//! The fields and methods that a class itself declares.

ghost use Rattle.std.specs.Prelude.{◌≡◌, ◌&&◌, ◌/◌, ◌%◌, ◌<◌, ◌==◌, position, option_map};
ghost use Rattle.model.specs.Names.{spells};
ghost use Rattle.model.specs.Pool.{utf8_at};
ghost use Rattle.model.specs.Classes.{is_method};
ghost use Rattle.model.specs.Lookup.{is_field};
ghost use Rattle.class_tree.specs.View.{field_of, method_of, file_of};

use class_tree::{ClassFile, Field, Method};

/// Whether a name is there, and is this one.
fn is_spelled(text: Option<&[u8]>, name: &[u8]) -> bool
    ensures { result ≡ spells (option_map (λ t. t.now) text.entry) name.now }
{
    match text {
        Some(text) => text == name,
        None => false,
    }
}

/// Whether a method is of this name and descriptor.
fn is_method(file: &ClassFile, method: &Method, name: &[u8], descriptor: &[u8]) -> bool
    ensures { result ≡ is_method file.now.pool name.now descriptor.now (method_of method.now) }
{
    is_spelled(file.utf8(method.name), name) && is_spelled(file.utf8(method.descriptor), descriptor)
}

fn method_among(
    file: &ClassFile,
    methods: &[Method],
    name: &[u8],
    descriptor: &[u8],
) -> Option<usize>
    ensures { result ≡ position (λ m. is_method file.now.pool name.now descriptor.now (method_of m)) methods.now }
{
    methods
        .iter()
        .position(|method| is_method(file, method, name, descriptor))
}

/// The place of the method of this name and descriptor that a class declares (JVMS 4.6).
pub(crate) fn method_place(file: &ClassFile, name: &[u8], descriptor: &[u8]) -> Option<usize>
    ensures { result ≡ position (is_method file.now.pool name.now descriptor.now) (file_of file.now).methods }
{
    method_among(file, &file.methods, name, descriptor)
}

/// Whether a field is of this name and descriptor.
fn is_field(file: &ClassFile, field: &Field, name: &[u8], descriptor: &[u8]) -> bool
    ensures { result ≡ is_field file.now.pool name.now descriptor.now (field_of field.now) }
{
    is_spelled(file.utf8(field.name), name) && is_spelled(file.utf8(field.descriptor), descriptor)
}

fn field_among(file: &ClassFile, fields: &[Field], name: &[u8], descriptor: &[u8]) -> Option<usize>
    ensures { result ≡ position (λ f. is_field file.now.pool name.now descriptor.now (field_of f)) fields.now }
{
    fields
        .iter()
        .position(|field| is_field(file, field, name, descriptor))
}

/// The place of the field of this name and descriptor that a class declares (JVMS 4.5).
pub(crate) fn field_place(file: &ClassFile, name: &[u8], descriptor: &[u8]) -> Option<usize>
    ensures { result ≡ position (is_field file.now.pool name.now descriptor.now) (file_of file.now).fields }
{
    field_among(file, &file.fields, name, descriptor)
}

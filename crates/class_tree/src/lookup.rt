//! What an index of the constant pool of a class file names (JVMS 4.4).

ghost use Rattle.std.specs.Prelude.{◌≡◌, ◌&&◌, nat_lt, nat_le, length, map, Option, is_some, option_map, unwrap_or};
ghost use Rattle.model.specs.Classes.{code_in, name_of, super_name_of};
ghost use Rattle.model.specs.Tree.{Unusable};
ghost use Rattle.model.specs.Spelling.{entry_at};
ghost use Rattle.model.specs.Pool.{utf8_at, class_name_at, string_at, name_and_type_at, field_at, method_at, interface_method_at};
ghost use Rattle.constant_pool.specs.View.{entry_of, name_and_descriptor_of, reference_of};
ghost use Rattle.class_tree.specs.View.{code_of, file_of, method_of, method_part_of};

use crate::tree::{ClassFile, Code, Method, MethodAttribute};
use constant_pool::{Constant, NameAndDescriptor, Reference};

impl ClassFile {
    /// The entry of the constant pool that an index names, which counts from 1.
    pub fn constant(&self, index: u16) -> Option<&Constant>
        ensures entry { unwrap_or (option_map (λ c. entry_of c.now) result) Unusable ≡ entry_at self.now.pool index }
        ensures there { is_some result ≡ (nat_lt 0 index && nat_le index (length self.now.pool)) }
    {
        self.pool.constant(index)
    }

    /// The bytes of the Utf8 of an index.
    pub fn utf8(&self, index: u16) -> Option<&[u8]>
        ensures { option_map (λ t. t.now) result ≡ utf8_at self.now.pool index }
    {
        self.pool.utf8(index)
    }

    /// The name that the Class of an index has.
    pub fn class_name(&self, index: u16) -> Option<&[u8]>
        ensures { option_map (λ t. t.now) result ≡ class_name_at self.now.pool index }
    {
        self.pool.class_name(index)
    }

    /// The bytes of the String of an index.
    pub fn string(&self, index: u16) -> Option<&[u8]>
        ensures { option_map (λ t. t.now) result ≡ string_at self.now.pool index }
    {
        self.pool.string(index)
    }

    /// The name and the descriptor of the NameAndType of an index.
    pub fn name_and_type(&self, index: u16) -> Option<NameAndDescriptor<'_>>
        ensures { option_map (λ n. name_and_descriptor_of n) result ≡ name_and_type_at self.now.pool index }
    {
        self.pool.name_and_type(index)
    }

    /// The field that the Fieldref of an index names.
    pub fn field_reference(&self, index: u16) -> Option<Reference<'_>>
        ensures { option_map (λ r. reference_of r) result ≡ field_at self.now.pool index }
    {
        self.pool.field_reference(index)
    }

    /// The method that the Methodref of an index names.
    pub fn method_reference(&self, index: u16) -> Option<Reference<'_>>
        ensures { option_map (λ r. reference_of r) result ≡ method_at self.now.pool index }
    {
        self.pool.method_reference(index)
    }

    /// The method that the InterfaceMethodref of an index names.
    pub fn interface_method_reference(&self, index: u16) -> Option<Reference<'_>>
        ensures { option_map (λ r. reference_of r) result ≡ interface_method_at self.now.pool index }
    {
        self.pool.interface_method_reference(index)
    }
}

/// The name of the class that a file declares (JVMS 4.1, this_class).
pub fn class_name(file: &ClassFile) -> &[u8]
    ensures { result.now ≡ name_of (file_of file.now) }
{
    file.class_name(file.this_class).unwrap_or(b"")
}

/// The name of its direct superclass (JVMS 4.1, super_class).
pub fn superclass_name(file: &ClassFile) -> Option<&[u8]>
    ensures { option_map (λ t. t.now) result ≡ super_name_of (file_of file.now) }
{
    file.class_name(file.super_class)
}

/// The first Code among attributes.
fn first_code(attributes: &[MethodAttribute]) -> Option<&Code>
    ensures { option_map (λ c. code_of c.now) result ≡ code_in (map method_part_of attributes.now) }
{
    for attribute in attributes {
        if let MethodAttribute::Code { code, .. } = attribute {
            return Some(code);
        }
    }
    None
}

impl Method {
    /// Its code (JVMS 4.7.3). `None` where it is native or abstract.
    pub fn code(&self) -> Option<&Code>
        ensures { option_map (λ c. code_of c.now) result ≡ code_in (method_of self.now).parts }
    {
        first_code(&self.attributes)
    }
}

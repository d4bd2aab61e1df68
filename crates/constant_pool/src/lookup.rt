//! What an index of the constant pool names (JVMS 4.4).

ghost use Rattle.std.specs.Prelude.{◌≡◌, ◌&&◌, nat_lt, nat_le, length, List, Option, is_some, option_map, unwrap_or};
ghost use Rattle.model.specs.Tree.{Entry, Unusable};
ghost use Rattle.model.specs.Spelling.{entry_at, text_of};
ghost use Rattle.model.specs.Pool as named;
ghost use Rattle.constant_pool.specs.View.{entry_of, entries_of, name_and_descriptor_of, reference_of};

use crate::constant::Constant;
use crate::pool::Pool;

/// A name and a descriptor.
#[derive(Clone, Copy, PartialEq, Eq, Hash)]
pub struct NameAndDescriptor<'a> {
    pub name: &'a [u8],
    pub descriptor: &'a [u8],
}

/// A field or a method, by the name of the class in which it is sought, its own name and its descriptor
/// (JVMS 4.4.2).
#[derive(Clone, Copy)]
pub struct Reference<'a> {
    pub class: &'a [u8],
    pub name: &'a [u8],
    pub descriptor: &'a [u8],
}

/// The entry of an index, which counts from 1.
fn constant_in(constants: &[Constant], index: u16) -> Option<&Constant>
    ensures entry { unwrap_or (option_map (λ c. entry_of c.now) result) Unusable
        ≡ entry_at (entries_of constants.now) index }
    ensures there { is_some result ≡ (nat_lt 0 index && nat_le index (length constants.now)) }
{
    if index == 0 {
        return None;
    }
    match constants.get(index as usize - 1) {
        Some(constant) => Some(constant),
        None => None,
    }
}

impl Pool {
    /// The entry that an index names, which counts from 1.
    pub fn constant(&self, index: u16) -> Option<&Constant>
        ensures entry { unwrap_or (option_map (λ c. entry_of c.now) result) Unusable ≡ entry_at self.now index }
        ensures there { is_some result ≡ (nat_lt 0 index && nat_le index (length self.now)) }
    {
        constant_in(self.constants(), index)
    }

    /// The bytes of the Utf8 of an index, none where it names another entry.
    pub fn text(&self, index: u16) -> &[u8]
        ensures { result.now ≡ text_of (entry_at self.now index) }
    {
        match self.constant(index) {
            Some(Constant::Utf8(text)) => text.as_slice(),
            _ => &[],
        }
    }

    /// The bytes of the Utf8 of an index.
    pub fn utf8(&self, index: u16) -> Option<&[u8]>
        ensures { option_map (λ t. t.now) result ≡ named.utf8_at self.now index }
    {
        match self.constant(index) {
            Some(Constant::Utf8(text)) => Some(text.as_slice()),
            _ => None,
        }
    }

    /// The Integer of an index, by its bits.
    pub fn integer(&self, index: u16) -> Option<u32>
        ensures { result ≡ named.integer_of (entry_at self.now index) }
    {
        match self.constant(index) {
            Some(Constant::Integer(bits)) => Some(*bits),
            _ => None,
        }
    }

    /// The name that the Class of an index has.
    pub fn class_name(&self, index: u16) -> Option<&[u8]>
        ensures { option_map (λ t. t.now) result ≡ named.class_name_at self.now index }
    {
        match self.constant(index) {
            Some(Constant::Class { name }) => self.utf8(*name),
            _ => None,
        }
    }

    /// The bytes of the String of an index.
    pub fn string(&self, index: u16) -> Option<&[u8]>
        ensures { option_map (λ t. t.now) result ≡ named.string_at self.now index }
    {
        match self.constant(index) {
            Some(Constant::String { text }) => self.utf8(*text),
            _ => None,
        }
    }

    /// The name and the descriptor of the NameAndType of an index.
    pub fn name_and_type(&self, index: u16) -> Option<NameAndDescriptor<'_>>
        ensures { option_map (λ n. name_and_descriptor_of n) result ≡ named.name_and_type_at self.now index }
    {
        match self.constant(index) {
            Some(Constant::NameAndType { name, descriptor }) => Some(NameAndDescriptor {
                name: self.utf8(*name)?,
                descriptor: self.utf8(*descriptor)?,
            }),
            _ => None,
        }
    }

    fn member(&self, class: u16, name_and_type: u16) -> Option<Reference<'_>>
        ensures { option_map (λ r. reference_of r) result ≡ named.reference_at self.now class name_and_type }
    {
        let class = self.class_name(class)?;
        let NameAndDescriptor { name, descriptor } = self.name_and_type(name_and_type)?;
        Some(Reference {
            class,
            name,
            descriptor,
        })
    }

    /// The field that the Fieldref of an index names.
    pub fn field_reference(&self, index: u16) -> Option<Reference<'_>>
        ensures { option_map (λ r. reference_of r) result ≡ named.field_at self.now index }
    {
        match self.constant(index) {
            Some(
                Constant::Field {
                    class,
                    name_and_type,
                },
            ) => self.member(*class, *name_and_type),
            _ => None,
        }
    }

    /// The method that the Methodref of an index names.
    pub fn method_reference(&self, index: u16) -> Option<Reference<'_>>
        ensures { option_map (λ r. reference_of r) result ≡ named.method_at self.now index }
    {
        match self.constant(index) {
            Some(
                Constant::Method {
                    class,
                    name_and_type,
                },
            ) => self.member(*class, *name_and_type),
            _ => None,
        }
    }

    /// The method that the InterfaceMethodref of an index names.
    pub fn interface_method_reference(&self, index: u16) -> Option<Reference<'_>>
        ensures { option_map (λ r. reference_of r) result ≡ named.interface_method_at self.now index }
    {
        match self.constant(index) {
            Some(
                Constant::InterfaceMethod {
                    class,
                    name_and_type,
                },
            ) => self.member(*class, *name_and_type),
            _ => None,
        }
    }
}

//! An entry of the pool.

ghost use Rattle.std.specs.Prelude.{◌≡◌, ◌++◌, List, length, OnOk};
ghost use Rattle.model.specs.Spelling.{u1, u2, u4, u8, utf8, entry, is_wide, text_of};
ghost use Rattle.constant_pool.specs.View.{entry_of};
ghost use Rattle.constant_pool.specs.Checking.{saturated};

use std::alloc::AllocError;

/// An entry of the constant pool (JVMS 4.4).
#[derive(Drop)]
pub enum Constant {
    Utf8(Vec<u8>),
    /// By its 32 bits.
    Integer(u32),
    /// By its 32 bits.
    Float(u32),
    /// By its 64 bits.
    Long(u64),
    /// By its 64 bits.
    Double(u64),
    Class { name: u16 },
    String { text: u16 },
    Field { class: u16, name_and_type: u16 },
    Method { class: u16, name_and_type: u16 },
    InterfaceMethod { class: u16, name_and_type: u16 },
    NameAndType { name: u16, descriptor: u16 },
    /// The second place of a `Long` or of a `Double`.
    Unusable,
}

impl Constant {
    /// Whether it takes two places.
    pub(crate) fn is_wide(&self) -> bool
        ensures { result ≡ is_wide (entry_of self.now) }
    {
        matches!(self, Constant::Long(_) | Constant::Double(_))
    }

    /// The bytes of a Utf8, none of another entry.
    pub(crate) fn text(&self) -> &[u8]
        ensures { result.now ≡ text_of (entry_of self.now) }
    {
        match self {
            Constant::Utf8(text) => text.as_slice(),
            _ => &[],
        }
    }

    /// How many bytes it has.
    pub(crate) fn length(&self) -> usize
        ensures { result ≡ saturated (length (entry (entry_of self.now))) }
    {
        match self {
            Constant::Utf8(text) => text.len().saturating_add(3),
            Constant::Class { .. } | Constant::String { .. } => 3,
            Constant::Long(_) | Constant::Double(_) => 9,
            Constant::Unusable => 0,
            _ => 5,
        }
    }

    /// Appends its bytes, each kind behind its tag (JVMS table 4.4-A).
    pub(crate) fn encode(&self, out: &mut Vec<u8>) -> Result<(), AllocError>
        ensures { OnOk result (out.new.items ≡ out.old.items ++ entry (entry_of self.now)) }
    {
        match self {
            Constant::Utf8(text) => put_utf8(text, out),
            Constant::Integer(bits) => put_word(3, *bits, out),
            Constant::Float(bits) => put_word(4, *bits, out),
            Constant::Long(bits) => put_wide(5, *bits, out),
            Constant::Double(bits) => put_wide(6, *bits, out),
            Constant::Class { name } => put_index(7, *name, out),
            Constant::String { text } => put_index(8, *text, out),
            Constant::Field {
                class,
                name_and_type,
            } => put_indices(9, *class, *name_and_type, out),
            Constant::Method {
                class,
                name_and_type,
            } => put_indices(10, *class, *name_and_type, out),
            Constant::InterfaceMethod {
                class,
                name_and_type,
            } => put_indices(11, *class, *name_and_type, out),
            Constant::NameAndType { name, descriptor } => put_indices(12, *name, *descriptor, out),
            Constant::Unusable => Ok(()),
        }
    }
}

/// The lowest two bytes of a number, the highest of them first.
pub(crate) fn put_u2(n: usize, out: &mut Vec<u8>) -> Result<(), AllocError>
    ensures { OnOk result (out.new.items ≡ out.old.items ++ u2 n) }
{
    let low = (n % 0x1_0000) as u16;
    out.extend_from_slice(&low.to_be_bytes())
}

fn put_utf8(text: &[u8], out: &mut Vec<u8>) -> Result<(), AllocError>
    ensures { OnOk result (out.new.items ≡ out.old.items ++ (u1 1 ++ utf8 text.now)) }
{
    out.extend_from_slice(&[1])?;
    put_u2(text.len(), out)?;
    out.extend_from_slice(text)
}

/// A tag, and a number of four bytes.
fn put_word(tag: u8, bits: u32, out: &mut Vec<u8>) -> Result<(), AllocError>
    ensures { OnOk result (out.new.items ≡ out.old.items ++ (u1 tag ++ u4 bits)) }
{
    out.extend_from_slice(&tag.to_be_bytes())?;
    out.extend_from_slice(&bits.to_be_bytes())
}

/// A tag, and a number of eight bytes.
fn put_wide(tag: u8, bits: u64, out: &mut Vec<u8>) -> Result<(), AllocError>
    ensures { OnOk result (out.new.items ≡ out.old.items ++ (u1 tag ++ u8 bits)) }
{
    out.extend_from_slice(&tag.to_be_bytes())?;
    out.extend_from_slice(&bits.to_be_bytes())
}

/// A tag, and an index.
fn put_index(tag: u8, index: u16, out: &mut Vec<u8>) -> Result<(), AllocError>
    ensures { OnOk result (out.new.items ≡ out.old.items ++ (u1 tag ++ u2 index)) }
{
    out.extend_from_slice(&tag.to_be_bytes())?;
    out.extend_from_slice(&index.to_be_bytes())
}

/// A tag, and two indices.
fn put_indices(tag: u8, first: u16, second: u16, out: &mut Vec<u8>) -> Result<(), AllocError>
    ensures { OnOk result (out.new.items ≡ out.old.items ++ (u1 tag ++ (u2 first ++ u2 second))) }
{
    out.extend_from_slice(&tag.to_be_bytes())?;
    out.extend_from_slice(&first.to_be_bytes())?;
    out.extend_from_slice(&second.to_be_bytes())
}

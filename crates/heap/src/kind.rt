//! What an object is.

ghost use Rattle.std.specs.Prelude.{◌≡◌};
ghost use Rattle.heap.specs.Elements.{kept, stored};

/// What the elements of an array are that have fewer than 32 bits.
#[derive(Clone, Copy, PartialEq, Eq)]
pub enum NarrowKind {
    Boolean,
    Char,
    Byte,
    Short,
}

/// What an object is: an instance of a class, or an array. Classes, and the types of arrays of references, have the
/// numbers that the caller gives them.
#[derive(Clone, Copy, PartialEq, Eq)]
pub enum ObjectKind {
    Instance { class: u32 },
    Ints,
    References { of: u32 },
    Narrow(NarrowKind),
}

fn byte(word: u32) -> u32
    ensures { result ≡ kept NarrowKind.Byte word }
{
    i32::from(((word % 0x100) as u8).cast_signed()).cast_unsigned()
}

fn short(word: u32) -> u32
    ensures { result ≡ kept NarrowKind.Short word }
{
    i32::from(((word % 0x1_0000) as u16).cast_signed()).cast_unsigned()
}

impl NarrowKind {
    /// What is loaded again of an int that was stored: the lowest bit of a boolean, the low bits of a char without
    /// sign, those of a byte and of a short with their sign. A field of such a type keeps the same.
    pub fn kept(self, word: u32) -> u32
        ensures { result ≡ kept self word }
    {
        match self {
            NarrowKind::Boolean => word % 2,
            NarrowKind::Char => word % 0x1_0000,
            NarrowKind::Byte => byte(word),
            NarrowKind::Short => short(word),
        }
    }
}

impl ObjectKind {
    /// What an object of this kind keeps of a word that is stored in it as an element.
    pub fn stored(self, word: u32) -> u32
        ensures { result ≡ stored self word }
    {
        match self {
            ObjectKind::Instance { .. } | ObjectKind::Ints | ObjectKind::References { .. } => word,
            ObjectKind::Narrow(kind) => kind.kept(word),
        }
    }
}

//! The primitive types.

ghost use Rattle.std.specs.Prelude.{◌≡◌};
ghost use Rattle.model.specs.ReferenceTypes.{primitive_number};
ghost use Rattle.model.specs.Primitives.{primitive_of};

/// A primitive type of which there are arrays here (JVMS 2.3).
#[derive(Clone, Copy, PartialEq, Eq)]
pub enum Primitive {
    Boolean,
    Char,
    Byte,
    Short,
    Int,
}

impl Primitive {
    /// Each has a number of its own.
    pub fn number(self) -> u8
        ensures { result ≡ primitive_number (primitive_of self) }
    {
        match self {
            Primitive::Boolean => 0,
            Primitive::Char => 1,
            Primitive::Byte => 2,
            Primitive::Short => 3,
            Primitive::Int => 4,
        }
    }
}

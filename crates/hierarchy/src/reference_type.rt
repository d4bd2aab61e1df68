//! Reference types (JVMS 2.4), and which is below which.

ghost use Rattle.std.specs.Prelude.{◌≡◌};
ghost use Rattle.model.specs.Names.{name_eq, java_lang_object};
ghost use Rattle.model.specs.ReferenceTypes.{is_subtype};
ghost use Rattle.hierarchy.specs.Types.{innermost_of, type_of};

use crate::hierarchy::Hierarchy;
use model::Primitive;

/// A reference type that is no array of references.
#[derive(Clone, Copy)]
pub enum Innermost<'a> {
    /// A class or an interface, by its name.
    Class(&'a [u8]),
    /// An array of a primitive type.
    PrimitiveArray(Primitive),
}

/// A reference type: so many arrays of references, one in the other, around an innermost type.
#[derive(Clone, Copy)]
pub struct ReferenceType<'a> {
    pub arrays: usize,
    pub innermost: Innermost<'a>,
}

fn is_object(name: &[u8]) -> bool
    ensures { result ≡ name_eq name.now java_lang_object }
{
    name == b"java/lang/Object".as_slice()
}

impl Hierarchy {
    fn is_innermost_subtype(&self, s: Innermost<'_>, t: Innermost<'_>) -> bool
        ensures { result ≡ is_subtype self.now (innermost_of s.entry) (innermost_of t.entry) }
    {
        match s {
            Innermost::Class(c) => match t {
                Innermost::Class(d) => self.is_subclass_or_implements(c, d),
                Innermost::PrimitiveArray(_) => false,
            },
            Innermost::PrimitiveArray(a) => match t {
                Innermost::Class(d) => is_object(d),
                Innermost::PrimitiveArray(b) => a.number() == b.number(),
            },
        }
    }

    /// Whether an object of the first type is an instance of the second, as checkcast, instanceof and aastore ask
    /// (JVMS 6.5). Takes no memory.
    pub fn is_subtype(&self, s: ReferenceType<'_>, t: ReferenceType<'_>) -> bool
        ensures { result ≡ is_subtype self.now (type_of s.entry) (type_of t.entry) }
    {
        if s.arrays == t.arrays {
            return self.is_innermost_subtype(s.innermost, t.innermost);
        }
        if s.arrays < t.arrays {
            return false;
        }
        match t.innermost {
            Innermost::Class(d) => is_object(d),
            Innermost::PrimitiveArray(_) => false,
        }
    }
}

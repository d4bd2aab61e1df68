//! Where a name is not found.

ghost use Rattle.std.specs.Prelude.{◌≡◌};
ghost use Rattle.link_conditions.specs.resolution.Unresolved.{place_in};

/// A place in a class file at which a name is not found as it is wanted. Fields, methods and exception entries count
/// from
/// 0.
#[derive(Clone, Copy)]
pub enum UnresolvedPlace {
    /// The superclass, or one of the superinterfaces.
    Class,
    /// A class of the field's descriptor.
    Field { field: usize },
    /// A class of the method's descriptor.
    Method { method: usize },
    /// What the instruction at an offset of the method's code names.
    Instruction { method: usize, pc: usize },
    /// The catch type of an entry of the exception table of the method's code.
    Exception { method: usize, entry: usize },
}

/// A place in a method.
#[derive(Clone, Copy)]
pub(crate) enum Spot {
    Declaration,
    Instruction { pc: usize },
    Exception { entry: usize },
}

impl Spot {
    /// The place of a method's spot in the class file.
    pub(crate) fn in_method(self, method: usize) -> UnresolvedPlace
        ensures { result ≡ place_in method self }
    {
        match self {
            Spot::Declaration => UnresolvedPlace::Method { method },
            Spot::Instruction { pc } => UnresolvedPlace::Instruction { method, pc },
            Spot::Exception { entry } => UnresolvedPlace::Exception { method, entry },
        }
    }
}

//! Class files that are linked.

ghost use Rattle.std.specs.Prelude.{◌≡◌, length};
ghost use Rattle.linker.specs.Linking.{IsLinked};

use hierarchy::{ClassSet, Hierarchy};
use std::marker::Model;

/// The classes of class files in which no condition of linking stands, in the order of the files.
#[derive(Drop)]
pub struct Linked {
    hierarchy: Hierarchy,
}

impl Model for Linked {
    ghost use Rattle.model.specs.Classes.{Program};
    ghost use Rattle.linker.specs.Linking.{IsLinked};

    ghost Value = { Program };

    ghost view = { λ l. l.hierarchy };

    ghost invariant = { λ l. IsLinked l.hierarchy };
}

impl Linked {
    pub(crate) fn new(hierarchy: Hierarchy) -> Linked
        requires { IsLinked hierarchy }
        ensures { result ≡ hierarchy }
    {
        Linked { hierarchy }
    }

    /// The set of its classes, with what is above each of them.
    pub fn hierarchy(&self) -> &Hierarchy
        ensures same { result.now ≡ self.now }
        ensures linked { IsLinked self.now }
    {
        &self.hierarchy
    }

    /// The set of its classes: the built-in ones, then those of the files.
    pub fn set(&self) -> &ClassSet
        ensures same { result.now ≡ self.now }
        ensures linked { IsLinked self.now }
    {
        self.hierarchy.set()
    }

    /// How many files were linked.
    pub fn file_count(&self) -> usize
        ensures { result ≡ length self.now }
    {
        self.hierarchy.set().file_count()
    }
}

//! A theorem: in linked files each superclass is there, as the joins ask.

ghost use Rattle.std.specs.Prelude.{IsFalse};
ghost use Rattle.model.specs.Classes.{Program};
ghost use Rattle.model.specs.Linkable.{stands, Unresolved};
ghost use Rattle.types.specs.Superclasses.{HasSuperclasses};

/// A theorem, which does nothing when it is called: what the joins ask of a set of classes, linking gives.
pub fn linked_files_have_superclasses()
    ensures holds { (files : Program) → IsFalse (stands files Unresolved) → HasSuperclasses files }
{}

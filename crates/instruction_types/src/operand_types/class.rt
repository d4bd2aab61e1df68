//! Classes by their places in a set.

ghost use Rattle.std.specs.Prelude.{◌≡◌};
ghost use Rattle.model.specs.Names.{spells};
ghost use Rattle.model.specs.Classes.{superclass_of};
ghost use Rattle.hierarchy.specs.Places.{name_at};

use hierarchy::ClassSet;

/// Whether a class has this direct superclass.
pub(crate) fn is_directly_below(set: &ClassSet, class: usize, superclass: usize) -> bool
    ensures { result ≡ spells (superclass_of set.now (name_at set.now class)) (name_at set.now superclass) }
{
    match set.superclass_of(set.name_at(class)) {
        Some(name) => name == set.name_at(superclass),
        None => false,
    }
}

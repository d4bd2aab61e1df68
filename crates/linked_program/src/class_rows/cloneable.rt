//! Which objects may be cloned.

ghost use Rattle.std.specs.Prelude.{◌≡◌};
ghost use Rattle.model.specs.Cloning.{is_cloneable};
ghost use Rattle.model.specs.ReferenceTypes.{ClassType};

use hierarchy::Hierarchy;

/// Whether the objects of a class may be cloned: the class implements Cloneable, and its objects are no threads.
pub(crate) fn is_cloneable(hierarchy: &Hierarchy, class: &[u8]) -> bool
    ensures { result ≡ is_cloneable hierarchy.now (ClassType class.now) }
{
    hierarchy.implements(class, b"java/lang/Cloneable")
        && !hierarchy.set().is_subclass(class, b"java/lang/Thread")
}

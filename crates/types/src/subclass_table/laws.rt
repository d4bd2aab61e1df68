//! What linking gives of the numbers of classes, and what is above a class. Each function is a theorem, and does
//! nothing.

ghost use Rattle.types.specs.subclass_table.First.{IsObjectFirstWhereLinked};
ghost use Rattle.types.specs.subclass_table.Settled.{IsAboveByClassesAbove};

/// Where files are linked, Object is the first of all classes, and no other is named as it is.
pub fn object_is_first()
    ensures holds { IsObjectFirstWhereLinked }
{}

/// What is above a class is the class itself, what is above its direct superinterfaces by superinterfaces alone, and
/// what is above its superclass; where no way up from these is as long as there are classes.
pub fn above_by_classes_above()
    ensures holds { IsAboveByClassesAbove }
{}

//! The types that `checkcast`, `instanceof` and `anewarray` name.

ghost use Rattle.std.specs.Prelude.{◌≡◌, Some, false, true, is_some, IfSome};
ghost use Rattle.model.specs.Names.{Name};
ghost use Rattle.model.specs.Tree.{FileTree};
ghost use Rattle.model.specs.Pool.{class_name_at};
ghost use Rattle.model.specs.DescribedTypes.{type_named};
ghost use Rattle.hierarchy.specs.Places.{class_at};
ghost use Rattle.types.specs.described_types.Described.{type_missing};
ghost use Rattle.linker.specs.linked_types.Types.{IsTypeOperand};

use crate::Linked;
use crate::linked_types::named::named_type;
use linked_code::LinkedType;

/// The type that the Class of an index names, for the instructions of the class at a place. `None` where the index
/// names no Class, and where the class that it names, or that of an array's elements, is not in the program. Takes no
/// memory.
pub fn type_operand(linked: &Linked, class: usize, index: u16) -> Option<LinkedType>
    ensures right { (file : FileTree) → class_at linked.now class ≡ Some file
        → IfSome result (IsTypeOperand linked.now file.pool index) }
    ensures there { (file : FileTree) (name : Name) → class_at linked.now class ≡ Some file
        → class_name_at file.pool index ≡ Some name
        → type_missing linked.now (type_named name) ≡ false → is_some result ≡ true }
{
    let set = linked.set();
    let file = set.class_at(class)?;
    let name = file.class_name(index)?;
    named_type(set, name)
}

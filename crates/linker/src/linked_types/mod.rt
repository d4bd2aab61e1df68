//! Reference types by number (JVMS 2.4, 4.4.1), in linked code: those that class constants name, the component types of
//! arrays, and the classes against which types are tested.
//!
//! # Proved
//!
//! - `named_type`: the type that a class constant names, by the number of its class and its dimensions (`IsType` of
//!   `type_named`): an interface as itself, and an array of a primitive type with all its dimensions; arrays of long,
//!   float and double are those of int, as in the model. There is none exactly where the class, or that of an array's
//!   elements, is not in the set.
//! - `type_operand`: so for the Class of an index, in the constant pool of a class of linked files (`IsTypeOperand`,
//!   which is `IsNamedType` but for the column of its class).
//! - `Components::new`, `AreComponents`: the component types are those of the names of all Class entries that are of
//!   the program, and of String; each name stands once, all have the type that is named, and there are fewer than 2^32.
//!   `component` answers the number of the type that a Class names (`IsTypeAt`), wherever it is of the program;
//!   `string_component` that of String; `into_types` gives the types. The only error is a want of memory.
//! - `tested_classes`: exactly the classes of the types in rows and among component types. Where a table has a column
//!   for each of them, as `subclasses` makes it, these types are tested (`IsTested`). Its only error is a want of
//!   memory.
//!
//! # Not proved
//!
//! - Not shown: that no type stands twice among the component types. Names stand once, and arrays of long, float and
//!   double have the type of those of int. Among the tested classes one stands as often as types have it.

mod components;
mod named;
mod names;
mod operand;
mod tested;

pub use components::Components;
pub use named::named_type;
pub use operand::type_operand;
pub use tested::tested_classes;

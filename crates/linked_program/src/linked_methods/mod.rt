//! The methods of linked code (JVMS 2.6, 4.6, 4.7.3): for each method of linked files what a run needs of it, with its
//! code linked. The tables of the operands of a class are made once, and serve all its methods.
//!
//! # Proved
//!
//! - `linked_methods`: the methods of linked files by their numbers, each with its row and its linked code
//!   (`IsLinkedMethod`), in each linked program that has these tables of types and whose classes select as these calls
//!   do (`AreMethods`). It asks for numbers and tables that other modules make of the same files. Its only error is a
//!   want of memory.
//!
//! # Not proved
//!
//! - Not proved: how long it takes. The operands of a class are made once, and each code is gone over once.

mod all_code;
mod body;
mod join;
mod made;
mod operands;
mod pool;
mod sources;

pub use made::linked_methods;
pub use sources::MethodSources;

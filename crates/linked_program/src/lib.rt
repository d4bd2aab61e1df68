//! The whole linked program (JVMS 5.3, 5.4): all that a run needs of linked files, by numbers.
//!
//! # Proved
//!
//! - `linked_program`: of linked files all of `IsLinkedProgram`: classes, methods, component types, the table of
//!   subclasses, how many static fields there are, the texts of string constants, the words of the empty one, of what a
//!   division by zero tells and of the name of the first thread, and the numbers of String, of main of the initial
//!   class and of the place of Thread.run. It asks for nothing but linked files; its only error is a want of memory.
//!
//! # Not proved
//!
//! - Not proved: how long it takes, and that an error comes only where memory runs out or a number doesn't fit.
#![tactic(auto)]

mod calls;
pub mod class_rows;
pub mod linked_calls;
pub mod linked_methods;
pub mod linked_operands;
mod links;
mod main_method;
pub mod method_rows;
mod program;
mod text_words;
pub mod type_tables;

pub use program::linked_program;

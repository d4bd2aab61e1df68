//! Links of methods (JVMS 5.4.3): made once for linked classes, so that a machine looks no method up by name.
//!
//! # Proved
//!
//! - `MethodNumbers`: the methods of all classes, numbered in their order; `place` and `number_of` are one the other's
//!   way back.
//! - `MethodCalls`, memory aside: what a call needs (`IsCallOf`): the class, how many operands, which flags, and
//!   max_stack, max_locals and the code, which is shared.
//! - `NamedMethods`: the number of the method that a Methodref or InterfaceMethodref names, by `find_method` and
//!   `find_interface_method`. Of `SelectedMethods`: the number of the method that a class selects, by `select`; it
//!   walks superclasses, with one search among numbers a step. `declared_by` and `superclass` are what its table has of
//!   a class (`declared_number`): the method that the class itself declares (`AreDeclared`), and its superclass.
//! - The getters take no memory.

mod call;
mod call_table;
mod declarations;
mod make_call;
mod named;
mod numbers;
mod selected;
mod selectors;

pub use call::{FrameCode, MethodCall};
pub use call_table::MethodCalls;
pub use named::NamedMethods;
pub use numbers::MethodNumbers;
pub use selected::SelectedMethods;

//! Finds the method that a call runs, by the tables of a linked program.
//!
//! # Proved
//!
//! - The number that `class_of_kind` answers is that of the class whose methods an object of the kind has, which for an
//!   array is Object, the first class of each program. Where a call names a method by its place (`IsSelection`), and
//!   the receiver is of the class that is named, `select_virtual` answers the method that invokevirtual chooses, and
//!   never none. Where it names one by its selector (`IsInterfaceSelection`), `select_interface` answers the method
//!   that invokeinterface chooses, found by a binary search, and none exactly where that is an
//!   IncompatibleClassChangeError because the class doesn't implement the interface. `class_at` and `method_at` read
//!   rows.
//! - Of a linked program: the row of the number of a class or method is what linked code has of it (`classes_are_read`,
//!   `methods_are_read`); what a call of a chosen method runs is what its row says (`methods_are_run`): an
//!   AbstractMethodError, a built-in method, or code.
//!
//! # Not proved
//!
//! - Not proved: that the frame of a call is the model's; how many reads a choice takes.

mod interfaces;
mod kinds;
mod rows;
mod virtuals;

pub use interfaces::select_interface;
pub use kinds::class_of_kind;
pub use rows::{class_at, classes_are_read, method_at, methods_are_read, methods_are_run};
pub use virtuals::select_virtual;

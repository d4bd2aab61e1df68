//! The classes of linked code (JVMS 2.4, 4.1, 4.7.2, 5.5): for each class of linked files what a run needs of it.
//!
//! # Proved
//!
//! - `class_rows`: the classes of linked files in their order, each with its name with dots, its superclass, whether it
//!   is an interface, whether its objects may be cloned, how many fields they have and how many of these are cells, the
//!   number of its initialiser and its constants (`AreClasses`), and with the selections that were handed in for it. It
//!   asks for tables that `field_links` and `method_links` make of the same files, and for selections with rising
//!   selectors, for each class one. Its only error is a want of memory.
//! - On the way: numbers of methods are those of `method_links`, and fit in 32 bits; each superclass is in the set.
//!
//! # Not proved
//!
//! - Not shown here, but by `linked_calls`: that the selections are the methods that calls run.
//!
//! # Wrong bodies
//!
//! - `class_rows-all_fields_are_cells`: the fields that are no cells count, too; refused by `cell_count`.
//! - `class_rows-runnables_are_cloneable`: Runnable stands for Cloneable; refused by `is_cloneable`.
//! - `class_rows-threads_are_cloneable`: so are threads; refused by `is_cloneable`.

mod cloneable;
mod initialiser;
mod name;
mod numbers;
mod row;
mod rows;
mod sources;

pub use rows::class_rows;
pub use sources::{RowSources, Selections};

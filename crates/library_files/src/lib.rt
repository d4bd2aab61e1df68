//! Which classes of a library are added to class files: those that linking would else find missing.
#![tactic(auto)]

mod adding;
mod completing;
mod library_class;
mod names;
mod needed_texts;
mod needs;
mod offers;

pub use adding::added_classes;
pub use completing::{added_to, completed, own_of, with_bytes};
pub use library_class::LibraryClass;
pub use names::needed_names;

//! What rows are made from.

use hierarchy::{ClassSet, Hierarchy};
use linked_code::InterfaceSelection;
use linker::field_links::{FieldLinks, StringNumbers};
use method_tables::method_links::MethodNumbers;

/// A set of classes, and numbers of what it has.
#[derive(Clone, Copy)]
pub struct RowSources<'a> {
    pub set: &'a ClassSet,
    /// Of the same set.
    pub hierarchy: &'a Hierarchy,
    pub fields: &'a FieldLinks,
    pub texts: &'a StringNumbers,
    pub methods: &'a MethodNumbers,
}

/// The methods that calls on objects of a class run.
#[derive(Drop)]
pub struct Selections {
    /// The methods that `invokevirtual` runs, by the places that calls name.
    pub by_place: Vec<u32>,
    /// The methods that `invokeinterface` runs, with rising selectors.
    pub by_selector: Vec<InterfaceSelection>,
}

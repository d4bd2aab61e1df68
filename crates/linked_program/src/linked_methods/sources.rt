//! What methods are made from.

use crate::linked_calls::LinkedCalls;
use crate::type_tables::TypeTables;
use linker::Linked;
use linker::field_links::{FieldLinks, StringNumbers};
use method_tables::method_links::{MethodCalls, MethodNumbers};

/// Linked files, numbers of what they have, and the tables that are made for all classes at once.
#[derive(Clone, Copy)]
pub struct MethodSources<'a> {
    pub linked: &'a Linked,
    pub numbers: &'a MethodNumbers,
    /// What calls of each method need.
    pub declared: &'a MethodCalls,
    pub fields: &'a FieldLinks,
    pub texts: &'a StringNumbers,
    pub types: &'a TypeTables,
    /// What constant pools call.
    pub calls: &'a LinkedCalls,
}

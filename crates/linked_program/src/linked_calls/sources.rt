//! What calls are made from.

use hierarchy::Hierarchy;
use method_tables::method_links::{MethodCalls, MethodNumbers, NamedMethods, SelectedMethods};

/// Linked classes, and the links of their methods.
#[derive(Clone, Copy)]
pub struct CallSources<'a> {
    pub hierarchy: &'a Hierarchy,
    pub numbers: &'a MethodNumbers,
    pub selected: &'a SelectedMethods,
    pub named: &'a NamedMethods,
    pub calls: &'a MethodCalls,
}

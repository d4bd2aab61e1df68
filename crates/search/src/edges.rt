//! Edges between the states that a search has met.

/// An event of the state of the one number leads, past events that are alone, to the state of the other one.
#[derive(Clone, Copy)]
pub(crate) struct Edge {
    pub(crate) node: u32,
    pub(crate) to: u32,
}

//! What an event needs.

/// What an event needs that another thread may hold.
#[derive(Clone, Copy)]
pub enum Need {
    /// The monitor of an object.
    Monitor(u32),
    /// A class, by its number.
    Class(u16),
}

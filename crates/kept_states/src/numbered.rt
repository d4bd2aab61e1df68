//! A state with the numbers of its parts.

use machine_state::Shared;

/// The numbers of what a state keeps beside objects and threads.
#[derive(Clone, Copy)]
pub struct GlobalNumbers {
    pub statics: u32,
    pub statuses: u32,
    pub ready: u32,
    pub printed: u32,
    pub interned: u32,
}

/// A state that was read, with the numbers of its parts.
#[derive(Drop)]
pub struct Numbered {
    pub shared: Shared,
    /// That of the row of all that is not of objects nor of threads.
    pub globals: u32,
    pub numbers: GlobalNumbers,
    /// That of the list of the numbers of objects.
    pub heap: u32,
    pub objects: Vec<u32>,
    pub threads: Vec<u32>,
    /// That of the flags of inflated locks.
    pub fat: u32,
}

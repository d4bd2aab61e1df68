//! What the threads share.

use heap::Heap;
use heap::java_threads::Threads;
use thread_stacks::ThreadStack;

/// How far the initialisation of a class is (JVMS 5.5).
#[derive(Clone, Copy, PartialEq, Eq)]
pub enum ClassStatus {
    NotInitialised,
    /// By the thread of a number.
    InProgress(u16),
    Initialised,
    Erroneous,
}

/// What the threads of a machine share, and their stacks. While a thread does an event its own stack is lent out, and
/// what stands in its place here says nothing.
#[derive(Drop)]
pub struct Shared {
    /// The objects with their monitors, by their references.
    pub heap: Heap,
    /// The words of the static fields, by their slots.
    pub statics: Vec<u32>,
    /// How far the classes of the files are, in the order of the files.
    pub statuses: Vec<ClassStatus>,
    /// By the numbers of all classes: whether any thread may use the class with nothing done first.
    pub ready: Vec<bool>,
    /// The threads by their numbers, but for their stacks.
    pub threads: Threads,
    /// The UTF-16 units that were printed, the first of them first.
    pub printed: Vec<u16>,
    /// The Strings that were interned, the first of them first.
    pub interned: Vec<u32>,
    /// How many Threads were made without a name, as an int.
    pub unnamed: u32,
    /// By the numbers of the threads.
    pub stacks: Vec<ThreadStack>,
}

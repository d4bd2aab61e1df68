//! What an event did.

use heap::java_threads::WakeCause;

/// The monitor of an object, and how often its owner has entered it.
#[derive(Clone, Copy)]
pub struct Entries {
    pub object: u32,
    pub count: u32,
}

/// What an event did, beside an exception that it throws and the end of its thread. Objects are named by their
/// references, classes and methods by their numbers; a word is an int by its bits, or 0 for null and else a reference
/// and one.
#[derive(Clone, Copy)]
pub enum Deed {
    /// No more than its instruction says, or nothing.
    Nothing,
    /// The event put a word on the stack of its frame.
    Pushes {
        word: u32,
    },
    /// The event wrote to a local variable.
    Stores {
        local: u16,
        word: u32,
    },
    /// The event went on at an offset of its code.
    Goes {
        offset: u16,
    },
    /// The event read a field, of an object or a static one.
    ReadsField {
        object: Option<u32>,
        word: u32,
    },
    /// The event wrote to a field, which has this word now.
    WritesField {
        object: Option<u32>,
        word: u32,
    },
    /// The event read an element of an array.
    ReadsElement {
        array: u32,
        index: u32,
        word: u32,
    },
    /// The event wrote to an element, which has this word now.
    WritesElement {
        array: u32,
        index: u32,
        word: u32,
    },
    /// The event made an object.
    Makes {
        object: u32,
    },
    /// The event entered a monitor, which the thread has entered so often now.
    Enters(Entries),
    /// The event left a monitor, which the thread has entered so often still.
    Exits(Entries),
    /// The event called a method with code, and entered the monitor of a synchronized one.
    Calls {
        method: u32,
        entered: Option<Entries>,
    },
    /// A method returned, with a word where it returns one, and left the monitor that its invocation entered.
    Returns {
        word: Option<u32>,
        exited: Option<Entries>,
    },
    /// A call of a method without code was done, of which no more is to be told.
    Runs {
        method: u32,
    },
    /// The thread joined the wait set of an object, and has left its monitor.
    Waits {
        object: u32,
    },
    /// The event took a thread from the wait set of an object, if there was one.
    Notifies {
        thread: Option<u16>,
    },
    /// The event took all threads from the wait set of an object, which `Before` tells.
    NotifiesAll,
    /// The event started the thread of a Thread object.
    Starts {
        object: u32,
    },
    /// The event interrupted the thread of a Thread object.
    Interrupts {
        object: u32,
    },
    /// The event found that the thread of a Thread object has ended.
    Joins {
        object: u32,
    },
    /// The event let other threads go first.
    Yields,
    /// The event printed a number, with a line feed behind it.
    Prints {
        number: i32,
    },
    /// The event printed a text, which is the last part of what was printed so far: `Before` tells where it begins.
    PrintsText,
    /// An exception was caught, by a handler at this offset.
    Catches {
        exception: u32,
        offset: u16,
    },
    /// A method completed abruptly, and left the monitor that its invocation entered.
    Leaves {
        method: u32,
        exception: u32,
        exited: Option<Entries>,
    },
    /// The thread began to initialise a class.
    BeginsInitialisation {
        class: u16,
    },
    /// The event found that the class which it initialises declares no initialiser.
    NeedsNoInitialiser {
        class: u16,
    },
    /// The event ended the initialisation of a class.
    EndsInitialisation {
        class: u16,
    },
    /// The initialisation of a class failed.
    FailsInitialisation {
        class: u16,
    },
    /// The event entered the monitor again of the object on which it waited.
    EntersAgain {
        entries: Entries,
        cause: WakeCause,
    },
}

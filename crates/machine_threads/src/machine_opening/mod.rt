//! The state of a machine before any event (JVMS 5.2): the objects that there are from the start, static fields that
//! are 0 or null, classes of which none of a file is initialised, and the main thread, which has not begun.
//!
//! # Proved
//!
//! - `opening_state`: whatever linked files a program is linked from, the state that it makes shows their opening state
//!   over words (JVMS 5.2): the PrintStream of System.out, the arguments, the Thread of main, whose name is the String
//!   `main`, a Class for each class, a String for each text, whose words are the units of the text, and the PrintStream
//!   of System.err, each with a monitor that no thread owns and a lock that is not fat; static fields that are 0 or
//!   null; no class of a file initialised, and the built-in classes alone ready; the main thread, which has not begun,
//!   with an empty stack; nothing printed, no String interned, no Thread without a name, and no cell counted. The
//!   limits are those of the run, but for the limit on frames, which is not kept here. These are words of a well-typed
//!   state, so that what is proved of events holds from here on (`IsShown`). Its only error is a want of memory.
//! - Asked of callers: the program is linked from files that link.
//!
//! # Not proved
//!
//! - Not proved: that an error comes only where memory runs out.

mod objects;
mod opening;
mod readiness;

pub use opening::opening_state;

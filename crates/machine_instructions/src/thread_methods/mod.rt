//! What calls of built-in methods do, which have no code: waiting and notifying, threads, printing, what Strings
//! answer and how they get their texts, what StringBuilders do, what objects tell of themselves, copies of objects, names
//! of threads, and messages and causes of exceptions.
//!
//! # Proved
//!
//! - In whatever state of linked files a thread calls a method without code, with a receiver that is there, what
//!   `run_built_in` answers is what becomes of the event by `built_in_may` and `built_in_does`: done, with the world,
//!   the stack and the fat locks shown after it; not enabled; an exception to raise; or refused at the limit that
//!   stands or for want of memory. Unless it is done, nothing has changed. A notify wakes the member that is picked, a
//!   wait stays at its call, and a started thread has an empty stack.
//! - `print` adds to the text that was printed what `printed_by` says: an int in decimal, a char as its unit, the text
//!   of a String, and `null` (`printed_is`).
//! - A method of String answers what `string_answer` says of the texts and the ints among its operands: an int, an
//!   operand, or an exception. A String that is made is a new object, whose words are the units of its text.
//! - A method of StringBuilder does what `builder_does` says. `append` makes a String of the receiver's text and what
//!   is added; it becomes the text, and the receiver is answered. `toString` answers the text, and makes nothing.
//! - A constructor of String gives the text that `text_answer` says to a String that the run made and that is empty, at
//!   the cost of cells; any other keeps its own. `getChars` makes units elements of an array. `intern` answers the
//!   String that stands for a text: a constant, the first that was interned, or else the receiver, which is kept.
//! - `clone` makes one more object with the same words of an array, and of an object whose class is Cloneable and no
//!   Thread (`cloned`); of any other it raises an exception.
//! - A Thread keeps its target, its name and its number as `ThreadNames` of `model` says. `getName` answers the name;
//!   where there is none, a new String becomes it.
//!
//! # Not proved
//!
//! - Not proved: that memory suffices where it is refused, and time.
//!
//! # Wrong bodies
//!
//! - `thread_methods-prints-twice`: each digit and letter is printed twice; refused by the clause of `push_bytes`.

mod builders;
mod called;
mod chars;
mod clones;
mod growth;
mod interned;
mod lives;
mod messages;
mod moves;
mod names;
mod new_strings;
mod objects;
mod passing;
mod printing;
mod strings;
mod text_writes;
mod texts;
mod type_names;
mod waiting;

pub use called::run_built_in;

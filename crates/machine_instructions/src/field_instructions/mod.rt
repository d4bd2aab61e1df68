//! Instructions on fields, static fields and elements of arrays (JVMS 6.5), each as what becomes of an event of its
//! thread.
//!
//! Null is 0, and the word of a reference is the reference and one. Where an exception is raised, or there is no
//! memory for a word on the stack, nothing has changed. Where there is no frame on top, no instruction is to be done:
//! then each function answers NotEnabled.
//!
//! # Proved
//!
//! - In each state in which a thread runs at the instruction: `get_field`, `put_field`, `get_static`, `put_static`,
//!   `get_system_stream`, `load_element`, `store_int`, `store_narrow` and `array_length` do what becomes of the event by
//!   its instruction (`DoesOwn`), memory aside where there are more operands after it. Null is a NullPointerException,
//!   and then an index outside an ArrayIndexOutOfBoundsException; where one is raised, or memory is missing, nothing
//!   has changed. Fields and arrays of narrow types keep what the definitions keep. What leaves no word, or puts one in
//!   the place of another, takes no memory.
//!
//! # Not proved
//!
//! - Not proved here: that the class of a static field is initialised first, which is asked elsewhere.

mod arrays;
mod fields;
mod narrowing;
mod statics;

pub use arrays::{array_length, load_element, store_int, store_narrow};
pub use fields::{get_field, put_field};
pub use statics::{get_static, get_system_stream, put_static};

//! Texts of class files in lines that are told to people.
//!
//! # Proved
//!
//! - `push_printed`, memory aside: what it adds is the text, but that a backslash is doubled and a control character of
//!   ASCII is `\x` and its two hexadecimal digits (`printed`).

mod printed;

pub use printed::push_printed;

//! The lines of a trace, each of which tells an event: who did it and where, its instruction, and in words what it
//! did. Further what the things of a linked program are called: classes, methods, objects, and places in code with
//! the lines of their sources.
//!
//! # Proved
//!
//! - `push_line`, memory aside: what it adds is one line, with a line feed at its end and no other, whatever bytes the
//!   names of the class files have (`IsOneLine`), and a line by `IsLine`, in the form that is asked for. Number and
//!   thread are those of the event; method and offset of the frame on top, or the class on top, and the instruction are
//!   those of the stack that was seen. Outside of JSON a name is written as `printed` of `listings` has it, and a text
//!   that the event printed stands in quotation marks by `quotation`. What a line says that the event did, and of the
//!   line of the source, nothing else is promised.
//! - An object of JSON tells in members, too, what was done (`deed_members`): a word for it, a monitor and how often it
//!   is entered, how much is printed, a thread that was started. Which these are, nothing is promised of.
//! - `answer_deed`: a call of a method of String that answered is told as one that made the String of the word on top,
//!   where there are more objects since, and else as one that pushed that word.
//! - `builder_deed`: a constructor of StringBuilder is told as run, and another method of it that has no code as one
//!   that pushed the word on top.
//! - `naming_deed`, `writing_deed`: `getName` is told as one that made the name, where there are more objects since,
//!   and else as one that pushed it; `intern` as one that pushed a String; a constructor of Thread or String, `setName`
//!   and `getChars` as run.
//! - `push_fold`, memory aside: what it adds are the words of the line of a run of local instructions, whole, by the
//!   numbers that it is given (`fold_words`).
//! - `ProgramNames`: `class_name` is the name of the class of a number; `push_method`, memory aside, adds the method of
//!   a number by its class and its name (`method_words`). Nothing is proved of what it says of objects and of places in
//!   code but that it is safe and returns. Shown by cases: methods with the numbers that javac gives to lines, and with
//!   offsets; objects of each kind that a monitor is of there.
#![tactic(auto)]

mod deed_words;
mod fold;
mod form;
mod json;
mod line;
mod members;
mod names;
mod numbers;
mod objects;
mod parts;
mod places;
mod quotations;
mod said;
mod sorts;
mod sources;
mod threads;
pub mod traced_events;
mod words;

pub use fold::{Fold, push_fold};
pub use form::Form;
pub use line::{Line, push_line};
pub use names::ProgramNames;
pub use numbers::{push_number, push_words};
pub use objects::class_object_of;
pub use said::Said;
pub use threads::push_thread;

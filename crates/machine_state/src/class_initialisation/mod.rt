//! The initialisation of classes (JVMS 5.5): what comes first of an event that needs a class, the steps of a thread
//! that initialises one, and how one fails.
//!
//! # Proved
//!
//! - `look` says how a thread finds a class (JVMS 5.5), by the class's number. `need_class` says what comes first of an
//!   event that needs a class: where the class is ready, nothing has changed; else its answer is what becomes of the
//!   event, whatever comes after it: the thread begins to initialise the class and sets its constants, or waits, or a
//!   NoClassDefFoundError is pending. `initialise` is the event of a thread with a class on top (steps 7, 9, 10): the
//!   superclass, the class's own initialiser over its entry, the end. `fail` is what an exception makes of that class
//!   (steps 11, 12). Each refusal leaves all as it was.
//!
//! # Not proved
//!
//! - Not proved: that a function succeeds where there is memory.
//!
//! # Wrong bodies
//!
//! - `class_initialisation-superclass-after-class`: the superclass is initialised behind the class; refused by
//!   `Initialises` of `begin_step`.

mod constants;
mod initialisers;
mod needing;
mod statuses;
mod steps;

pub use needing::need_class;
pub use statuses::{ClassLook, look};
pub use steps::{fail, initialise};

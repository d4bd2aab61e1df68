//! The first event of a thread (JVMS 5.2, JLS 17): the call of the method that it runs.
//!
//! # Proved
//!
//! - `begin_thread`: the whole event Begin (JVMS 5.2; JLS 17). In whatever state of linked files the empty stack of a
//!   thread is lent, its answer says what becomes of the model's `begin_event`. A refusal at a limit or for want of
//!   memory, or an event that is not enabled, leaves all as it was.
//! - The main thread calls `main` of the initial class with the empty array (`begin_main`, the model's `main_event`).
//!   The initialisation of that class comes first (JVMS 5.5), and a synchronized `main` enters the monitor of the Class
//!   object. That `main` is there and has code is proved of linked files, and not asked of the caller.
//! - A started thread calls `run` of its Thread object by the rules of invokevirtual (JVMS 6.5; `begin_run`, the
//!   model's `run_event`): the frame, with the monitor of a synchronized method entered and the thread begun. Where
//!   `run` has no code, an AbstractMethodError is pending. Where a stack may have no frame, a StackOverflowError is, of
//!   `main`, too.
//! - `push_first` is the first frame of any thread.
//! - Asked of callers: the number of the thread is below 32767.
//!
//! # Not proved
//!
//! - Not proved: that there is no memory where the answer says so.

mod begun;
mod callees;
mod first_frames;
mod initial;
mod runs;
mod threads;

pub use callees::callee_at;
pub use first_frames::push_first;
pub use initial::begin_main;
pub use runs::{begin_run, run_of};
pub use threads::begin_thread;

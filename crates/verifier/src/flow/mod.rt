//! Where the instructions of a method lead from a frame type (JVMS 4.10.1).
//!
//! # Proved
//!
//! - `flow_at`, memory aside: where the instruction at an offset leads from a frame type, its handlers included, is the
//!   `flow` of the definitions, and there is no answer exactly where it has none. `entry_frame` is the entry type, and
//!   `handlers` gives each exception entry with the type that it catches. All ask for a linked set. `Meanings`, which
//!   it reads and writes, holds at an offset what the instruction there means, or nothing (`AreMeanings`).
//!
//! # Wrong bodies
//!
//! - `flow-unset_local_is_int`: a local variable without a parameter is an int; refused by the contract of `fill_up`:
//!   unusable.

mod entry;
mod flow;
mod handler;
mod lead;
mod local;
mod meanings;
mod stand;
mod successors;
mod untouched;

pub use entry::entry_frame;
pub use flow::flow_at;
pub(crate) use flow::leaves_at;
pub use handler::{Handler, handlers};
pub use lead::Lead;
pub(crate) use lead::{all_leads, has_handlers, only_target, targets_of};
pub use meanings::Meanings;

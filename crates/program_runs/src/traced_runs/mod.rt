//! A run under a schedule, told event by event.
//!
//! # Proved
//!
//! - `trace`, memory aside, for all accepted files, schedules, limits and windows, over any writer: the report and the
//!   end are those of a replay (`IsReplay`), and of the events that it did the lines of those that are to be told were
//!   written, and nothing else (`traced`, `IsTrace`). A line is one by `IsLine` of `traces`, in the form that is asked
//!   for, of the state to which `run` leads by the events before it; which are told is a matter of their numbers and
//!   threads (`is_told`). In JSON each text is a string by `quoted`. Before an error a beginning was written of the
//!   lines of a beginning of the events, to whose end `run` leads (`part`, `WritesFront`); `Device` exactly with one
//!   more failure of the writer (`counted`).
//! - In a summary a line may stand for a run of events one behind the other (`IsFolded`): each of them is to be told,
//!   is of one thread, and is local in the state to which `run` leads by those before it (`is_local` of `run_laws`),
//!   where the thread stands in one method. The line has the number of the first event, the thread, that method, the
//!   offsets at which the thread stands before the first event and before the last one, how many they are, and the
//!   number of the last one (`fold_words` of `traces`). That a run goes as far as it can is shown by cases alone.
//!
//! # Not proved
//!
//! - Shown by cases too: traces of the lessons, worked out by a plain machine in Python (`oracle/traces.py`). Shown by
//!   them alone: what a line says that an event did, and the line of the source.

mod events;
mod folds;
mod lines;
mod locals;
mod run;
mod window;

pub use run::trace;
pub use traces::Form;
pub use window::Window;

//! What the threads of a run are about that did not end normally, told to a person: where each stands, what it waits
//! for, from where an exception was thrown that ended it, and which threads wait for each other for ever (JVMS 2.10,
//! 5.5; JLS 17).
//!
//! # Proved
//!
//! - `explain_threads`, for the linked program of all accepted files: there is a report that is the replay of the
//!   schedule (`IsReplay`, as of `machine_replay`), and a machine that did just as many of the events and shows where
//!   they led (`IsAfter`). The text has, of each thread in turn, nothing where it ended normally, and else its line of
//!   the report and then lines that are indented by two spaces, each without control characters (`ExplainsRun`).
//! - Behind the threads stands, word by word, a line for each deadlock, and nothing else (`deadlock_words`). A deadlock
//!   is a cycle of threads, each of which waits for the next one, and the last for the first, which has the lowest
//!   number (`IsCycle`). All cycles are told, each once, in the order of their first threads (`AreCycles`).
//! - For which thread a thread waits is a definition over the machine's state and over how the threads stand in the
//!   report (`waits_of`). A blocked one waits for the owner of the monitor that its next event enters, or enters again
//!   after a wait. A joining one waits for the thread that is to end, and an initialising one for the thread that
//!   initialises the class. The state's monitors, threads and stacks are those of the definitions (`IsShown` of
//!   `machine_state`); which object an instruction enters is said of linked code.
//!
//! # Not proved
//!
//! - Nothing is proved of what the indented lines say. Shown by cases: a line of each kind, on programs whose states
//!   follow from the JVMS and the JLS; stacks of exceptions as java tells them.

mod awaited;
mod cycles;
mod deadlocks;
mod details;
mod explain;
mod following;
mod lines;
mod messages;
mod stacks;
mod throws;
mod waits;
mod watch;

pub use explain::explain_threads;

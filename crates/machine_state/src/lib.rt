//! What a machine of many threads keeps over untagged words, what its events answer, and of which world and which
//! step of the definitions both are.
//!
//! # Proved
//!
//! - Defined: `Represents`, when the words of a machine (`Shared`) show a world, and its heap has counted the cells that
//!   were made since the opening. `IsLent`: when they show a state whose thread has its own stack lent out.
//! - Defined: `Becomes`, when an answer (`Answer`, `EventRefusal`) is what becomes of an event. It is done, with no
//!   limit standing and the locks fat that the event makes fat; or it is not enabled; or it is refused at a limit that
//!   stands or for want of memory. In the latter two nothing has changed.
//! - Defined: `Does`, what an instruction's effect (`Effect`, `MachineException`) tells of its event.
//! - Refusals of `heap`, `monitor` and `java_threads` become those of the machine by their causes, and `cause` is the
//!   one that a report names; the event of a thread that runs is what its instruction does, where the class that it
//!   needs is ready (`instructions_are_done`).
//! - Defined: an event takes memory (`takes_memory`) where it makes an object, exceptions of the machine among them,
//!   starts a thread, joins a wait set, or is the entry that makes a lock fat. So does one that prints, or puts a frame
//!   or a class on the stack, or leaves more operands on top than were there. The latter are pushes, a value that is
//!   returned to an invoker, and an exception that is caught over no operand. `Becomes` and `Does` let only such an
//!   event be refused for want of memory.
//!
//! # Not proved
//!
//! - Not shown here, but of `machine`: that a machine is in such a state. That memory is wanted only where there is
//!   none is for tests to show, here and in all crates that answer so.
//!
//! # Wrong bodies
//!
//! - Planted by `rt plant`: 92 functions, 61 untried; 136 bodies judged, 24 not judged, 80 not run; proved 0.
#![tactic(auto)]

pub mod allocations;
mod answers;
pub mod bursts;
pub mod class_initialisation;
pub mod entries;
pub mod exception_handlers;
pub mod invocations;
pub mod limits_at_words;
pub mod linked_frames;
pub mod method_selection;
pub mod raised_exceptions;
mod refusals;
pub mod same_states;
pub mod shown_objects;
pub mod shown_runs;
pub mod shown_stacks;
mod state;
pub mod state_events;
pub mod thread_bursts;
pub mod type_tests;

ghost use Rattle.machine_state.specs.Instructions.{AreInstructionsDone};

pub use answers::{Answer, Effect, MachineException};
pub use refusals::EventRefusal;
pub use state::{ClassStatus, Shared};

/// The event of a thread that runs is what its instruction does, where the class that this needs is ready.
pub fn instructions_are_done()
    ensures holds { AreInstructionsDone }
{}

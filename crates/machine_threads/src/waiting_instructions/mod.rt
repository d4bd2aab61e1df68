//! Whether the instruction of the frame on top of a thread has to wait, and for what, found with no event done (JVMS
//! 2.11.10, 5.5, 6.5; JLS 17).
//!
//! # Proved
//!
//! - `instruction_standing`: of a thread that runs, with no exception pending and a frame on top, the standing is
//!   `Runnable` exactly where its event of pick 0 is enabled, and else that for which its instruction waits: a class
//!   that another thread initialises, a monitor that another one owns, or the end of a thread (`StandsAtIt`).

mod calls;
mod direct_calls;
mod frames;
mod instructions;
mod kinds;
mod looks;
mod methods;
mod monitors;
mod ready;

pub use instructions::instruction_standing;
pub use kinds::Standing;

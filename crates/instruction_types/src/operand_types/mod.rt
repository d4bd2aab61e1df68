//! The verifier's test of operands over types (JVMS 4.10.1.4), and the local instructions run over types.
//!
//! # Proved
//!
//! - `type_meets` and `is_ready`: the test of what an instruction wants, over types, is that of the definitions.
//! - `local_flow`: whether an instruction is local; if so, whether its operands are as it wants them, and where it
//!   leads with which frame type, by the row that the definitions give it. A frame type is changed in place, and is as
//!   before where the answer is another.
//!
//! # Not proved
//!
//! - Cases of `verify` show each family with code that just passes and code that just fails.

mod class;
mod local;
mod meets;
mod ready;
mod row;
mod table;
mod targets;
mod wants;

pub use local::{InstructionSite, LocalFlow, local_flow};
pub use meets::type_meets;
pub use ready::is_ready;
pub use wants::{LocalRead, Want, Wants};

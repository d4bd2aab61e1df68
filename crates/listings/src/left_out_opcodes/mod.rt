//! The instructions of the JVMS that this machine leaves out (6.5): their mnemonics, and how long they are.
//!
//! # Not proved
//!
//! - Nothing is proved of what `left_out_opcodes` says but that it is safe and returns.

mod instruction;
mod mnemonics;

pub use instruction::{LeftOut, Operands, left_out_at};
pub use mnemonics::mnemonic;

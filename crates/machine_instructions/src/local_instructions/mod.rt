//! Does the instructions that touch their frame alone, one at a time.
//!
//! # Proved
//!
//! - `local_instruction` does a local instruction as the event of the definitions, whatever is shared, which stays: it
//!   is done, or it is a division by zero, which raises an ArithmeticException and changes nothing. It gives up none
//!   that finds its operands. It may be refused for want of memory where it leaves more operands than there were, or
//!   raises, and nothing has changed then. So `goto`, `iadd` or a store is never refused. That a frame with room is
//!   never refused is proved of the step inside, and not of the call.

mod event;
mod kinds;

pub use event::{code_at, local_instruction};
pub use kinds::is_local;

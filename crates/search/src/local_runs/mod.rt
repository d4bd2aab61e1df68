//! How many of the next events of a thread are local: those of instructions that touch its frame alone, and throw
//! nothing. A search over all schedules may go past the states between them.
//!
//! # Proved
//!
//! - `local_count`, memory aside: whatever run of whatever accepted files led to what is shared, so many events of the
//!   thread go on from there, and each is local (`AreNextLocal`): it touches the frame on top alone, and throws nothing
//!   (`next_local` of `interleavings`). They are at most 1,024.
//!
//! # Not proved
//!
//! - Not said: that no further one is local.
//!
//! # Wrong bodies
//!
//! - `local_runs-takes-the-next-for-local`: what stands behind local instructions is taken for one, be it a call or a
//!   `getstatic`; refused by `can` of `count_in`: so many steps by the definitions.

mod counting;
mod theorems;

pub use counting::local_count;

//! Where the frame on top of a thread stands in linked code, and what an instruction may take for granted there.
//! The lemmas in `proofs/` are there for a crate above to cite.
//!
//! # Proved
//!
//! - The frame on top of a thread that runs, with no exception pending, stands at an instruction of the linked code of
//!   its method, in each state whose words are those of a well-typed one (`frames_stand`). That instruction finds its
//!   operands and room for what it leaves (`operands_are_there`). A frame that goes on at a place shows the frame of
//!   the definitions at the offset of that place (`moves_are_shown`). An event that takes nothing is done where the
//!   world after it is shown (`free_events_are_done`). `instruction_at` answers the instruction.

mod standing;

ghost use Rattle.machine_state.specs.linked_frames.Frames.{AreFramesStanding, AreTopsShown, AreOperandsThere};
ghost use Rattle.machine_state.specs.linked_frames.Moves.{AreMovesShown, AreFreeDone};

use crate::method_selection::methods_are_read;
use linked_code::{places_are_filled, places_are_next};
pub use standing::instruction_at;

/// The frame on top of a thread that runs, with no exception pending, stands at an instruction of the linked code of
/// its method.
pub fn frames_stand()
    ensures holds { AreFramesStanding }
{
    places_are_filled();
    places_are_next();
    methods_are_read();
}

/// What is kept of it shows the frame, and the rest of the stack.
pub fn tops_are_shown()
    ensures holds { AreTopsShown }
{}

/// Its instruction finds its operands, as many local variables as its method has, and room for what it pushes.
pub fn operands_are_there()
    ensures holds { AreOperandsThere }
{}

/// A frame that goes on at a place, with other words, shows the frame at the offset of that place.
pub fn moves_are_shown()
    ensures holds { AreMovesShown }
{}

/// An event that takes nothing is done where the world and the stack after it are shown.
pub fn free_events_are_done()
    ensures holds { AreFreeDone }
{}

//! Whether a class file is in the profile of this machine (OutsideProfile), and whether the code of its methods is well
//! formed (Malformed, cause Code; JVMS 4.7.3, 4.9.1): one walk over the file that finds the first fault.
//!
//! # Proved
//!
//! - `first_fault`, memory aside (`finds`, the definition `Finds`), for any program of which the class file is one:
//!   - `None` is answered only where neither `is_outside_profile` nor `has_malformed_code` of `model` holds of the
//!     class file, and so a fault where one of them does;
//!   - a fault stands where it is said to stand (`stands_at`): of the field, of the method's descriptor or flags, of
//!     its max_locals, of the instruction at the offset, or of the field of the exception entry a condition of the flaw
//!     holds, and so the condition of the whole class file does. In code that doesn't decode to its end nothing stands
//!     but the fault at that end.
//! - Which calls by `invokespecial` name a class that is neither the file's own nor above it goes beyond one file. The
//!   caller tells it by a table (`TellsClassAside`).
//! - `Place::code_offset`: the offset in the file of max_locals, of an instruction's opcode, or of a field of an
//!   exception entry (`place_offset`).
//! - The fault that is answered is the first (`IsFirstFault`): fields come before methods, in a method its descriptor
//!   and flags, its max_locals, where decoding of its code ends, its instructions by their offsets, its exception
//!   entries; of one place OutsideProfile comes first.
//! - `OutsideParts`: whether a field, the declaration of a method, or an instruction is outside of the profile
//!   (`field_outside_profile`, `method_outside_profile`, `instruction_outside_profile`).

mod code;
mod described;
mod fault;
mod field;
mod instruction;
mod jump;
mod method;
mod operand;
mod parts;
mod place;
mod walk;

pub use fault::{ExceptionField, Fault, Flaw, Place, Spot};
pub use parts::OutsideParts;
pub use walk::first_fault;

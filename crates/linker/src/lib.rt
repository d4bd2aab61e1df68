//! Linking (JVMS 5.4): what set of classes class files are, or why they are refused (own).
//!
//! # Proved
//!
//! - `link`, memory aside: `Ok` exactly where the bytes of each file spell a tree and no condition of linking stands in
//!   the trees (`linked`, `only`, the definition `IsLinkable`); the answer holds these trees, in their order. Any
//!   number of files are linked, and not only those that the machine runs.
//! - Of its refusals (`refused`, the definition `MayRefuse`): a refusal's condition stands in the trees, and none that
//!   comes before it in the order; it names a file in which the condition stands; `DuplicateClass` the later of two, or
//!   one of a built-in class's name; `Malformed`, with the cause `Code`, one of malformed code, or else the first file
//!   that spells no tree, with a cause and an offset that `decode` promises of its bytes (`IsFirstUnread`, `StandsAt`).
//! - Of what its refusals tell besides (`line`, the definition `TellsLineOf`):
//!   - of several files in which the condition stands the first is named. `OutsideProfile`, and `Malformed` with the
//!     cause `Code`, name the first that has either; `BadHierarchy` the first whose class is above itself, where there
//!     is such a class; `TooLarge` no file, or the first of a class with too many fields;
//!   - `OutsideProfile` tells the first fault of the walk over the file, `BadHierarchy` the first broken rule,
//!     `Unresolved` a place at which a name is not found: the method in which that lies, by the bytes of its name and
//!     its descriptor, or none where it lies in no method; and the offset of its instruction, where it is one. A cycle
//!     has no method;
//!   - `Malformed` tells no method. With the cause `Code` its offset is where the first fault of the walk stands in the
//!     file;
//!   - `DuplicateClass`, `NoMain` and `TooLarge` tell no method and no offset. None but `Malformed` tells a cause;
//!   - `OutOfMemory` tells at most a file, one that was being read, behind files that are class files.
//!
//! # Not proved
//!
//! - Shown by cases alone: which of several names of a file that are not found is told; and which of several files
//!   whose class is declared before. No contract says when there is memory, so also not which file was being read
//!   without it.
//!
//! # Wrong bodies
//!
//! - `unread_file_names_a_method`: bytes that are no class file are refused with a method of no bytes; refused by
//!   `line` of `link`: `Malformed` tells no method.
//! - `no_method_of_an_unresolved_name`: a call of a method that is not found is refused without the method in which it
//!   stands; refused by `line` of `link`: `Unresolved` tells the method of the place.
#![tactic(auto)]

mod aside;
pub mod class_constants;
mod decoding;
pub mod field_links;
mod hierarchy_rules;
mod linked;
pub mod linked_types;
mod linking;
mod names;
pub mod operand_rows;
mod place;
mod profile_walk;
mod set;

pub use link_conditions::refusal::{Cause, Refusal, RefusalKind};
pub use linked::Linked;
pub use linking::link;

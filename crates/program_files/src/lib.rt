//! Which class files the words of a command line stand for, and in which order they are handed on.
//!
//! # Proved
//!
//! - `given_paths` (`AreGiven`): a word that is no folder stands for itself. A folder stands for the class files in it
//!   and below it, sorted by their paths, of which there is one at least, without those that were given before
//!   (`AreFilesOf`, `IsGiven`).
//! - Faults of `given_paths`, memory and devices apart (`IsUngiven`): a word is a folder without a class file, or below
//!   it folders lie too deep in one another.
//! - `handed_on` (`AreHandedOn`): with a name, the file of the first class of that name comes first, and that class
//!   declares a main (`IsNamedFirst`). Without, behind a folder, that of the one class which declares a main comes
//!   first (`IsMainFirst`). Else the order stays.
//! - Faults of `handed_on` (`IsUnhanded`): there is no class of the name, or it declares no main, or classes of several
//!   names declare one.
//! - `held_classes` (`AreClasses`): which class each file holds, and whether it declares a main, by its bytes.
//!
//! # Not proved
//!
//! - Not said: the texts of the faults.
#![tactic(auto)]

mod class_paths;
mod file_order;
mod files_fault;
mod folder;
mod given_words;
mod held_class;

pub use class_paths::first_unlisted;
pub use file_order::handed_on;
pub use files_fault::FilesFault;
pub use folder::Folder;
pub use given_words::{given_paths, is_folder, is_given};
pub use held_class::{HeldClass, held_classes};

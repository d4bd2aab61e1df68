//! The listings of class files with names and line numbers, as far as the files have them: those of its SourceFile,
//! LineNumberTable and LocalVariableTable (JVMS 4.7.10, 4.7.12, 4.7.13).
//!
//! # Not proved
//!
//! - Nothing is proved of what its functions say but that they are safe and return. Shown by a case: the listing with
//!   names and line numbers of a class that javac made, as javap tells them, with instructions that this machine leaves
//!   out.

mod debug;
mod instruction;
mod listing;
mod text;

pub use listing::named_listings;

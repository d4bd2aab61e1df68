//! The listings of several class files: all are decoded, and then each is listed.
//!
//! # Proved
//!
//! - `decode_files`: the trees that the bytes of the files spell (`spelled`), or the first file that is no class file,
//!   with a cause that stands in it; or a want of memory for one of them (`refused`).
//! - `list_files`, over any writer: the listings of the trees, one behind the other, and nothing else, or before an
//!   error a beginning of that (`written`, `counted`).

mod decoding;
mod listing;

pub use decoding::decode_files;
pub use listing::list_files;

//! Instructions on objects and their types (JVMS 6.5), as events of a thread: `new`, `newarray`, `anewarray`, `ldc` of
//! an object, `aastore`, `checkcast`, `instanceof` and `athrow`.
//!
//! # Proved
//!
//! - In each state in which a thread runs at such an instruction, `new`, `newarray`, `anewarray`, `ldc` of an object,
//!   `aastore`, `checkcast`, `instanceof` and `athrow` do what the definitions say: which word they leave, which object
//!   is made, which exception is raised, in the order null, index, kind. A limit is told as it stands, and where an
//!   object is refused, or an exception comes, nothing has changed.
//!
//! # Not proved
//!
//! - Not proved: that memory is wanted only where there is none. That the class of `new` is initialised is asked
//!   elsewhere.

mod allocation;
mod arrays;
mod casts;
mod objects;
mod stores;

pub use arrays::{new_array, new_reference_array};
pub use casts::{check_cast, instance_of};
pub use objects::{load_object, new_object, throw};
pub use stores::store_reference;

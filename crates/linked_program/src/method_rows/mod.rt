//! The methods of linked code (JVMS 2.6, 2.11.8, 4.6): for each method of linked files what a run needs of it but for
//! its code.
//!
//! # Proved
//!
//! - `method_rows`, memory aside: for each method of linked files, by its number, a row that is `IsMethodRow`: the
//!   number of its class, how many words a call takes, whether it is static and synchronized, and whether it is
//!   abstract, has code, or is which of the methods of the machine (`built_in_method`). It asks for the numbers and the
//!   calls of `method_links`.
//! - `linked_method`: a row with the code of its method (`IsCode`), or with none where the method has no body, is a
//!   linked method (`IsLinkedMethod`). It takes no memory.
//! - On the way, of linked files: a call takes at most 255 words, a method with a body is not abstract, and numbers of
//!   classes have 16 bits.
//!
//! # Not proved
//!
//! - Shown by nothing: that `method_rows` answers where memory is there.
//!
//! # Wrong bodies
//!
//! - `method_rows-clone_notifies`: Object.clone is another method of Object; refused by `built_in_method`.
//! - `method_rows-get_name_sets_it`: Thread.getName is setName; refused by `built_in_method`.

mod built_in;
mod kind;
mod linked;
mod row;
mod rows;

pub use kind::{MethodKind, MethodRow};
pub use linked::linked_method;
pub use rows::method_rows;

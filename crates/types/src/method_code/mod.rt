//! Methods with code, in a set of classes, and the instructions in it.
//!
//! What the verifier and the links of instructions speak of: a method, the file of its class and its code, which belong
//! together, and an instruction where it stands.
//!
//! # Proved
//!
//! - `MethodCode::new`: the method at a place of a linked set with its file and its code, or none where there is none
//!   with code. Its getters and `site_at` are the definitions.

mod access;
mod declaration;
mod make;
mod site;

pub use declaration::MethodCode;
pub use site::{Site, site_at};

//! What each instruction that is not local wants, and where it leads, over the verifier's types (JVMS 4.10.1.9).
//!
//! # Proved
//!
//! - `meaning_of`, memory aside: what an instruction that is not local wants, and where it leads, is what the
//!   definitions say of it, at all operands; none where its operand names nothing of the wanted kind; or a class that
//!   it names is not in the set. The caller keeps that no two classes have one name.
//!
//! # Wrong bodies
//!
//! - `array_receiver_is_any_object`: a method of an array class takes any object; refused by `object_named`.
//! - `array_receivers_are_classes`: its receiver's type is looked for among the classes; refused by `call_on_named`.
#![tactic(auto)]

mod arrays;
mod calls;
mod fields;
pub mod leads;
pub mod meaning;
mod objects;
pub mod operand_types;
pub mod places;
mod returns;
mod table;
mod want;

pub use leads::Leads;
pub use meaning::{Meaning, NoMeaning};
pub use table::meaning_of;

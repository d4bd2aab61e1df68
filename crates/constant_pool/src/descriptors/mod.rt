//! Class names and descriptors (JVMS 4.2, 4.3).
//!
//! # Proved
//!
//! - `parse_field` answers a type exactly where the text is its descriptor by the grammar of JVMS 4.3, with at most 255
//!   dimensions; `parse_method` answers the types of the parameters and of the result exactly where the text is a
//!   method's descriptor with at most 255 slots of parameters, memory aside; `method_slots` answers a number exactly
//!   there, and then it is that of the slots (`found`, `only`). `is_class_name` and `is_unqualified_name` hold of the
//!   names of JVMS 4.2, and `Field::slots` is how many slots a type takes. `parse_method` alone takes memory. A
//!   `Method` is seen as a `MethodType`, which its getters show.

mod field;
mod method;
mod name;

pub use field::{Element, Field, parse_field};
pub use method::{Method, method_slots, parse_method};
pub use name::{is_class_name, is_unqualified_name};

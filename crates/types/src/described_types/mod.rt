//! The verifier's types that descriptors and class constants describe (JVMS 4.3, 4.4.1, 4.10.1.2).
//!
//! A type names its class by the place in a set of classes, so one whose class is not in the set has no answer here.
//!
//! # Proved
//!
//! - `field_type`, `method_types` and `named_type`: the verifier's types that a descriptor or a class constant
//!   describes, an interface as Object, in array types too; or none, exactly where a class of it is not in the set.
//!   `made_type`, `component_type` and `array_of` are the definitions of the same meaning. Only `method_types` takes
//!   memory.

mod described;
mod made;

pub use described::{MethodTypes, field_type, method_types, named_type};
pub use made::{array_of, component_type, made_type};

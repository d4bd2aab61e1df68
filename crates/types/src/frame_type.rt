//! Frame types as data.

use crate::verification_type::VerificationType;

/// The types of a frame's local variables and operand stack (JVMS 4.10.1.4).
#[derive(Drop)]
pub struct FrameType {
    pub locals: Vec<VerificationType>,
    /// The top comes last.
    pub stack: Vec<VerificationType>,
    /// Whether a constructor was called on `this`; outside of constructors it is so from the start.
    pub constructed: bool,
}

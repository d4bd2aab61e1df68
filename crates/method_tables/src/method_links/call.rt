//! What is needed at a call of a method.

use std::sync::Arc;

/// The code of a method for a frame that runs it (JVMS 4.7.3). Its bytes are shared.
#[derive(Drop)]
pub struct FrameCode {
    /// How many operands the stack of a frame has room for.
    pub max_stack: u16,
    /// How many local variables a frame has.
    pub max_locals: u16,
    pub code: Arc<Vec<u8>>,
}

/// What is needed at a call of a method.
#[derive(Drop)]
pub struct MethodCall {
    /// The place of the class that declares it.
    pub class: usize,
    /// How many operands a call takes: the arguments, and a receiver where the method is not static.
    pub operands: usize,
    pub is_static: bool,
    pub is_private: bool,
    pub is_synchronized: bool,
    pub is_native: bool,
    pub is_abstract: bool,
    /// None of a native or an abstract method.
    pub code: Option<FrameCode>,
}

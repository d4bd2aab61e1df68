//! What class files have in common, and what their code keeps of them as it stands there.

/// An entry of the exception table of a method's code (JVMS 4.7.3): the handler at the offset `handler` takes what
/// is thrown from the offset `start` on and before the offset `end`, if it is of the class that the entry
/// `catch_type` of the constant pool names, or whatever it is where `catch_type` is 0.
#[derive(Clone, Copy)]
pub struct ExceptionEntry {
    pub start: u16,
    pub end: u16,
    pub handler: u16,
    pub catch_type: u16,
}

//! What an entry of a constant pool calls, before the methods are selected.

/// What an `invokestatic`, an `invokevirtual` or an `invokeinterface` calls, and how many parameters that has. A
/// `call` is the place among the calls for which a method is selected.
#[derive(Clone, Copy)]
pub(crate) enum FoundCall {
    /// PrintStream.println(int).
    Println,
    Static {
        parameters: u8,
        /// The class that declares it.
        class: u16,
        method: u32,
    },
    Virtual {
        parameters: u8,
        call: usize,
    },
    Interface {
        parameters: u8,
        call: usize,
    },
}

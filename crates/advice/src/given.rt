//! What is handed in.

/// A class file: its name as it was given, and its bytes.
#[derive(Drop)]
pub struct GivenFile<'a> {
    pub name: &'a str,
    pub bytes: Vec<u8>,
}

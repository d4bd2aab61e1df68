//! A file in memory.

ghost use Rattle.std.specs.Prelude.{◌≡◌, [], Some};

use model::{DeviceFault, Sink};
use std::alloc::Global;

/// The bytes of a file before it is written, as a sink that never fails.
#[derive(Drop)]
pub(crate) struct MadeFile {
    bytes: Vec<u8>,
}

impl MadeFile {
    /// One without a byte.
    pub(crate) fn new(alloc: Global) -> MadeFile
        ensures { result.bytes.items ≡ [] }
    {
        MadeFile {
            bytes: Vec::new(alloc),
        }
    }

    /// Its bytes.
    pub(crate) fn bytes(&self) -> &[u8]
        ensures { result.now ≡ self.now.bytes.items }
    {
        self.bytes.as_slice()
    }
}

impl Sink for MadeFile {
    ghost contents = { λ file. Some file.bytes.items };

    ghost failures = { λ _. 0 };

    fn write_all(&mut self, bytes: &[u8]) -> Result<(), DeviceFault> {
        self.bytes.extend_from_slice(bytes)?;
        Ok(())
    }
}

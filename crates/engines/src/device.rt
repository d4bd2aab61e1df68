//! Readers and writers of the system, as devices: all of a reader is read, and all of a text is written.

ghost use Rattle.std.specs.Prelude.{◌≡◌, vec_len};

use crate::watched::Watched;
use model::{DeviceFault, Sink, Source};
use std::alloc::Global;
use std::io;
use std::io::{Read, Write};

/// A reader or a writer whose failures are counted below.
#[derive(Drop)]
pub struct Counted<D> {
    device: Watched<D>,
}

impl<D> Counted<D> {
    /// The device, with no failure so far.
    pub fn new(alloc: Global, device: D) -> Counted<D>
        ensures device { result.device.device ≡ device }
        ensures none { vec_len result.device.failures ≡ 0 }
    {
        Counted {
            device: Watched::new(alloc, device),
        }
    }

    /// The device.
    pub fn into_inner(self) -> D
        ensures { result ≡ self.device.device }
    {
        self.device.into_inner()
    }

    /// Its first failure.
    pub fn failure(&self) -> Option<&io::Error> {
        self.device.failure()
    }
}

impl<R: Read> Source for Counted<R> {
    ghost remaining = { λ source. R.remaining source.device.device };

    ghost failures = { λ source. vec_len source.device.failures };

    fn read_all(&mut self, alloc: Global) -> Result<Vec<u8>, DeviceFault> {
        self.device.read_to_end(alloc)
    }
}

impl<W: Write> Sink for Counted<W> {
    ghost contents = { λ sink. W.contents sink.device.device };

    ghost failures = { λ sink. vec_len sink.device.failures };

    fn write_all(&mut self, bytes: &[u8]) -> Result<(), DeviceFault> {
        let mut rest = bytes;
        'rest: while !rest.is_empty() {
            let written = self.device.write(rest)?;
            rest = &rest[written..];
        }
        Ok(())
    }
}

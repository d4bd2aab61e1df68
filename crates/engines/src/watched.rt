//! Readers and writers whose failures are counted. When they fail is in no contract of theirs: what is counted is
//! what they answer, call by call.

ghost use Rattle.std.specs.Prelude.{◌≡◌, ◌≤◌, ◌<◌, IfOk, IfSome, OnErr, OnOk, length, take, vec_len};
ghost use Rattle.std.specs.Io.KnownBytes.{Appends, IsAtEnd, Keeps};
ghost use Rattle.model.specs.Devices.{Counts, CountsFault, LosesFront};

use model::DeviceFault;
use std::alloc::Global;
use std::io;
use std::io::{ErrorKind, Read, Write};

/// A reader or a writer, and its failures, the oldest first.
#[derive(Drop)]
pub(crate) struct Watched<D> {
    device: D,
    failures: Vec<io::Error>,
}

impl<D> Watched<D> {
    /// The device, with no failure so far.
    pub(crate) fn new(alloc: Global, device: D) -> Watched<D>
        ensures device { result.device ≡ device }
        ensures none { vec_len result.failures ≡ 0 }
    {
        Watched {
            device,
            failures: Vec::new(alloc),
        }
    }

    /// The device.
    pub(crate) fn into_inner(self) -> D
        ensures { result ≡ self.device }
    {
        self.device
    }

    /// Its first failure.
    pub(crate) fn failure(&self) -> Option<&io::Error> {
        self.failures.first()
    }

    /// Counts a failure of the device, unless it is a want of memory.
    fn fault(&mut self, error: io::Error) -> DeviceFault
        ensures device { self.new.device ≡ self.old.device }
        ensures counted { CountsFault result (vec_len self.old.failures) (vec_len self.new.failures) }
    {
        if error.kind() == ErrorKind::OutOfMemory || self.failures.push(error).is_err() {
            DeviceFault::Memory
        } else {
            DeviceFault::Device
        }
    }
}

impl<R: Read> Watched<R> {
    /// Reads all the bytes that are left.
    pub(crate) fn read_to_end(&mut self, alloc: Global) -> Result<Vec<u8>, DeviceFault>
        ensures read { IfOk result (λ bytes. IfSome (R.remaining self.old.device) (λ left. bytes.items ≡ left)) }
        ensures end { OnOk result (IsAtEnd (R.remaining self.new.device)) }
        ensures lost { OnErr result (LosesFront (R.remaining self.old.device) (R.remaining self.new.device)) }
        ensures counted { Counts result (vec_len self.old.failures) (vec_len self.new.failures) }
    {
        let mut bytes = Vec::new(alloc);
        match self.device.read_to_end(&mut bytes) {
            Ok(_) => Ok(bytes),
            Err(error) => Err(self.fault(error)),
        }
    }
}

impl<W: Write> Watched<W> {
    /// Writes some of the bytes, at least one where there are some, and answers how many.
    pub(crate) fn write(&mut self, bytes: &[u8]) -> Result<usize, DeviceFault>
        ensures some { IfOk result (λ written. (written ≤ length bytes.now) × (0 < length bytes.now → 0 < written)) }
        ensures written { IfOk result (λ written.
            Appends (W.contents self.old.device) (W.contents self.new.device) (take written bytes.now)) }
        ensures none { OnErr result (Keeps (W.contents self.old.device) (W.contents self.new.device)) }
        ensures counted { Counts result (vec_len self.old.failures) (vec_len self.new.failures) }
    {
        for _ in 0..u64::MAX {
            match self.device.write(bytes) {
                Ok(written) => {
                    if written == 0 && !bytes.is_empty() {
                        return Err(self.fault(io::Error::from(ErrorKind::WriteZero)));
                    }
                    return Ok(written);
                }
                Err(error) => {
                    if error.kind() != ErrorKind::Interrupted {
                        return Err(self.fault(error));
                    }
                }
            }
        }
        Err(self.fault(io::Error::from(ErrorKind::TimedOut)))
    }
}

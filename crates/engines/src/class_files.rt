//! The reading of class files.

ghost use Rattle.std.specs.Prelude.{◌≡◌, ◌<◌, IfOk, IfErr, length, map, sum_by, vec_items};
ghost use Rattle.engines.specs.Engines.{CountsFailure, IsOfFile, Reads, ReadsEach, no_memory};
ghost use Rattle.engines.specs.Opening.{IsKeptBy, IsOfSchedule};

use crate::fault::Fault;
use link_conditions::refusal::{Refusal, RefusalKind};
use model::{DeviceFault, Source};
use std::alloc::Global;

/// The bytes of each class file.
pub(crate) fn read_class_files<S: Source>(
    alloc: Global,
    files: &mut [S],
) -> Result<Vec<Vec<u8>>, Fault>
    ensures read { IfOk result (λ read. ReadsEach (map S.remaining files.old) (map vec_items read.items)) }
    ensures kept { IfErr result (λ fault. (left : _) (options : _)
        → IsKeptBy left (map S.remaining files.old) options fault) }
    ensures of_files { IfErr result (λ fault. IsOfSchedule fault → ⊥) }
    ensures of_file { IfErr result (λ fault. (file : _) × (file < length files.old) × IsOfFile file fault) }
    ensures counted { CountsFailure result (sum_by S.failures files.old) (sum_by S.failures files.new) }
{
    let mut read = Vec::new(alloc);
    for (number, file) in files.iter_mut().enumerate() {
        let bytes = read_class_file(alloc, file, number)?;
        if read.push(bytes).is_err() {
            return Err(Fault::Refusal(out_of_memory(number)));
        }
    }
    Ok(read)
}

/// The bytes of the class file with this number.
pub(crate) fn read_class_file<S: Source>(
    alloc: Global,
    file: &mut S,
    number: usize,
) -> Result<Vec<u8>, Fault>
    ensures read { IfOk result (λ bytes. Reads (S.remaining file.old) bytes.items) }
    ensures kept { IfErr result (λ fault. (left : _) (lefts : _) (options : _)
        → IsKeptBy left lefts options fault) }
    ensures of_file { IfErr result (IsOfFile number) }
    ensures counted { CountsFailure result (S.failures file.old) (S.failures file.new) }
{
    match file.read_all(alloc) {
        Ok(bytes) => Ok(bytes),
        Err(DeviceFault::Device) => Err(Fault::Device),
        Err(DeviceFault::Memory) => Err(Fault::Refusal(out_of_memory(number))),
    }
}

/// The refusal that there is no memory for a class file.
pub(crate) fn out_of_memory(file: usize) -> Refusal
    ensures { result ≡ no_memory file }
{
    Refusal {
        kind: RefusalKind::OutOfMemory,
        file: Some(file),
        method: None,
        offset: None,
        cause: None,
    }
}

//! Where a place of a method's code stands in the bytes of the class file (JVMS 4.7.3).

ghost use Rattle.std.specs.Prelude.{◌≡◌, option_map};
ghost use Rattle.constant_pool.specs.Checking.{saturated};
ghost use Rattle.classfile.specs.View.{code_of, file_of};
ghost use Rattle.classfile.specs.profile.Places.{field_offset, offset_in_code, method_code, place_offset};

use crate::profile::fault::{ExceptionField, Place, Spot};
use crate::{ClassFile, Code};

/// How far a field of an exception entry is from the entry's begin.
fn field_offset(field: ExceptionField) -> usize
    ensures { result ≡ field_offset field }
{
    match field {
        ExceptionField::StartPc => 0,
        ExceptionField::EndPc => 2,
        ExceptionField::HandlerPc => 4,
    }
}

/// How far a spot is from the begin of what the Code holds.
fn offset_in_code(code: &Code, spot: Spot) -> Option<usize>
    ensures { result ≡ option_map saturated (offset_in_code (code_of code.now) spot) }
{
    match spot {
        Spot::Declaration => None,
        Spot::MaxLocals => Some(2),
        Spot::Instruction { pc } => Some(pc.saturating_add(8)),
        Spot::Exception { entry, field } => Some(
            entry
                .saturating_mul(8)
                .saturating_add(code.code.len())
                .saturating_add(10 + field_offset(field)),
        ),
    }
}

/// The Code of the method of an index.
fn method_code(file: &ClassFile, method: usize) -> Option<&Code>
    ensures { option_map (λ c. code_of c.now) result ≡ method_code (file_of file.now) method }
{
    match file.methods.get(method) {
        Some(method) => method.code(),
        None => None,
    }
}

impl Place {
    /// The offset in the file of the max_locals, of the instruction's opcode, or of the exception entry's field.
    /// `None` for another place, and where the file has no such method with code. No file in memory is so long that
    /// the highest `usize` is answered in its place.
    pub fn code_offset(&self, file: &ClassFile) -> Option<usize>
        ensures { result ≡ place_offset (file_of file.now) self.now }
    {
        match *self {
            Place::Field { .. } => None,
            Place::Method { method, spot } => {
                let code = method_code(file, method)?;
                let inside = offset_in_code(code, spot)?;
                Some(file.code_offset(method).saturating_add(inside))
            }
        }
    }
}

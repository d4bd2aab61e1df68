//! The handlers of a method, with the types of what they catch.

ghost use Rattle.std.specs.Prelude.{◌≡◌, false, IfOk};
ghost use Rattle.model.specs.Step.{covers};
ghost use Rattle.model.specs.Typing.{caught_class, caught_type};
ghost use Rattle.types.specs.View.{type_in};
ghost use Rattle.types.specs.described_types.Described.{type_missing};
ghost use Rattle.model.specs.DescribedTypes.{type_named};
ghost use Rattle.types.specs.method_code.Linked.{IsLinked};
ghost use Rattle.types.specs.method_code.View.{files_of, body_of};
ghost use Rattle.verifier.specs.flow.Handlers.{AreHandlers};

use classfile::ClassFile;
use model::ExceptionEntry;
use std::alloc::{AllocError, Global};
use types::VerificationType;
use types::described_types::named_type;
use types::method_code::MethodCode;

/// An entry of a method's exception table, and the type of what it catches.
#[derive(Clone, Copy)]
pub struct Handler {
    pub entry: ExceptionEntry,
    pub caught: VerificationType,
}

impl Handler {
    /// Whether an offset lies in the range of the entry (JVMS 4.7.3).
    pub fn covers(self, offset: usize) -> bool
        ensures { result ≡ covers offset self.entry }
    {
        let entry = self.entry;
        entry.start as usize <= offset && offset < entry.end as usize
    }
}

/// The class that an entry takes; each Throwable where it names none (JVMS 4.7.3).
fn caught_class(file: &ClassFile, entry: ExceptionEntry) -> &[u8]
    ensures { result.now ≡ caught_class file.now.pool entry }
{
    if entry.catch_type == 0 {
        return b"java/lang/Throwable";
    }
    file.class_name(entry.catch_type).unwrap_or(b"")
}

fn caught_type(method: &MethodCode<'_>, entry: ExceptionEntry) -> VerificationType
    requires { type_missing (files_of method.now) (type_named (caught_class (body_of method.now).pool entry)) ≡ false }
    ensures { type_in (files_of method.now) result ≡ caught_type (files_of method.now) (body_of method.now).pool entry }
{
    match named_type(method.set(), caught_class(method.file(), entry)) {
        Some(class) => VerificationType::Object(class),
        None => unreachable!(),
    }
}

/// The handlers of a method, in the order of its exception table.
pub fn handlers(alloc: Global, method: &MethodCode<'_>) -> Result<Vec<Handler>, AllocError>
    requires { IsLinked (files_of method.now) }
    ensures { IfOk result (λ v. AreHandlers method.now v.items) }
{
    let entries = method.code.exceptions.as_slice();
    let mut handlers = Vec::with_capacity(alloc, entries.len())?;
    'entries: for entry in entries {
        let caught = caught_type(method, *entry);
        handlers.push(Handler {
            entry: *entry,
            caught,
        })?;
    }
    Ok(handlers)
}

//! Numbers of what linked files have.

ghost use Rattle.std.specs.Prelude.{IfOk};
ghost use Rattle.linked_program.specs.Links.{AreLinksOf};

use linker::Linked;
use linker::field_links::{FieldLinks, StringNumbers};
use method_tables::method_links::{MethodCalls, MethodNumbers};
use std::alloc::{AllocError, Global};

/// The numbers of methods, fields and string constants, and what calls of each method need.
#[derive(Drop)]
pub(crate) struct FileLinks {
    pub methods: MethodNumbers,
    pub declared: MethodCalls,
    pub fields: FieldLinks,
    pub texts: StringNumbers,
}

/// The links of linked files.
pub(crate) fn file_links(alloc: Global, linked: &Linked) -> Result<FileLinks, AllocError>
    ensures { IfOk result (AreLinksOf linked.now) }
{
    let set = linked.set();
    let methods = MethodNumbers::new(alloc, set)?;
    let declared = MethodCalls::new(alloc, set, &methods)?;
    Ok(FileLinks {
        methods,
        declared,
        fields: FieldLinks::new(alloc, linked)?,
        texts: StringNumbers::new(alloc, set)?,
    })
}

//! Class files that are linked.

use linker::{Linked, link};
use std::alloc::Global;
use std::test::Fail;

/// The class of a file, linked.
pub(crate) fn linked(alloc: Global, file: &[u8]) -> Result<Linked, Fail> {
    let mut files = Vec::new(alloc);
    files.push(Vec::from_slice(alloc, file)?)?;
    match link(alloc, &files) {
        Ok(linked) => Ok(linked),
        Err(_) => Err("not linked".into()),
    }
}

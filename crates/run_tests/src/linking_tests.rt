//! How long the rows of selected methods are: no clause says so.

use crate::class_files::PRINTS_SEVEN;
use crate::program::linked;
use linker::Linked;
use method_tables::method_links::{MethodNumbers, SelectedMethods};
use method_tables::selection_tables::{CallKind, NamedCall, SelectionTables, selection_tables};
use model::built_in::{BUILT_IN_CLASSES, OBJECT, STRING, THREAD};
use std::alloc::{AllocError, Global};
use std::test::Fail;

/// A call of a method of Object, which is neither private nor static.
static CALLS: [NamedCall; 1] = [NamedCall {
    kind: CallKind::Virtual,
    class: OBJECT,
    method: 6,
}];

/// Classes, and how many methods the rows of these have: that of Object; in Thread also the one that runs; and in the
/// class of the file no other than in Object.
const LENGTHS: [(usize, usize); 4] = [(OBJECT, 1), (THREAD, 2), (STRING, 1), (BUILT_IN_CLASSES, 1)];

/// The tables of linked classes in which that call is the only one.
fn tables_of(alloc: Global, linked: &Linked) -> Result<SelectionTables, AllocError> {
    let numbers = MethodNumbers::new(alloc, linked.set())?;
    let selected = SelectedMethods::new(alloc, linked.set(), &numbers)?;
    selection_tables(alloc, linked.hierarchy(), &numbers, &selected, &CALLS)
}

#[test]
fn rows_have_the_methods_that_are_called(rt: HostRuntime) -> Result<(), Fail> {
    let linked = linked(rt.alloc(), &PRINTS_SEVEN)?;
    let tables = tables_of(rt.alloc(), &linked)?;
    for (class, length) in LENGTHS {
        let found = tables.selections.get(class).map(|row| row.len());
        assert_eq!(rt; found, Some(length), "class {class}");
    }
    Ok(())
}

//! What the actions of events are looked up in: linked class files, and the numbers of their methods and classes.

ghost use Rattle.std.specs.Prelude.{◌≡◌, IfOk};

use linker::Linked;
use next_accesses::access_tables::AccessTables;
use std::alloc::{AllocError, Global};
use thread_calls::call_tables::CallTables;

/// Linked class files with what calls and accesses are looked up in.
#[derive(Drop)]
pub struct RaceTables<'a> {
    pub(crate) linked: &'a Linked,
    pub(crate) calls: CallTables<'a>,
    pub(crate) accesses: AccessTables<'a>,
    ghost calls_are: { calls.linked.now ≡ linked.now },
    ghost accesses_are: { accesses.linked.now ≡ linked.now },
}

impl<'a> RaceTables<'a> {
    /// Of linked class files. The only error is a want of memory.
    pub fn new(alloc: Global, linked: &'a Linked) -> Result<RaceTables<'a>, AllocError>
        ensures { IfOk result (λ tables. tables.linked.now ≡ linked.entry.now) }
    {
        let calls = CallTables::new(alloc, linked)?;
        let accesses = AccessTables::new(alloc, linked)?;
        Ok(RaceTables {
            linked,
            calls,
            accesses,
        })
    }
}

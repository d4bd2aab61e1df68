//! What constant pools call.

ghost use Rattle.std.specs.Prelude.{IfOk};
ghost use Rattle.linker.specs.Linking.{IsLinked};
ghost use Rattle.linked_program.specs.linked_calls.Calls.{AreLinkedCalls};
ghost use Rattle.linked_program.specs.Links.{AreLinksOf};

use crate::linked_calls::{CallSources, LinkedCalls, linked_calls};
use crate::links::FileLinks;
use hierarchy::Hierarchy;
use method_tables::method_links::{NamedMethods, SelectedMethods};
use std::alloc::{AllocError, Global};

/// The calls of linked classes, by the numbers of their methods. What classes select and what entries name is made for
/// this alone.
pub(crate) fn calls_of(
    alloc: Global,
    hierarchy: &Hierarchy,
    links: &FileLinks,
) -> Result<LinkedCalls, AllocError>
    requires linked { IsLinked hierarchy.now }
    requires links { AreLinksOf hierarchy.now links.now }
    ensures { IfOk result (AreLinkedCalls hierarchy.now) }
{
    let selected = SelectedMethods::new(alloc, hierarchy.set(), &links.methods)?;
    let named = NamedMethods::new(alloc, hierarchy, &links.methods)?;
    let sources = CallSources {
        hierarchy,
        numbers: &links.methods,
        selected: &selected,
        named: &named,
        calls: &links.declared,
    };
    linked_calls(alloc, &sources)
}

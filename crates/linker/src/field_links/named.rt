//! The field that a symbolic reference names.

ghost use Rattle.std.specs.Prelude.{◌≡◌};
ghost use Rattle.std.specs.Option.{option_and_then};
ghost use Rattle.model.specs.Names.{member_eq, system_out, system_err};
ghost use Rattle.model.specs.Pool.{field_at};
ghost use Rattle.constant_pool.specs.View.{reference_of};
ghost use Rattle.linker.specs.Linking.{IsLinked};
ghost use Rattle.linker.specs.field_links.Links.{named_link};
ghost use Rattle.linker.specs.field_links.Slots.{AreEnds};

use crate::field_links::link::FieldLink;
use crate::field_links::slots::{Ends, link_at};
use classfile::{ClassFile, Reference};
use hierarchy::Hierarchy;

fn is_system_out(named: Reference<'_>) -> bool
    ensures { result ≡ member_eq (reference_of named.entry) system_out }
{
    named.class == b"java/lang/System".as_slice()
        && named.name == b"out".as_slice()
        && named.descriptor == b"Ljava/io/PrintStream;".as_slice()
}

fn is_system_err(named: Reference<'_>) -> bool
    ensures { result ≡ member_eq (reference_of named.entry) system_err }
{
    named.class == b"java/lang/System".as_slice()
        && named.name == b"err".as_slice()
        && named.descriptor == b"Ljava/io/PrintStream;".as_slice()
}

/// Where the field is that a symbolic reference names.
fn named_link(hierarchy: &Hierarchy, ends: &Ends, named: Reference<'_>) -> Option<FieldLink>
    requires linked { IsLinked hierarchy.now }
    requires ends { AreEnds hierarchy.now ends.now }
    ensures { result ≡ named_link hierarchy.now (reference_of named.entry) }
{
    if is_system_out(named) {
        return Some(FieldLink::SystemOut);
    }
    if is_system_err(named) {
        return Some(FieldLink::SystemErr);
    }
    match hierarchy.find_field(named) {
        Some(place) => link_at(hierarchy.set(), ends, place),
        None => None,
    }
}

/// Where the field is that the Fieldref of an index names.
pub(crate) fn link_of_index(
    hierarchy: &Hierarchy,
    ends: &Ends,
    file: &ClassFile,
    index: u16,
) -> Option<FieldLink>
    requires linked { IsLinked hierarchy.now }
    requires ends { AreEnds hierarchy.now ends.now }
    ensures { result ≡ option_and_then (named_link hierarchy.now) (field_at file.now.pool index) }
{
    match file.field_reference(index) {
        Some(named) => named_link(hierarchy, ends, named),
        None => None,
    }
}

//! The fields that constant pools name, by their slots.

ghost use Rattle.std.specs.Prelude.{◌≡◌, length, IfOk};
ghost use Rattle.model.specs.Classes.{Program};
ghost use Rattle.model.specs.Opening.{static_fields};
ghost use Rattle.linker.specs.Linking.{IsLinked};
ghost use Rattle.linker.specs.field_links.Links.{field_link, slot_count, cell_count};
ghost use Rattle.linker.specs.field_links.Tables.{in_row, AreFieldLinks};

use crate::Linked;
use crate::field_links::chain::Counted;
use crate::field_links::link::FieldLink;
use crate::field_links::row::link_rows;
use crate::field_links::sizes::sizes;
use crate::field_links::slots::Ends;
use crate::field_links::statics::static_ends;
use hierarchy::Hierarchy;
use std::alloc::{AllocError, Global};
use std::marker::Model;

/// For each Fieldref of the classes of a program where the field is that it names, and how many fields there are.
#[derive(Drop)]
pub struct FieldLinks {
    /// For each class those that its constant pool names, by their index.
    rows: Vec<Vec<Option<FieldLink>>>,
    /// For each class how many slots its objects have.
    sizes: Vec<usize>,
    /// For each class how many of these count for the limit on cells.
    cells: Vec<usize>,
    statics: usize,
}

impl Model for FieldLinks {
    ghost use Rattle.std.specs.Prelude.{map};
    ghost use Rattle.linker.specs.field_links.Tables.{FieldTables};

    ghost Value = { FieldTables };

    ghost view = { λ s. record {
      rows = map (λ row. row.items) s.rows.items;
      sizes = s.sizes.items;
      cells = s.cells.items;
      statics = s.statics;
    } };
}

/// What a row says of an index.
fn entry_of_row(row: &[Option<FieldLink>], index: u16) -> Option<FieldLink>
    ensures { result ≡ in_row row.now index }
{
    row.get(index as usize).copied().unwrap_or(None)
}

/// The links of the classes of a hierarchy.
fn links_of(alloc: Global, hierarchy: &Hierarchy) -> Result<FieldLinks, AllocError>
    requires { IsLinked hierarchy.now }
    ensures { IfOk result (λ links. AreFieldLinks hierarchy.now links) }
{
    let set = hierarchy.set();
    let instances = sizes(alloc, set, Counted::Fields)?;
    let cells = sizes(alloc, set, Counted::Cells)?;
    let (statics, count) = static_ends(alloc, set)?;
    let ends = Ends { instances, statics };
    let rows = link_rows(alloc, hierarchy, &ends)?;
    Ok(FieldLinks {
        rows,
        sizes: ends.instances,
        cells,
        statics: count,
    })
}

impl FieldLinks {
    /// The links of linked classes. This alone takes memory.
    pub fn new(alloc: Global, linked: &Linked) -> Result<FieldLinks, AllocError>
        ensures { IfOk result (λ links. AreFieldLinks linked.now links) }
    {
        links_of(alloc, linked.hierarchy())
    }

    /// Where the field is that the Fieldref of an index names, in the constant pool of the class at a place (JVMS
    /// 5.4.3.2). `None` where the index names no Fieldref, and where no instruction can name this one.
    pub fn field(&self, class: usize, index: u16) -> Option<FieldLink>
        ensures { (files : Program) → AreFieldLinks files self.now → result ≡ field_link files class index }
    {
        match self.rows.get(class) {
            Some(row) => entry_of_row(row, index),
            None => None,
        }
    }

    /// How many slots an object of the class at a place has: its instance fields, and those of its superclasses.
    pub fn slot_count(&self, class: usize) -> Option<usize>
        ensures { (files : Program) → AreFieldLinks files self.now → result ≡ slot_count files class }
    {
        self.sizes.get(class).copied()
    }

    /// How many of these slots count for the limit on cells.
    pub fn cell_count(&self, class: usize) -> Option<usize>
        ensures { (files : Program) → AreFieldLinks files self.now → result ≡ cell_count files class }
    {
        self.cells.get(class).copied()
    }

    /// How many static fields the files declare.
    pub fn static_count(&self) -> usize
        ensures { (files : Program) → AreFieldLinks files self.now → result ≡ length (static_fields files) }
    {
        self.statics
    }
}

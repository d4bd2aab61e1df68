//! The tables of types of all classes, and the component types.

ghost use Rattle.std.specs.Prelude.{IfOk};
ghost use Rattle.linked_program.specs.type_tables.Tables.{AreTypeTables};

use crate::type_tables::caught::add_caught;
use crate::type_tables::pool_rows::{catch_rows, component_rows, type_rows};
use linked_code::{LinkedType, Subclasses};
use linker::Linked;
use linker::linked_types::{Components, tested_classes};
use std::alloc::{AllocError, Global};
use types::subclass_table::subclasses;

/// The types that constant pools name, and what tests of types need.
#[derive(Drop)]
pub struct TypeTables {
    /// For each class what the indices of its constant pool are for `checkcast` and `instanceof`.
    pub types: Vec<Vec<Option<LinkedType>>>,
    /// For `anewarray`: the number of the component type.
    pub components: Vec<Vec<Option<u32>>>,
    /// For exception entries: the number of the class that one takes.
    pub catches: Vec<Vec<Option<u16>>>,
    /// The component types by their numbers.
    pub component_types: Vec<LinkedType>,
    /// The number of String among them.
    pub string_component: u32,
    pub subclasses: Subclasses,
}

impl TypeTables {
    /// The tables of linked files. This alone takes memory.
    pub fn new(alloc: Global, linked: &Linked) -> Result<TypeTables, AllocError>
        ensures { IfOk result (AreTypeTables linked.now) }
    {
        let numbered = Components::new(alloc, linked)?;
        let types = type_rows(alloc, linked)?;
        let components = component_rows(alloc, linked, &numbered)?;
        let catches = catch_rows(alloc, linked)?;
        let string_component = numbered.string_component();
        let component_types = numbered.into_types();
        let mut tested = tested_classes(alloc, &types, &component_types)?;
        add_caught(&mut tested, &catches)?;
        let subclasses = subclasses(alloc, linked.hierarchy(), &tested)?;
        Ok(TypeTables {
            types,
            components,
            catches,
            component_types,
            string_component,
            subclasses,
        })
    }
}

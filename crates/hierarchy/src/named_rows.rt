//! The names of classes, and for each class the names of what is above it.

ghost use Rattle.std.specs.Prelude.{IfOk};
ghost use Rattle.hierarchy.specs.Fields.{HasNamedRows};

use crate::fields::{rows_for_fields, superinterfaces_are_flat};
use crate::name_table::NameTable;
use crate::ranked_rows::ordered_interface_rows;
use crate::ranks::ranked_order;
use crate::row::Row;
use crate::rows::{interface_rows, supertype_rows};
use crate::set::ClassSet;
use std::alloc::{AllocError, Global};

/// What a hierarchy keeps beside the set of its classes: each field is that of `Hierarchy`.
#[derive(Drop)]
pub(crate) struct NamedRows {
    pub(crate) names: NameTable,
    pub(crate) places: Vec<Option<usize>>,
    pub(crate) interfaces: Vec<Row>,
    pub(crate) supertypes: Vec<Row>,
    pub(crate) superinterfaces_are_flat: bool,
}

impl NamedRows {
    /// The rows of a set in which a class is above itself.
    fn by_steps(alloc: Global, set: &ClassSet) -> Result<NamedRows, AllocError>
        ensures { IfOk result (λ rows.
            HasNamedRows set.now rows.names rows.places.items rows.interfaces.items rows.supertypes.items
            rows.superinterfaces_are_flat) }
    {
        let names = NameTable::of_set(alloc, set)?;
        let places = names.places(alloc, set)?;
        let interfaces = interface_rows(alloc, set, &names)?;
        let supertypes = supertype_rows(alloc, set, &names)?;
        Ok(NamedRows {
            names,
            places,
            interfaces,
            supertypes,
            superinterfaces_are_flat: false,
        })
    }

    /// The rows of a set of classes.
    pub(crate) fn of_set(alloc: Global, set: &ClassSet) -> Result<NamedRows, AllocError>
        ensures { IfOk result (λ rows.
            HasNamedRows set.now rows.names rows.places.items rows.interfaces.items rows.supertypes.items
            rows.superinterfaces_are_flat) }
    {
        let Some(order) = ranked_order(alloc, set)? else {
            return NamedRows::by_steps(alloc, set);
        };
        let names = NameTable::of_set(alloc, set)?;
        let places = names.places(alloc, set)?;
        let interfaces = ordered_interface_rows(alloc, set, &names, &order)?;
        let are_flat = superinterfaces_are_flat(set);
        let supertypes = rows_for_fields(alloc, set, &names, &order, &interfaces, are_flat)?;
        Ok(NamedRows {
            names,
            places,
            interfaces,
            supertypes,
            superinterfaces_are_flat: are_flat,
        })
    }
}

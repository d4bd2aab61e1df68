//! The rows of all methods.

ghost use Rattle.std.specs.Prelude.{IfOk};
ghost use Rattle.types.specs.method_code.Linked.{IsLinked};
ghost use Rattle.linked_code.specs.Numbers.{methods_of};
ghost use Rattle.method_tables.specs.method_links.Calls.{AreCallsOf};
ghost use Rattle.method_tables.specs.method_links.Numbers.{AreNumbersOf};
ghost use Rattle.linked_program.specs.method_rows.Rows.{AreMethodRows};

use crate::method_rows::kind::MethodRow;
use crate::method_rows::row::row_at;
use hierarchy::ClassSet;
use method_tables::method_links::{MethodCalls, MethodNumbers};
use std::alloc::{AllocError, Global};

/// The rows of all methods of linked files, by their numbers. This alone takes memory.
pub fn method_rows(
    alloc: Global,
    set: &ClassSet,
    numbers: &MethodNumbers,
    calls: &MethodCalls,
) -> Result<Vec<MethodRow>, AllocError>
    requires linked { IsLinked set.now }
    requires numbers { AreNumbersOf set.now numbers.now }
    requires calls { AreCallsOf set.now calls.now }
    ensures { IfOk result (λ rows. AreMethodRows set.now (methods_of set.now) rows.items) }
{
    let mut rows = Vec::new(alloc);
    for number in 0..numbers.count() {
        let Some(place) = numbers.place(number) else {
            return Ok(rows);
        };
        let Some(call) = calls.call(number) else {
            return Ok(rows);
        };
        let Some(row) = row_at(set, place, call) else {
            return Ok(rows);
        };
        rows.push(row)?;
    }
    Ok(rows)
}

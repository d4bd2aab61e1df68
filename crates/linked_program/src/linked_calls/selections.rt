//! The selections of classes, from the tables that have them.

ghost use Rattle.std.specs.Prelude.{◌≡◌, length, map, vec_items, IfOk};
ghost use Rattle.linked_program.specs.linked_calls.Selections.{places_of, selectors_of};

use crate::class_rows::Selections;
use linked_code::InterfaceSelection;
use std::alloc::{AllocError, Global};

/// For each class both of its rows.
pub(crate) fn selections_by(
    alloc: Global,
    by_place: Vec<Vec<u32>>,
    by_selector: Vec<Vec<InterfaceSelection>>,
) -> Result<Vec<Selections>, AllocError>
    requires { length by_place.items ≡ length by_selector.items }
    ensures places { IfOk result (λ s. map places_of s.items ≡ map vec_items by_place.items) }
    ensures selectors { IfOk result (λ s. map selectors_of s.items ≡ map vec_items by_selector.items) }
{
    let mut selections = Vec::new(alloc);
    let count = by_place.len();
    let mut places = by_place.into_iter();
    let mut selectors = by_selector.into_iter();
    for _class in 0..count {
        let Some(by_place) = places.next() else {
            return Ok(selections);
        };
        let Some(by_selector) = selectors.next() else {
            return Ok(selections);
        };
        selections.push(Selections {
            by_place,
            by_selector,
        })?;
    }
    Ok(selections)
}

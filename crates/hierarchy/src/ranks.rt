//! Ranks of the classes of a set, and whether they show that no class is above itself (JVMS 5.3.5).

ghost use Rattle.std.specs.Prelude.{◌≡◌, true, false, option_map, IfOk, OnSome, not};
ghost use Rattle.std.specs.Option.{option_to_list};
ghost use Rattle.std.specs.List.{list_any};
ghost use Rattle.class_tree.specs.View.{file_of};
ghost use Rattle.model.specs.Classes.{classes_of, interface_names};
ghost use Rattle.hierarchy.specs.Ranks.{rank_of, is_late, is_misranked, HasRanks, is_reached, rises, NeverRise};

use crate::order::supertypes_first;
use crate::set::ClassSet;
use class_tree::{ClassFile, class_name, superclass_name};
use std::alloc::{AllocError, Global};

/// The rank of the class of a name.
pub(crate) fn rank_of(set: &ClassSet, ranks: &[usize], name: &[u8]) -> usize
    ensures { result ≡ rank_of set.now ranks.now name.now }
{
    let Some(place) = set.place_of(name) else {
        return 0;
    };
    match ranks.get(place) {
        Some(rank) => *rank,
        None => 0,
    }
}

/// Whether a name is there and has this rank or a greater one.
fn is_late(set: &ClassSet, ranks: &[usize], rank: usize, name: Option<&[u8]>) -> bool
    ensures { result ≡ list_any (is_late set.now ranks.now rank) (option_to_list (option_map (λ t. t.now) name.entry)) }
{
    match name {
        Some(name) => rank <= rank_of(set, ranks, name),
        None => false,
    }
}

/// Whether a direct superinterface of a class has this rank or a greater one.
fn an_interface_is_late(set: &ClassSet, ranks: &[usize], rank: usize, file: &ClassFile) -> bool
    ensures { result ≡ list_any (is_late set.now ranks.now rank) (interface_names (file_of file.now)) }
{
    for index in &file.interfaces {
        if is_late(set, ranks, rank, file.class_name(*index)) {
            return true;
        }
    }
    false
}

/// Whether a class has no rank, or one that isn't below the number of classes, or above that of each direct supertype.
fn is_misranked(set: &ClassSet, ranks: &[usize], file: &ClassFile) -> bool
    ensures { result ≡ is_misranked set.now ranks.now (file_of file.now) }
{
    let rank = rank_of(set, ranks, class_name(file));
    if rank == 0 || set.count() <= rank {
        return true;
    }
    is_late(set, ranks, rank, superclass_name(file)) || an_interface_is_late(set, ranks, rank, file)
}

/// Whether each class has a rank, and greater than those of the classes directly above it.
fn are_ranked(set: &ClassSet, ranks: &[usize]) -> bool
    ensures { result ≡ not (list_any (is_misranked set.now ranks.now) (classes_of set.now)) }
{
    for place in 0..set.count() {
        let Some(file) = set.class_at(place) else {
            return true;
        };
        if is_misranked(set, ranks, file) {
            return false;
        }
    }
    true
}

/// Whether something directly above the class of a name has this rank or a greater one.
pub(crate) fn is_reached(set: &ClassSet, ranks: &[usize], rank: usize, class: &[u8]) -> bool
    ensures { result ≡ is_reached set.now ranks.now rank class.now }
{
    match set.class_of(class) {
        Some(file) => {
            is_late(set, ranks, rank, superclass_name(file))
                || an_interface_is_late(set, ranks, rank, file)
        }
        None => false,
    }
}

/// Whether a class has a smaller rank than something directly above it.
fn rises(set: &ClassSet, ranks: &[usize], file: &ClassFile) -> bool
    ensures { result ≡ false → rises set.now ranks.now (file_of file.now) ≡ false }
{
    let class = class_name(file);
    match rank_of(set, ranks, class).checked_add(1) {
        Some(rank) => is_reached(set, ranks, rank, class),
        None => true,
    }
}

/// Whether no class has a smaller rank than something directly above it.
pub(crate) fn never_rise(set: &ClassSet, ranks: &[usize]) -> bool
    ensures { result ≡ true → NeverRise set.now ranks.now }
{
    for place in 0..set.count() {
        let Some(file) = set.class_at(place) else {
            return true;
        };
        if rises(set, ranks, file) {
            return false;
        }
    }
    true
}

/// The least rank that is above those of the direct supertypes of a class.
fn least_rank(set: &ClassSet, ranks: &[usize], file: &ClassFile) -> usize {
    let mut greatest = match superclass_name(file) {
        Some(name) => rank_of(set, ranks, name),
        None => 0,
    };
    for index in &file.interfaces {
        if let Some(name) = file.class_name(*index) {
            greatest = greatest.max(rank_of(set, ranks, name));
        }
    }
    greatest.saturating_add(1)
}

/// The least ranks of classes, each by those of the classes before it in an order.
fn ranks_by(alloc: Global, set: &ClassSet, order: &[usize]) -> Result<Vec<usize>, AllocError> {
    let mut ranks = Vec::new(alloc);
    ranks.resize(set.count(), 0)?;
    for place in order {
        let Some(file) = set.class_at(*place) else {
            return Ok(ranks);
        };
        let least = least_rank(set, &ranks, file);
        if let Some(rank) = ranks.get_mut(*place) {
            *rank = least;
        }
    }
    Ok(ranks)
}

/// The places of the classes, each after those of the classes above it. None where a class is above itself. The order
/// only spares time; that there are ranks is proved.
pub(crate) fn ranked_order(alloc: Global, set: &ClassSet) -> Result<Option<Vec<usize>>, AllocError>
    ensures { IfOk result (λ order. OnSome order (HasRanks set.now)) }
{
    let order = supertypes_first(alloc, set)?;
    let ranks = ranks_by(alloc, set, &order)?;
    if are_ranked(set, &ranks) {
        Ok(Some(order))
    } else {
        Ok(None)
    }
}

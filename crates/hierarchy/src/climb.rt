//! Ways up along superclasses, by their table.

ghost use Rattle.std.specs.Prelude.{◌≡◌, ◌<◌, ◌-◌, length, Some, IfSome};
ghost use Rattle.model.specs.Classes.{is_subclass};
ghost use Rattle.model.specs.TypeJoin.{class_join};
ghost use Rattle.hierarchy.specs.Places.{name_at};
ghost use Rattle.hierarchy.specs.MembersAt.{superclass_place};
ghost use Rattle.hierarchy.specs.Lineages.{depth_in, HasLineages, class_above, IsRaised, IsLevel};

use crate::lineage::{Lineage, depth_in, skip_in, superclass_in};
use crate::set::ClassSet;

/// The place of the direct superclass of a class of the table.
pub(crate) fn superclass_by(set: &ClassSet, table: &[Lineage], place: usize) -> Option<usize>
    requires told { HasLineages set.now table.now }
    requires within { place < length table.now }
    ensures { result ≡ superclass_place set.now place }
{
    if depth_in(table, place) == 0 {
        return None;
    }
    Some(superclass_in(table, place))
}

/// One of the superclasses of a class that has more than so many, that has no fewer: the one that its skip leads to,
/// or else the direct superclass.
fn class_toward(set: &ClassSet, table: &[Lineage], place: usize, depth: usize) -> usize
    requires told { HasLineages set.now table.now }
    requires within { place < length table.now }
    requires deeper { depth < depth_in table.now place }
    ensures within { result < length table.now }
    ensures above { class_above set.now (depth_in table.now place - depth) (name_at set.now place)
        ≡ class_above set.now (depth_in table.now result - depth) (name_at set.now result) }
{
    let skip = skip_in(table, place);
    if depth <= depth_in(table, skip) {
        return skip;
    }
    superclass_in(table, place)
}

/// The class above that at a place that has so many superclasses; that class itself where it has no more.
fn raised(set: &ClassSet, table: &[Lineage], place: usize, depth: usize) -> Option<usize>
    requires told { HasLineages set.now table.now }
    requires within { place < length table.now }
    ensures { IfSome result (λ p. IsRaised set.now table.now depth place p) }
{
    let mut raised = place;
    for _step in 0..table.len() {
        if depth_in(table, raised) <= depth {
            return Some(raised);
        }
        raised = class_toward(set, table, raised, depth);
    }
    None
}

/// Two classes that have as many superclasses, by their places.
#[derive(Clone, Copy)]
struct Level {
    first: usize,
    second: usize,
}

/// Two classes above two others: those that their skips lead to, unless these are one class, or else the direct
/// superclasses.
fn level_above(set: &ClassSet, table: &[Lineage], level: Level) -> Level
    requires told { HasLineages set.now table.now }
    requires level { IsLevel table.now level.first level.second }
    requires differ { level.first ≡ level.second → ⊥ }
    requires deep { depth_in table.now level.first ≡ 0 → ⊥ }
    ensures level { IsLevel table.now result.first result.second }
    ensures join { class_join set.now (name_at set.now level.first) (name_at set.now level.second)
        ≡ class_join set.now (name_at set.now result.first) (name_at set.now result.second) }
{
    let first = skip_in(table, level.first);
    let second = skip_in(table, level.second);
    if first != second && depth_in(table, first) == depth_in(table, second) {
        return Level { first, second };
    }
    Level {
        first: superclass_in(table, level.first),
        second: superclass_in(table, level.second),
    }
}

/// The first common superclass of two classes that have as many superclasses.
fn meeting(set: &ClassSet, table: &[Lineage], c: usize, d: usize) -> Option<usize>
    requires told { HasLineages set.now table.now }
    requires level { IsLevel table.now c d }
    ensures { IfSome result (λ p.
        class_join set.now (name_at set.now c) (name_at set.now d) ≡ Some (name_at set.now p)) }
{
    let mut level = Level {
        first: c,
        second: d,
    };
    for _step in 0..table.len() {
        if level.first == level.second {
            return Some(level.first);
        }
        if depth_in(table, level.first) == 0 {
            return None;
        }
        level = level_above(set, table, level);
    }
    None
}

/// The first common superclass of two classes.
pub(crate) fn common_superclass(
    set: &ClassSet,
    table: &[Lineage],
    c: usize,
    d: usize,
) -> Option<usize>
    requires told { HasLineages set.now table.now }
    ensures { IfSome result (λ p.
        class_join set.now (name_at set.now c) (name_at set.now d) ≡ Some (name_at set.now p)) }
{
    if c >= table.len() || d >= table.len() {
        return None;
    }
    let depth_c = depth_in(table, c);
    let depth_d = depth_in(table, d);
    if depth_c < depth_d {
        let Some(level) = raised(set, table, d, depth_c) else {
            return None;
        };
        return meeting(set, table, c, level);
    }
    let Some(level) = raised(set, table, c, depth_d) else {
        return None;
    };
    meeting(set, table, level, d)
}

/// Whether the class at a place is that at another, or a subclass of it, where the table tells.
pub(crate) fn is_subclass_by(
    set: &ClassSet,
    table: &[Lineage],
    class: usize,
    superclass: usize,
) -> Option<bool>
    requires told { HasLineages set.now table.now }
    ensures { IfSome result (λ b. b ≡ is_subclass set.now (name_at set.now class) (name_at set.now superclass)) }
{
    if class >= table.len() || superclass >= table.len() {
        return None;
    }
    let depth = depth_in(table, superclass);
    if depth_in(table, class) < depth {
        return Some(false);
    }
    let Some(above) = raised(set, table, class, depth) else {
        return None;
    };
    Some(above == superclass)
}

//! The data race of the state in which a machine is, with the places in code of its accesses.
//!
//! # Proved
//!
//! - `race_at`, memory aside: of whatever run of the accepted class files the machine has done, a race exactly where
//!   the state to which that led is racy (`TellsRaceOfState`). The two accesses that are told are those of the next
//!   events of two threads, where the instructions of these stand; they are of one variable that is not volatile, and
//!   conflict (`IsRaceOfState`).
//!
//! # Not proved
//!
//! - Which race is told where there are several.
//!
//! # Wrong bodies
//!
//! - `next_races-both-stand-at-the-first`: both accesses stand where the first one does; refused by `placed_race`.
//! - `next_races-threads-are-one`, `next_races-access-is-the-other-one`: the second access is of the thread of the
//!   first one, or a write as that is; refused by `with_places`.

ghost use Rattle.std.specs.Prelude.{◌≡◌, IfOk};
ghost use Rattle.state_races.specs.next_races.Placed.{AreWithPlaces, IsPlaced, TellsSite, access_at};
ghost use Rattle.state_races.specs.next_races.Races.{TellsRaceOfState};

use field_names::named_fields::names_are_apart;
use linker::Linked;
use machine::Machine;
use next_accesses::access_tables::AccessTables;
use next_accesses::racy_states::{Race as NextRace, racing};
use race_actions::event_actions::EventActions;
use race_actions::looking::CodeSite;
use race_actions::race_tables::RaceTables;
use run_races::race_finder::accessed;
use run_races::told_races::{Race, RaceAccess, numbers_of};
use std::alloc::{AllocError, Global};

/// Where the instruction of a thread's next event stands. The only error is a want of memory.
fn site_of(
    actions: &mut EventActions,
    tables: &RaceTables<'_>,
    machine: &Machine,
    thread: u16,
) -> Result<Option<CodeSite>, AllocError>
    ensures { IfOk result (TellsSite tables.now.linked.now machine.now thread) }
{
    actions.look(tables, machine.program(), machine.shared(), thread)?;
    let site = actions.site();
    Ok(site)
}

/// An access of a thread, which stands at a place.
fn access_at(thread: u16, is_write: bool, site: CodeSite) -> RaceAccess
    ensures { result ≡ access_at thread is_write site }
{
    RaceAccess {
        thread: usize::from(thread),
        is_write,
        method: u64::from(site.method),
        offset: site.offset,
    }
}

/// A race of next events, with the places where the instructions of these stand.
fn with_places(race: NextRace, first: Option<CodeSite>, second: Option<CodeSite>) -> Option<Race>
    ensures { AreWithPlaces race first second result }
{
    let Some(first) = first else {
        return None;
    };
    let Some(second) = second else {
        return None;
    };
    let Some((variable, is_write)) = accessed(race.access) else {
        return None;
    };
    let Some((_, other_writes)) = accessed(race.other_access) else {
        return None;
    };
    Some(Race {
        variable: numbers_of(variable),
        first: access_at(race.thread, is_write, first),
        second: access_at(race.other, other_writes, second),
    })
}

/// A race of next events, with the places where their instructions stand. The only error is a want of memory.
fn placed_race(
    alloc: Global,
    linked: &Linked,
    machine: &Machine,
    race: NextRace,
) -> Result<Option<Race>, AllocError>
    ensures { IfOk result (IsPlaced linked.now machine.now race) }
{
    let tables = RaceTables::new(alloc, linked)?;
    let mut actions = EventActions::new(alloc);
    let first = site_of(&mut actions, &tables, machine, race.thread)?;
    let second = site_of(&mut actions, &tables, machine, race.other)?;
    Ok(with_places(race, first, second))
}

/// Two threads whose next events race, and where their accesses stand, in the state of a machine, if there are such
/// threads. The only error is a want of memory.
pub fn race_at(
    alloc: Global,
    linked: &Linked,
    machine: &Machine,
) -> Result<Option<Race>, AllocError>
    ensures { IfOk result (TellsRaceOfState linked.now machine.now) }
{
    names_are_apart(linked);
    let accesses = AccessTables::new(alloc, linked)?;
    match racing(alloc, &accesses, machine)? {
        None => Ok(None),
        Some(race) => placed_race(alloc, linked, machine, race),
    }
}

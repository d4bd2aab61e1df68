//! Runs whose races are told.
//!
//! # Proved
//!
//! - `races`: the report and the end are those of a replay of the schedule, and the races that were found are those of
//!   the events that it did (`IsRacedRun`, `AreRaces`): each race that is told is one of the run, by its variable and
//!   the places of its accesses; and each access that races with an earlier one, so each variable that has a race, has
//!   one told. The lines spell those races, one after another (`AreRaceLines`).
//!
//! # Not proved
//!
//! - Which of several earlier accesses is told that race with one.
//!
//! # Wrong bodies
//!
//! - `raced_runs-done-event-is-untold`: what finds races isn't told of an event that was done; refused by `event`.
//! - `raced_runs-no-race-is-one`: there is a race where none is told; refused by `is_any`.

ghost use Rattle.std.specs.Prelude.{◌≡◌, [], ◌∷◌, IfOk, replicate};
ghost use Rattle.model.specs.Schedule.{events_of};
ghost use Rattle.machine.specs.machine_replay.Shown.{IsOpened};
ghost use Rattle.race_runs.specs.race_lines.Lines.{AreRaceLines};
ghost use Rattle.race_runs.specs.raced_runs.Going.{RacesThrough, done_by};
ghost use Rattle.race_runs.specs.raced_runs.Raced.{IsRacedRun, is_any};

use crate::finder::Finder;
use crate::race_lines::push_races;
use field_names::named_fields::names_are_apart;
use linker::Linked;
use machine::machine_replay::report_after;
use machine::{Machine, Stopped};
use model::{End, Event, Limits, Report, ScheduleEntry};
use program_runs::verified_programs::open_machine;
use run_laws::soundness::no_event_is_wrong;
use run_laws::word_reports::reports_of_words;
use run_races::named_races::races_are_named;
use run_races::told_races::ToldRaces;
use schedule::Schedule;
use std::alloc::{AllocError, Global};
use traces::ProgramNames;
use verifier::Verified;

/// The races of a run, and how it ended.
#[derive(Drop)]
pub struct RacedRun {
    /// A line for each race that was found, in the order of their second events.
    pub lines: Vec<u8>,
    /// Whether there is one.
    pub has_race: bool,
    pub report: Report,
    pub end: End,
}

/// Does an event, and finds its races. Returns why it was not done, or `Most`.
fn event(
    machine: &mut Machine,
    finder: &mut Finder<'_>,
    event: Event,
) -> Result<Stopped, AllocError>
    ensures { IfOk result (λ why. RacesThrough (done_by why, why) (event ∷ []) machine.old machine.new finder.old
        finder.new) }
{
    finder.look(machine.program(), machine.shared(), event.thread)?;
    let (_, why) = machine.repeat(event, 1);
    match why {
        Stopped::Most => {
            finder.done(machine.shared(), event.thread)?;
            Ok(Stopped::Most)
        }
        why => Ok(why),
    }
}

/// Does the events of an entry, as far as they go. Returns how many were done, and why no more.
fn entry(
    machine: &mut Machine,
    finder: &mut Finder<'_>,
    given: ScheduleEntry,
) -> Result<(u32, Stopped), AllocError>
    ensures { IfOk result (λ r. RacesThrough r (replicate given.repeat given.event) machine.old machine.new finder.old
        finder.new) }
{
    'events: for done in 0..given.repeat {
        let why = event(machine, finder, given.event)?;
        match why {
            Stopped::Most => {}
            why => return Ok((done, why)),
        }
    }
    Ok((given.repeat, Stopped::Most))
}

/// Does the events of a schedule, as far as they go. Returns how many were done, and why no more.
fn events(
    machine: &mut Machine,
    finder: &mut Finder<'_>,
    schedule: &Schedule,
) -> Result<(u64, Stopped), AllocError>
    ensures { IfOk result (λ r. RacesThrough r (events_of schedule.now) machine.old machine.new finder.old
        finder.new) }
{
    let mut done = 0u64;
    'entries: for given in schedule.entries() {
        let (count, why) = entry(machine, finder, *given)?;
        done += u64::from(count);
        match why {
            Stopped::Most => {}
            why => return Ok((done, why)),
        }
    }
    Ok((done, Stopped::Most))
}

/// Whether there is a race.
fn is_any(told: &ToldRaces) -> bool
    ensures { result ≡ is_any told.now.races.keys }
{
    told.len() != 0
}

/// The lines of races, of objects in the state of a machine. The only error is a want of memory.
pub fn lines_of(
    alloc: Global,
    linked: &Linked,
    machine: &Machine,
    told: &ToldRaces,
) -> Result<Vec<u8>, AllocError>
    ensures { IfOk result (λ lines. AreRaceLines linked.now told.now.races.keys lines.items) }
{
    let names = ProgramNames::new(alloc, linked, machine.program())?;
    let mut lines = Vec::new(alloc);
    push_races(
        &mut lines,
        alloc,
        linked,
        &names,
        &machine.shared().heap,
        told,
    )?;
    Ok(lines)
}

/// The races of a machine that was opened, under a schedule.
fn races_of(
    alloc: Global,
    verified: &Verified,
    machine: &mut Machine,
    schedule: &Schedule,
) -> Result<RacedRun, AllocError>
    requires { IsOpened verified.now machine.old.limits machine.old }
    ensures { IfOk result (IsRacedRun verified.now (events_of schedule.now) machine.old.limits) }
{
    races_are_named();
    reports_of_words();
    no_event_is_wrong();
    let linked = verified.linked();
    names_are_apart(linked);
    let mut finder = Finder::new(alloc, linked)?;
    let (done, why) = events(machine, &mut finder, schedule)?;
    let told = finder.into_told();
    let lines = lines_of(alloc, linked, machine, &told)?;
    let (report, end) = report_after(alloc, machine, linked.set(), done, why)?;
    Ok(RacedRun {
        has_race: is_any(&told),
        lines,
        report,
        end,
    })
}

/// Does the events of a schedule over verified class files, as far as they go, under the limits of the run, and tells
/// their data races (JLS 17.4.5). The only error is a want of memory.
pub fn races(
    alloc: Global,
    verified: &Verified,
    schedule: &Schedule,
    limits: Limits,
) -> Result<RacedRun, AllocError>
    ensures { IfOk result (IsRacedRun verified.now (events_of schedule.now) limits) }
{
    let mut machine = open_machine(alloc, verified, limits)?;
    races_of(alloc, verified, &mut machine, schedule)
}

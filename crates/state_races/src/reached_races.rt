//! The data race of the state to which a schedule leads, as a line.
//!
//! # Proved
//!
//! - `race_line`, memory aside, of a schedule whose events lead to a racy state: the line of a race of that state
//!   (`IsReachedRaceLine`).
//!
//! # Wrong bodies
//!
//! - `reached_races-opening-state`: the race of the opening state is told; refused by `race_line`.

ghost use Rattle.std.specs.Prelude.{IfOk};
ghost use Rattle.model.specs.Schedule.{events_of};
ghost use Rattle.race_runs.specs.race_lines.Lines.{IsRaceLine};
ghost use Rattle.state_races.specs.reached_races.Reached.{IsReachedRaceLine, LeadsToRace, TellsLine};

use crate::next_races::race_at;
use linker::Linked;
use machine::schedule_runs::run_schedule;
use machine::{Machine, Stopped};
use model::Limits;
use program_runs::verified_programs::open_machine;
use race_runs::raced_runs::lines_of;
use run_races::told_races::{Race, ToldRaces};
use schedule::Schedule;
use std::alloc::{AllocError, Global};
use verifier::Verified;

/// The line of a race of the state of a machine. The only error is a want of memory.
fn line_of(
    alloc: Global,
    linked: &Linked,
    machine: &Machine,
    race: Race,
) -> Result<Vec<u8>, AllocError>
    ensures { IfOk result (λ line. IsRaceLine linked.now race line.items) }
{
    let mut told = ToldRaces::new(alloc);
    told.add(race)?;
    let line = lines_of(alloc, linked, machine, &told)?;
    Ok(line)
}

/// The line of the race of the state of a machine, if that is racy. The only error is a want of memory.
fn line_at(alloc: Global, linked: &Linked, machine: &Machine) -> Result<Vec<u8>, AllocError>
    ensures { IfOk result (λ line. TellsLine linked.now machine.now line.items) }
{
    match race_at(alloc, linked, machine)? {
        None => Ok(Vec::new(alloc)),
        Some(race) => line_of(alloc, linked, machine, race),
    }
}

/// The line of a data race (JLS 17.4.5) of the state to which a schedule of verified class files leads, under the
/// limits of the run: `race Counter.n: read at Counter.java:12 (Counter.run 4) by thread 1, write at Counter.java:13
/// (Counter.run 9) by thread 2`, and a line feed. The accesses are of the next events of the two threads. The only
/// error is a want of memory.
pub fn race_line(
    alloc: Global,
    verified: &Verified,
    schedule: &Schedule,
    limits: Limits,
) -> Result<Vec<u8>, AllocError>
    requires { LeadsToRace verified.now limits.frames (events_of schedule.now) }
    ensures { IfOk result (λ line. IsReachedRaceLine verified.now limits.frames (events_of schedule.now) line.items) }
{
    let mut machine = open_machine(alloc, verified, limits)?;
    let (_, why) = run_schedule(&mut machine, schedule);
    match why {
        Stopped::Most => line_at(alloc, verified.linked(), &machine),
        // an event of such a run is refused for want of memory alone
        Stopped::NotEnabled | Stopped::Refused(_) => Err(AllocError),
    }
}

//! A schedule, and a run behind it.

ghost use Rattle.std.specs.Prelude.{length, IfOk};
ghost use Rattle.std.specs.Arc.{arc_value};
ghost use Rattle.model.specs.Schedule.{events_of};
ghost use Rattle.machine.specs.Machines.{IsProgramOf};
ghost use Rattle.machine.specs.machine_replay.Shown.{Tells};
ghost use Rattle.program_runs.specs.continued_runs.Continuing.{GoesOn};

use crate::continued_runs::following::follow;
use crate::continued_runs::rotation::take_turns;
use crate::continued_runs::untold::Untold;
use crate::verified_programs::verified_program;
use crate::workers::Gate;
use crate::worlds::{Recorded, World};
use linked_code::LinkedProgram;
use machine::Stopped;
use machine::machine_replay::report_after;
use model::{End, Limits, Report};
use run_laws::soundness::no_event_is_wrong;
use run_laws::word_reports::reports_of_words;
use schedule::Schedule;
use std::alloc::{AllocError, Global};
use std::sync::Arc;
use verifier::Verified;

/// What came of a schedule that a run was to follow and to go on from.
#[derive(Drop)]
pub enum Continued {
    /// The events of the schedule were done, as far as the budget allows, and then the threads went on in turn.
    Whole(Recorded),
    /// An event of the schedule within the budget is not enabled, or a limit refuses it: the report of those before it,
    /// and the end, which says so.
    Part(Report, End),
}

/// The report of where the events of a world have led, and why no more were done. The only error is a want of memory.
fn report_on(alloc: Global, world: &World, why: Stopped) -> Result<(Report, End), AllocError>
    ensures { IfOk result (λ r. Tells world.now.trees world.now.machine (length world.now.events) why r.0 r.1) }
{
    let classes = world.verified().linked().set();
    report_after(
        alloc,
        world.machine(),
        classes,
        u64::from(world.count()),
        why,
    )
}

/// Does the events of a schedule over verified class files, and then goes on until there is an end (JVMS 2.5, 2.6,
/// 5.5, chapter 6; JLS 17): each further event is that of the next thread in turn which has an enabled one, from
/// thread 0 on, and picks the first waiter. All together are at most as many as the budget. The gate is told of them,
/// and can't stop the run. The only error is a want of memory.
pub fn run_on<G: Gate>(
    alloc: Global,
    verified: Arc<Verified>,
    schedule: &Schedule,
    limits: Limits,
    budget: u32,
    gate: &G,
) -> Result<Continued, AllocError>
    ensures { IfOk result (GoesOn (arc_value verified) (events_of schedule.now) limits budget) }
{
    let program = verified_program(alloc, &verified)?;
    run_told_on(alloc, verified, program, schedule, limits, budget, gate)
}

/// The same, where what a run needs of the class files is there already, and no gate is told of it.
pub fn run_linked_on(
    alloc: Global,
    verified: Arc<Verified>,
    program: Arc<LinkedProgram>,
    schedule: &Schedule,
    limits: Limits,
    budget: u32,
) -> Result<Continued, AllocError>
    requires { IsProgramOf (arc_value verified) (arc_value program) }
    ensures { IfOk result (GoesOn (arc_value verified) (events_of schedule.now) limits budget) }
{
    run_told_on(alloc, verified, program, schedule, limits, budget, &Untold)
}

/// What both do.
fn run_told_on<G: Gate>(
    alloc: Global,
    verified: Arc<Verified>,
    program: Arc<LinkedProgram>,
    schedule: &Schedule,
    limits: Limits,
    budget: u32,
    gate: &G,
) -> Result<Continued, AllocError>
    requires { IsProgramOf (arc_value verified) (arc_value program) }
    ensures { IfOk result (GoesOn (arc_value verified) (events_of schedule.now) limits budget) }
{
    reports_of_words();
    no_event_is_wrong();
    let mut world = World::open_linked(alloc, verified, program, limits, budget)?;
    let why = follow(&mut world, schedule, gate)?;
    if let Stopped::Most = why {
        take_turns(&mut world, gate);
        return Ok(Continued::Whole(world.into_recorded(alloc)?));
    }
    let (report, end) = report_on(alloc, &world, why)?;
    Ok(Continued::Part(report, end))
}

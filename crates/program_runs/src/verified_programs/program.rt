//! Machines of verified class files.

ghost use Rattle.std.specs.Prelude.{IfOk};
ghost use Rattle.std.specs.Arc.{arc_value};
ghost use Rattle.model.specs.Schedule.{events_of};
ghost use Rattle.model.specs.Classes.{Program};
ghost use Rattle.machine.specs.Machines.{IsOfAccepted, IsProgramOf};
ghost use Rattle.machine.specs.machine_replay.Replays.{IsReplay};
ghost use Rattle.machine.specs.machine_replay.Shown.{IsOpened};

use linked_code::LinkedProgram;
use linked_program::linked_program;
use machine::{Machine, machine_replay};
use machine_state::shown_runs::runs_are_opened;
use model::{End, Limits, Report};
use schedule::Schedule;
use std::alloc::{AllocError, Global};
use std::sync::Arc;
use verifier::Verified;

/// All that a run needs of verified class files, by numbers (JVMS 4.10, 5.4). `AllocError` for want of memory.
pub fn verified_program(
    alloc: Global,
    verified: &Verified,
) -> Result<Arc<LinkedProgram>, AllocError>
    ensures { IfOk result (λ program. IsProgramOf verified.now (arc_value program)) }
{
    let linked = verified.linked();
    // what is known of the files
    let _ = linked.hierarchy();
    let program = linked_program(alloc, linked)?;
    Ok(Arc::new(alloc, program)?)
}

/// The machine of verified class files before any event. The only error is a want of memory.
pub fn open_machine(
    alloc: Global,
    verified: &Verified,
    limits: Limits,
) -> Result<Machine, AllocError>
    ensures { IfOk result (IsOpened verified.now limits) }
{
    let program = verified_program(alloc, verified)?;
    open_linked_machine(alloc, program, limits)
}

/// The machine of class files before any event, of which there is all that a run needs. The only error is a want of
/// memory.
pub(crate) fn open_linked_machine(
    alloc: Global,
    program: Arc<LinkedProgram>,
    limits: Limits,
) -> Result<Machine, AllocError>
    requires { IsOfAccepted (arc_value program) }
    ensures { (trees : Program) → IsProgramOf trees (arc_value program) → IfOk result (IsOpened trees limits) }
{
    runs_are_opened();
    Machine::open(alloc, program, limits)
}

/// Does the events of a schedule over verified class files, as far as they go, under the limits of the run (JVMS 2.5,
/// 2.6, 5.5, chapter 6; JLS 17). The report is of those that were done, and the end says why no more were. The only
/// error is a want of memory before any event, or for the report; where an event wants memory that isn't there, the
/// end says so.
pub fn replay(
    alloc: Global,
    verified: &Verified,
    schedule: &Schedule,
    limits: Limits,
) -> Result<(Report, End), AllocError>
    ensures { IfOk result (λ r. IsReplay verified.now (events_of schedule.now) limits r.0 r.1) }
{
    let program = verified_program(alloc, verified)?;
    machine_replay::replay(alloc, verified.linked().set(), program, schedule, limits)
}

//! Circles of threads that wait for one another.
//!
//! # Proved
//!
//! - `awaited_thread`: the other thread that holds what the next event of a thread needs, or none (`AwaitsNext`).
//! - `has_circle`: of whatever run of whatever files a machine shows the state, it tells whether threads wait in a
//!   circle there (`TellsCircle`, `IsCircle`). The other threads may go on.
//!
//! # Wrong bodies
//!
//! - `circles-of-one`: a thread that holds what it needs waits for itself; refused by `awaited_thread`.

ghost use Rattle.std.specs.Prelude.{IfOk};
ghost use Rattle.waiting_circles.specs.Circles.{AwaitsNext, AreAwaited, TellsCircle};

use crate::holders::holder;
use crate::needs::next_need;
use crate::rounds::has_round;
use linked_code::LinkedProgram;
use machine::Machine;
use machine_state::Shared;
use std::alloc::{AllocError, Global};

/// The other thread that holds what the next event of a thread needs, if one does.
fn awaited_thread(
    shared: &Shared,
    program: &LinkedProgram,
    thread: u16,
    frames: usize,
) -> Option<u16>
    ensures { AwaitsNext program.now shared.now thread frames result }
{
    let Some(need) = next_need(shared, program, thread, frames) else {
        return None;
    };
    match holder(shared, need) {
        Some(other) => { if other == thread { None } else { Some(other) } }
        None => None,
    }
}

/// The same of each thread, by its number. The only error is a want of memory.
fn awaited_threads(
    alloc: Global,
    shared: &Shared,
    program: &LinkedProgram,
    frames: usize,
) -> Result<Vec<Option<u16>>, AllocError>
    ensures { IfOk result (λ nexts. AreAwaited program.now shared.now frames nexts.items) }
{
    let mut nexts = Vec::new(alloc);
    for thread in 0..shared.threads.len() {
        nexts.push(awaited_thread(shared, program, thread as u16, frames))?;
    }
    Ok(nexts)
}

/// Whether threads wait in a circle, each for a monitor that the next one owns or a class that it initialises. The only
/// error is a want of memory.
pub fn has_circle(alloc: Global, machine: &Machine) -> Result<bool, AllocError>
    ensures { IfOk result (TellsCircle machine.now) }
{
    let frames = machine.limits().frames as usize;
    let nexts = awaited_threads(alloc, machine.shared(), machine.program(), frames)?;
    Ok(has_round(&nexts))
}

//! All that there is before any event.

ghost use Rattle.std.specs.Prelude.{◌≡◌, [], ◌∷◌, replicate, IfOk};
ghost use Rattle.machine_threads.specs.machine_opening.Opening.{HasFiles, Opens};

use crate::machine_opening::objects::opening_heap;
use crate::machine_opening::readiness::{opening_ready, opening_statuses};
use heap::java_threads::Threads;
use linked_code::LinkedProgram;
use machine_state::Shared;
use model::Limits;
use model::built_in::MAIN_THREAD_OBJECT;
use std::alloc::{AllocError, Global};
use thread_stacks::ThreadStack;

/// The static fields, each of which is 0 or null (JVMS 2.3, 2.4).
fn opening_statics(alloc: Global, program: &LinkedProgram) -> Result<Vec<u32>, AllocError>
    ensures { IfOk result (λ statics. statics.items ≡ replicate program.now.static_fields 0) }
{
    let mut statics = Vec::new(alloc);
    statics.resize(program.static_fields as usize, 0)?;
    Ok(statics)
}

/// The stack of the main thread, which is empty.
fn opening_stacks(alloc: Global) -> Result<Vec<ThreadStack>, AllocError>
    ensures { IfOk result (λ stacks. stacks.items ≡ [] ∷ []) }
{
    let mut stacks = Vec::new(alloc);
    stacks.push(ThreadStack::new(alloc))?;
    Ok(stacks)
}

/// The opening state of a linked program (own; JVMS 5.2): the main thread alone, which has not begun, and no class of
/// a file is initialised. The limits hold for what is made later, and not for the objects that there are here.
///
/// # Errors
///
/// Where there is no memory.
pub fn opening_state(
    alloc: Global,
    program: &LinkedProgram,
    limits: Limits,
) -> Result<Shared, AllocError>
    requires { HasFiles program.now }
    ensures { IfOk result (Opens program.now limits) }
{
    Ok(Shared {
        statics: opening_statics(alloc, program)?,
        statuses: opening_statuses(alloc, program)?,
        ready: opening_ready(alloc, program)?,
        threads: Threads::new(alloc, limits.threads, MAIN_THREAD_OBJECT)?,
        printed: Vec::new(alloc),
        interned: Vec::new(alloc),
        unnamed: 0,
        stacks: opening_stacks(alloc)?,
        heap: opening_heap(alloc, program, limits)?,
    })
}

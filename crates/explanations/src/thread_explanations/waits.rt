//! For what each thread waits, and for which thread.

ghost use Rattle.std.specs.Prelude.{◌≡◌, ◌≤◌, ◌^◌, IfOk, length};
ghost use Rattle.explanations.specs.thread_explanations.Waits as waits;

use crate::thread_explanations::awaited::{Awaited, awaited_by};
use linked_code::LinkedProgram;
use machine_state::Shared;
use model::EndState;
use std::alloc::{AllocError, Global};

/// For what a thread waits, and the thread that has to do something for that.
#[derive(Clone, Copy)]
pub struct Wait {
    pub awaited: Awaited,
    pub thread: Option<u16>,
}

/// For what a thread waits, where the threads stand so.
fn awaited_at(shared: &Shared, program: &LinkedProgram, ends: &[EndState], thread: u16) -> Awaited
    ensures { result ≡ waits.awaited_at program.now shared.now ends.now thread }
{
    match ends.get(usize::from(thread)) {
        Some(end) => awaited_by(shared, program, thread, end),
        None => Awaited::Nothing,
    }
}

/// For what a thread waits, and for which thread.
fn wait_at(shared: &Shared, program: &LinkedProgram, ends: &[EndState], thread: u16) -> Wait
    ensures { result ≡ waits.wait_at program.now shared.now ends.now thread }
{
    let awaited = awaited_at(shared, program, ends, thread);
    Wait {
        awaited,
        thread: awaited.thread(shared, program),
    }
}

/// The wait of each thread, by its number.
pub(crate) fn each_wait(
    alloc: Global,
    shared: &Shared,
    program: &LinkedProgram,
    ends: &[EndState],
) -> Result<Vec<Wait>, AllocError>
    ensures all { IfOk result (λ each. each.items ≡ waits.waits_of program.now shared.now ends.now) }
    ensures numbered { IfOk result (λ each. length each.items ≤ 2 ^ 16) }
{
    let mut each = Vec::new(alloc);
    for thread in 0..shared.threads.len() {
        each.push(wait_at(shared, program, ends, thread as u16))?;
    }
    Ok(each)
}

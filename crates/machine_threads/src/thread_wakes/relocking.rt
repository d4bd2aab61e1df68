//! Threads that have left a wait set, and are to enter its monitor again (JLS 17.2.1).

ghost use Rattle.std.specs.Prelude.{◌≡◌, ◌<◌, ℕ, length};
ghost use Rattle.model.specs.Monitors.{relock as relocks};
ghost use Rattle.model.specs.Worlds.{is_done};
ghost use Rattle.heap.specs.java_threads.Statuses.{cause_of};
ghost use Rattle.machine_threads.specs.thread_wakes.Relocks.{IsToRelock, RelocksIn};

use heap::Heap;
use heap::java_threads::WakeCause;
use heap::monitor_events::relock;
use linked_code::LinkedProgram;
use machine_instructions::returns::next_place_of_top;
use machine_state::raised_exceptions::raise_interrupt;
use machine_state::{Answer, EventRefusal, Shared};
use thread_stacks::ThreadStack;

/// Whether a thread that has left the wait set of an object may enter its monitor again: no thread owns it.
#[inline]
fn is_free(heap: &Heap, object: u32) -> bool
    requires { object < length heap.now.locks.monitors }
    ensures { (thread count : ℕ) → result ≡ is_done (relocks object thread count heap.now.locks.monitors).answer }
{
    heap.owner(object).is_none()
}

/// The event of a thread that has left the wait set of an object: it enters the monitor again as often as it had
/// entered it, and runs. Notified, it goes on behind its call of wait; interrupted, an InterruptedException is
/// pending, and its interrupt status is cleared. The event is not enabled while a thread owns the monitor.
///
/// # Errors
///
/// Where the exception can't be made: as many objects as may be were made, or there is no memory. Nothing has changed
/// then.
pub fn relock_event(
    shared: &mut Shared,
    stack: &mut ThreadStack,
    program: &LinkedProgram,
    thread: u16,
    object: u32,
    count: u32,
    cause: WakeCause,
) -> Result<Answer, EventRefusal>
    requires { IsToRelock program.now thread object count (cause_of cause) shared.old stack.old }
    ensures { RelocksIn program.now thread object count
        (cause_of cause) result shared.old shared.new stack.old stack.new }
{
    if !is_free(&shared.heap, object) {
        return Ok(Answer::NotEnabled);
    }
    match cause {
        WakeCause::Notified => {
            relock(&mut shared.heap, &mut shared.threads, object, thread, count);
            let next = next_place_of_top(program, stack);
            stack.go_on(next);
            Ok(Answer::Done)
        }
        WakeCause::Interrupted => {
            raise_interrupt(shared, thread)?;
            relock(&mut shared.heap, &mut shared.threads, object, thread, count);
            Ok(Answer::Done)
        }
    }
}

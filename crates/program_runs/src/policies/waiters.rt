//! Threads that wait (JLS 17.2).

ghost use Rattle.std.specs.Prelude.{◌≡◌};
ghost use Rattle.heap.specs.java_threads.Statuses.{status_of};
ghost use Rattle.program_runs.specs.policies.Runs.{waiting_in, waits};

use heap::java_threads::{ThreadStatus, Threads};

/// Whether a thread of a status is in a wait set.
fn is_waiting(status: ThreadStatus) -> bool
    ensures { result ≡ waits (status_of status) }
{
    matches!(status, ThreadStatus::Waiting { .. })
}

/// How many threads are in a wait set.
pub(crate) fn waiting(threads: &Threads) -> u16
    ensures { result ≡ waiting_in threads.now.threads }
{
    let mut count = 0u16;
    'threads: for thread in 0..threads.len() as u16 {
        if !is_waiting(threads.status(thread)) {
            continue;
        }
        count += 1;
    }
    count
}

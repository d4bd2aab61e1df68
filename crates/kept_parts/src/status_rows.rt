//! What threads are about, as words.

ghost use Rattle.std.specs.Prelude.{◌≡◌, ◌++◌, OnOk, IfOk};
ghost use Rattle.heap.specs.java_threads.Statuses.{status_of};
ghost use Rattle.kept_parts.specs.Threads.{status_row};

use crate::reader::Reader;
use crate::rows::push_three;
use heap::java_threads::{ThreadStatus, WakeCause};
use std::alloc::AllocError;

pub(crate) fn push_status(row: &mut Vec<u32>, status: ThreadStatus) -> Result<(), AllocError>
    ensures { OnOk result (row.new.items ≡ row.old.items ++ status_row (status_of status)) }
{
    match status {
        ThreadStatus::Running => push_three(row, 0, 0, 0),
        ThreadStatus::Waiting { object, count } => push_three(row, 1, object, count),
        ThreadStatus::Relock {
            object,
            count,
            cause: WakeCause::Notified,
        } => push_three(row, 2, object, count),
        ThreadStatus::Relock {
            object,
            count,
            cause: WakeCause::Interrupted,
        } => push_three(row, 3, object, count),
        ThreadStatus::Ended(None) => push_three(row, 4, 0, 0),
        ThreadStatus::Ended(Some(exception)) => push_three(row, 5, exception, 0),
    }
}

pub(crate) fn read_status(reader: &mut Reader<'_>) -> Result<ThreadStatus, AllocError>
    ensures { IfOk result (λ status. reader.old.rest.now ≡ status_row (status_of status) ++ reader.new.rest.now) }
{
    let tag = reader.next_word()?;
    let object = reader.next_word()?;
    let count = reader.next_word()?;
    match (tag, object, count) {
        (0, 0, 0) => Ok(ThreadStatus::Running),
        (1, object, count) => Ok(ThreadStatus::Waiting { object, count }),
        (2, object, count) => Ok(ThreadStatus::Relock {
            object,
            count,
            cause: WakeCause::Notified,
        }),
        (3, object, count) => Ok(ThreadStatus::Relock {
            object,
            count,
            cause: WakeCause::Interrupted,
        }),
        (4, 0, 0) => Ok(ThreadStatus::Ended(None)),
        (5, exception, 0) => Ok(ThreadStatus::Ended(Some(exception))),
        _ => Err(AllocError),
    }
}

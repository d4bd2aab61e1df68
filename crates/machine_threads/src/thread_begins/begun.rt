//! Whether a thread has begun.

ghost use Rattle.std.specs.Prelude.{◌≡◌};
ghost use Rattle.machine_threads.specs.thread_begins.First.{begun_by};

use machine_state::{Effect, Shared};

/// A thread has begun where its first call is done.
pub(crate) fn begin_where_done(shared: &mut Shared, thread: u16, effect: Effect)
    ensures { shared.new ≡ begun_by effect thread shared.old }
{
    match effect {
        Effect::Done => shared.threads.set_begun(thread, true),
        Effect::NotEnabled => {}
        Effect::Raises(_) => {}
        Effect::Throws(_) => {}
        Effect::Interrupts => {}
    }
}

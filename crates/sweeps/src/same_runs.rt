//! Runs that show the same.

ghost use Rattle.std.specs.Prelude.{◌≡◌, ◌<◌, ◌≤◌, ◌^◌, OnErr, OnOk, map, position, vec_len};
ghost use Rattle.model.specs.Schedule.{events_of};
ghost use Rattle.sweeps.specs.Shown.{is_same_shown, shown_in};
ghost use Rattle.sweeps.specs.Tallies.{AreFew, IsCountedAt, same_in, with_one_more};

use crate::shown::Shown;
use schedule::Schedule;
use std::alloc::AllocError;

/// Runs that show the same: how many, and the first of them.
#[derive(Drop)]
pub struct SameRuns {
    pub shown: Shown,
    pub count: u128,
    /// The seed of the first one.
    pub first: u64,
    /// The schedule of the first one.
    pub schedule: Schedule,
}

/// Which of the listed show this; none where there are no such.
fn place_of(listed: &[SameRuns], shown: &Shown) -> Option<usize>
    ensures { result ≡ position (λ same. is_same_shown (shown_in shown.now) (shown_in same.shown)) listed.now }
{
    listed.iter().position(|same| shown.is_same(&same.shown))
}

/// Counts one more of those at a place.
fn count_at(listed: &mut Vec<SameRuns>, at: usize)
    requires within { at < vec_len listed.old }
    requires few { AreFew (2 ^ 64) (map same_in listed.old.items) }
    ensures { IsCountedAt at listed.old.items listed.new.items }
{
    listed[at].count += 1;
}

/// Counts a run that shows this, with this schedule and this seed. The only error is a want of memory, and nothing
/// has changed.
pub(crate) fn count(
    listed: &mut Vec<SameRuns>,
    shown: Shown,
    schedule: Schedule,
    seed: u64,
) -> Result<(), AllocError>
    requires { AreFew (2 ^ 64) (map same_in listed.old.items) }
    ensures counted { OnOk result (map same_in listed.new.items
        ≡ with_one_more (shown_in shown) (events_of schedule) seed (map same_in listed.old.items)) }
    ensures still { OnErr result (listed.new.items ≡ listed.old.items) }
{
    match place_of(listed, &shown) {
        Some(at) => {
            count_at(listed, at);
            Ok(())
        }
        None => {
            listed.push(SameRuns {
                shown,
                count: 1,
                first: seed,
                schedule,
            })?;
            Ok(())
        }
    }
}

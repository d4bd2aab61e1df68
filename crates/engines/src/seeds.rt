//! Which policy a run by one worker has, and where its seed comes from.

ghost use Rattle.std.specs.Prelude.{◌<◌, ◌^◌};
ghost use Rattle.program_runs.specs.policies.Policies.{HasTurns};
ghost use Rattle.engines.specs.Policies.{HasSeed, IsAskedFor};

use command_line::{PolicyName, RunOptions};
use program_runs::policies::Policy;

/// Where the seed comes from of a run for which none is asked, and who is told it.
pub trait Seeds {
    /// A number by chance.
    fn draw(&self) -> u32;

    /// A run begins by this seed, which was drawn.
    fn tell(&self, seed: u32);
}

/// The policy that the options of a run ask for. A seed for which they don't ask is drawn, and told unless that is to
/// be quiet.
pub(crate) fn policy_for<S: Seeds>(seeds: &S, options: &RunOptions, is_quiet: bool) -> Policy
    ensures turns { HasTurns result }
    ensures asked { IsAskedFor options.now result }
{
    match options.policy() {
        PolicyName::Mixed => {
            let seed = seed_for(seeds, options.seed, is_quiet);
            Policy::Mixed { seed }
        }
        PolicyName::Random => {
            let seed = seed_for(seeds, options.seed, is_quiet);
            Policy::Random { seed }
        }
        PolicyName::Rotation => {
            let quantum = options.rotation_quantum();
            Policy::Rotation { quantum }
        }
    }
}

/// The seed that is asked for, or one that is drawn.
fn seed_for<S: Seeds>(seeds: &S, asked: Option<u64>, is_quiet: bool) -> u64
    ensures { HasSeed asked result }
{
    match asked {
        Some(seed) => seed,
        None => drawn_seed(seeds, is_quiet),
    }
}

/// A seed that is drawn, and told unless that is to be quiet.
fn drawn_seed<S: Seeds>(seeds: &S, is_quiet: bool) -> u64
    ensures { result < 2 ^ 32 }
{
    let seed = seeds.draw();
    if !is_quiet {
        seeds.tell(seed);
    }
    u64::from(seed)
}

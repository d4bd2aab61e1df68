//! `random`: each event is of a thread that is drawn.

ghost use Rattle.std.specs.Prelude.{◌≡◌, ◌≤◌, [], None, IfSome, OnOk};
ghost use Rattle.model.specs.LimitStands.{bounds_of};
ghost use Rattle.program_runs.specs.declared.policies.policy.Policy.TheVariants.{Random as by_seed};
ghost use Rattle.program_runs.specs.policies.Drawn.{IsDrawn, IsPickDrawn, words_after};
ghost use Rattle.program_runs.specs.policies.PolicyTurns.{DoesTurn, HasRunThrough};
ghost use Rattle.program_runs.specs.policies.Runs.{events_by, random_turn, words_of};
ghost use Rattle.program_runs.specs.worlds.Turns.{MayGo};
ghost use Rattle.program_runs.specs.worlds.Worlds.{IsOfLess};

use crate::policies::draws::{below, pick_below};
use crate::policies::picked_turns::give_turn;
use crate::policies::picks::waiters_to_pick;
use crate::policies::stopping::behind_turn;
use crate::workers::Gate;
use crate::worlds::{World, enabled_at, enabled_count};
use machine::Machine;
use rand_core::SeedableRng;
use rand_xoshiro::Xoshiro256PlusPlus;
use run_laws::searches::picks_are_in_order;
use run_laws::word_reports::reports_of_words;
use std::alloc::AllocError;

/// The words of a seed, before one is drawn.
fn words_of_seed(seed: u64) -> Xoshiro256PlusPlus
    ensures { words_after result ≡ words_of seed }
{
    Xoshiro256PlusPlus::seed_from_u64(seed)
}

/// One of the threads that have an event which is enabled, which is drawn, if there is one.
fn drawn_thread(random: &mut Xoshiro256PlusPlus, machine: &Machine) -> Option<u16>
    ensures able { IfSome result (MayGo machine.now) }
    ensures drawn { IsDrawn machine.now random.old result random.new }
{
    let count = enabled_count(machine);
    if count == 0 {
        return None;
    }
    enabled_at(machine, below(random, u32::from(count)) as u16)
}

/// The number of one of the waiters that the next event of a thread may wake, which is drawn; 0 where there are not
/// two.
fn drawn_pick(random: &mut Xoshiro256PlusPlus, machine: &Machine, thread: u16) -> u16
    ensures { IsPickDrawn machine.now thread random.old result random.new }
{
    let threads = machine.shared().threads.len();
    let waiters = waiters_to_pick(machine, thread).min(threads);
    pick_below(random, waiters as u16)
}

/// An event, or the end. The only error is a want of memory.
fn take_turn(world: &mut World, random: &mut Xoshiro256PlusPlus) -> Result<(), AllocError>
    requires { world.old.end ≡ None }
    ensures does { OnOk result (DoesTurn (random_turn world.old.trees (bounds_of world.old.machine.limits)
        world.old.budget (words_after random.old) world.old.events).events world.old world.new) }
    ensures kept { OnOk result (world.new.end ≡ None → words_after random.new ≡ (random_turn world.old.trees
        (bounds_of world.old.machine.limits) world.old.budget (words_after random.old) world.old.events).kept) }
{
    reports_of_words();
    picks_are_in_order();
    // what is known of the world
    let _ = world.end();
    let Some(thread) = drawn_thread(random, world.machine()) else {
        world.end_quietly();
        return Ok(());
    };
    let pick = drawn_pick(random, world.machine(), thread);
    give_turn(world, thread, pick, 1)
}

/// Does events until there is an end. The gate is told how many are done, and may stop the run behind each. The only
/// error is a want of memory.
pub(crate) fn run_random<G: Gate>(world: &mut World, seed: u64, gate: &G) -> Result<(), AllocError>
    requires on { world.old.end ≡ None }
    requires none { world.old.events ≡ [] }
    ensures same { OnOk result (IsOfLess (G.may_stop gate.now) world.old world.new) }
    ensures through { OnOk result (HasRunThrough (G.may_stop gate.now) (events_by (by_seed seed) world.old.trees
        (bounds_of world.old.machine.limits) world.old.budget) world.new) }
{
    let mut random = words_of_seed(seed);
    'turns: for _ in 0..=world.budget() {
        if world.end().is_some() {
            return Ok(());
        }
        take_turn(world, &mut random)?;
        behind_turn(world, gate);
    }
    let _ = world.end();
    Ok(())
}

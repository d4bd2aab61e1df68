//! `mixed`: turns in rotation, whose lengths are drawn.

ghost use Rattle.std.specs.Prelude.{◌≡◌, ◌≤◌, [], None, OnOk};
ghost use Rattle.model.specs.LimitStands.{bounds_of};
ghost use Rattle.program_runs.specs.declared.policies.policy.Policy.TheVariants.{Mixed as by_seed};
ghost use Rattle.program_runs.specs.policies.Keeping.{drawn_pick, kept_by, turn_for};
ghost use Rattle.program_runs.specs.policies.PolicyTurns.{DoesTurn, HasRunThrough};
ghost use Rattle.program_runs.specs.policies.Runs.{events_by, length_of, mixed_of, mixed_turn};
ghost use Rattle.program_runs.specs.worlds.Worlds.{IsOfLess};

use crate::policies::draws::{below, pick_below};
use crate::policies::picked_turns::give_turn;
use crate::policies::stopping::behind_turn;
use crate::policies::turn_lengths::{Turn, TurnLengths};
use crate::policies::turn_order::{Direction, next_thread};
use crate::policies::waiters::waiting;
use crate::workers::Gate;
use crate::worlds::World;
use machine::Machine;
use rand_core::SeedableRng;
use rand_xoshiro::Xoshiro256PlusPlus;
use run_laws::word_reports::reports_of_words;
use std::alloc::AllocError;

/// What the seed says, and where the turns are.
#[derive(Drop)]
struct Mixed {
    random: Xoshiro256PlusPlus,
    direction: Direction,
    lengths: TurnLengths,
    /// The thread of the last turn.
    last: Option<u16>,
}

impl Mixed {
    /// Before the first turn. Four numbers are drawn, and nothing comes of the last.
    fn from_seed(seed: u64) -> Mixed
        ensures { kept_by result ≡ mixed_of seed }
    {
        let mut random = Xoshiro256PlusPlus::seed_from_u64(seed);
        let n = below(&mut random, 7);
        let direction = if below(&mut random, 2) == 1 {
            Direction::Downwards
        } else {
            Direction::Upwards
        };
        let is_main_first = below(&mut random, 2) == 0;
        let _unused = below(&mut random, 8);
        Mixed {
            random,
            direction,
            lengths: TurnLengths::new(n, is_main_first),
            last: None,
        }
    }

    /// Whose turn it is, where it is this thread's.
    fn turn_of(&self, thread: u16) -> Turn
        ensures { result ≡ turn_for self.now.last thread }
    {
        match self.last {
            None => Turn::First,
            Some(last) if last == thread => Turn::Same,
            Some(_) => Turn::Another,
        }
    }

    /// How many events the next turn has at most, which is this thread's.
    fn next_length(&mut self, thread: u16) -> u32
        ensures drawn { (result, kept_by self.new) ≡ length_of self.old.last thread (kept_by self.old) }
        ensures some { 1 ≤ result }
    {
        let turn = self.turn_of(thread);
        self.lengths.next(&mut self.random, turn)
    }

    /// Where several threads wait, the number of one of them, which is drawn; else 0.
    fn next_pick(&mut self, machine: &Machine) -> u16
        ensures { (result, kept_by self.new) ≡ drawn_pick machine.now (kept_by self.old) }
    {
        pick_below(&mut self.random, waiting(&machine.shared().threads))
    }

    /// A turn, or the end. The only error is a want of memory.
    fn take_turn(&mut self, world: &mut World) -> Result<(), AllocError>
        requires { world.old.end ≡ None }
        ensures does { OnOk result (DoesTurn (mixed_turn world.old.trees (bounds_of world.old.machine.limits)
            world.old.budget (kept_by self.old) world.old.events).events world.old world.new) }
        ensures kept { OnOk result (kept_by self.new ≡ (mixed_turn world.old.trees
            (bounds_of world.old.machine.limits) world.old.budget (kept_by self.old) world.old.events).kept) }
    {
        reports_of_words();
        // what is known of the world
        let _ = world.end();
        let Some(thread) = next_thread(world.machine(), self.last, self.direction) else {
            world.end_quietly();
            return Ok(());
        };
        let most = self.next_length(thread);
        let pick = self.next_pick(world.machine());
        self.last = Some(thread);
        give_turn(world, thread, pick, most)
    }
}

/// Does turns until there is an end. The gate is told how many events are done, and may stop the run behind a turn. The
/// only error is a want of memory.
pub(crate) fn run_mixed<G: Gate>(world: &mut World, seed: u64, gate: &G) -> Result<(), AllocError>
    requires on { world.old.end ≡ None }
    requires none { world.old.events ≡ [] }
    ensures same { OnOk result (IsOfLess (G.may_stop gate.now) world.old world.new) }
    ensures through { OnOk result (HasRunThrough (G.may_stop gate.now) (events_by (by_seed seed) world.old.trees
        (bounds_of world.old.machine.limits) world.old.budget) world.new) }
{
    let mut mixed = Mixed::from_seed(seed);
    'turns: for _ in 0..=world.budget() {
        if world.end().is_some() {
            return Ok(());
        }
        mixed.take_turn(world)?;
        behind_turn(world, gate);
    }
    let _ = world.end();
    Ok(())
}

//! How many events turns have.

ghost use Rattle.std.specs.Prelude.{◌≡◌, ◌≤◌, ◌<◌};
ghost use Rattle.program_runs.specs.policies.Draws.{counted_length as counted};

use crate::policies::draws::{long_length, short_length};
use rand_core::Rng;

/// How many turns are short before there are long ones, of the thread of the turn before, and as many of another one.
const SHORT_TURNS: u32 = 128;

/// How many events the first turn has at most, where main is to go on until it has to wait.
const FIRST_TURN: u32 = 10_000;

/// Whose turn it is, beside the one before.
#[derive(Clone, Copy)]
pub(crate) enum Turn {
    /// There was none before.
    First,
    /// The turn of the thread before, again.
    Same,
    /// Another thread's.
    Another,
}

/// How turns get their lengths.
#[derive(Drop)]
pub(crate) struct TurnLengths {
    /// How long short turns are: up to 2^(n+1) events, and 1 where n is 0.
    n: u32,
    /// Whether the first turn is a long one.
    is_main_first: bool,
    /// How many short turns there have been of the same thread as the turn before, the first one included.
    same: u32,
    /// How many of another one.
    another: u32,
    ghost short: { n < 7 },
}

/// How many events a turn has at most, of a kind of which so many were short.
fn counted_length<R: Rng>(random: &mut R, n: u32, short_turns: &mut u32) -> u32
    requires { n < 7 }
    ensures drawn { (result, (short_turns.new, R.stream random.new)) ≡ counted n short_turns.old (R.stream random.old) }
    ensures some { 1 ≤ result }
{
    if *short_turns < SHORT_TURNS {
        *short_turns += 1;
        short_length(random, n)
    } else {
        long_length(random)
    }
}

impl TurnLengths {
    ghost use Rattle.program_runs.specs.policies.Lengths.{AreNew, HasLength, IsLengthOfAnother, IsFirstLength, IsLengthOfSame};

    /// The lengths of a run without a turn so far.
    pub(crate) fn new(n: u32, is_main_first: bool) -> TurnLengths
        requires { n < 7 }
        ensures { AreNew n is_main_first result }
    {
        TurnLengths {
            n,
            is_main_first,
            same: 0,
            another: 0,
        }
    }

    /// How many events a turn has at most of the thread of the turn before.
    fn same_length<R: Rng>(&mut self, random: &mut R) -> u32
        ensures length { IsLengthOfSame self.old (R.stream random.old) result self.new (R.stream random.new) }
        ensures some { 1 ≤ result }
    {
        counted_length(random, self.n, &mut self.same)
    }

    /// How many one of another thread has.
    fn another_length<R: Rng>(&mut self, random: &mut R) -> u32
        ensures length { IsLengthOfAnother self.old (R.stream random.old) result self.new (R.stream random.new) }
        ensures some { 1 ≤ result }
    {
        counted_length(random, self.n, &mut self.another)
    }

    /// How many the first turn has.
    fn first_length<R: Rng>(&mut self, random: &mut R) -> u32
        ensures length { IsFirstLength self.old.is_main_first self.old (R.stream random.old) result self.new
            (R.stream random.new) }
        ensures some { 1 ≤ result }
    {
        if self.is_main_first {
            FIRST_TURN
        } else {
            self.same_length(random)
        }
    }

    /// How many events the next turn has at most.
    pub(crate) fn next<R: Rng>(&mut self, random: &mut R, turn: Turn) -> u32
        ensures length { HasLength turn self.old (R.stream random.old) result self.new (R.stream random.new) }
        ensures some { 1 ≤ result }
    {
        match turn {
            Turn::First => self.first_length(random),
            Turn::Same => self.same_length(random),
            Turn::Another => self.another_length(random),
        }
    }
}

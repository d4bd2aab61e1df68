//! Rounds among numbers, each of which has one next number at most.
//!
//! # Proved
//!
//! - `has_round`: whether some number is come back to by going on from it, from each number to its next one
//!   (`TellsRound`). From a number as many steps are gone as there are numbers: who is not at an end then goes round.
//!
//! # Wrong bodies
//!
//! - `rounds-first-alone`: the way from the first number alone is gone; refused by `has_round`.
//! - `rounds-too-few-steps`: one step fewer is gone; refused by `goes_round`.

ghost use Rattle.std.specs.Prelude.{◌≡◌};
ghost use Rattle.waiting_circles.specs.Rounds as rounds;
ghost use Rattle.waiting_circles.specs.Rounds.{TellsRoundFrom, TellsRound};

/// The next number of a number, if it has one.
fn next_in(nexts: &[Option<u16>], number: usize) -> Option<u16>
    ensures { result ≡ rounds.next_in nexts.now number }
{
    match nexts.get(number) {
        Some(next) => *next,
        None => None,
    }
}

/// Whether the way from a number never ends: it comes into a round then, and else this number is in none.
fn goes_round(nexts: &[Option<u16>], first: usize) -> bool
    ensures { TellsRoundFrom nexts.now first result }
{
    let mut at = first;
    for step in 0..nexts.len() {
        let Some(next) = next_in(nexts, at) else {
            return false;
        };
        at = next as usize;
    }
    match next_in(nexts, at) {
        Some(_) => true,
        None => false,
    }
}

/// Whether there is a round.
pub fn has_round(nexts: &[Option<u16>]) -> bool
    ensures { TellsRound nexts.now result }
{
    for first in 0..nexts.len() {
        if goes_round(nexts, first) {
            return true;
        }
    }
    false
}

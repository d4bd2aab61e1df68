//! Outcomes, and lists of them.

ghost use Rattle.std.specs.Prelude.{◌≡◌, ◌≤◌, [], length, map, IfSome, OnOk, OnErr};
ghost use Rattle.search.specs.run_outcomes.Outcomes.{told_by, AreInOrder, IsAdded, IsPlace};

use crate::run_outcomes::order::compare;
use model::EndState;
use std::alloc::{AllocError, Global};
use std::cmp::Ordering;
use std::marker::Model;

/// The UTF-16 units that a run printed, the first of them first, and how its threads stand when none of them may go on,
/// by their numbers.
#[derive(Drop)]
pub struct Outcome {
    pub printed: Vec<u16>,
    pub threads: Vec<EndState>,
}

/// Outcomes, each of them once. They are in the order of the lines that were printed, and where these are the same in
/// that of how the threads stand. Of lines those that are ints come first, in their order.
#[derive(Drop)]
pub struct Outcomes {
    listed: Vec<Outcome>,
}

impl Model for Outcomes {
    ghost use Rattle.std.specs.Prelude.{List, map};
    ghost use Rattle.run_laws.specs.interleavings.Ends.{Outcome as Told};
    ghost use Rattle.search.specs.run_outcomes.Outcomes.{told_by, AreInOrder};

    ghost Value = { List Told };

    ghost view = { λ o. map told_by o.listed.items };

    ghost invariant = { λ o. AreInOrder (map told_by o.listed.items) };
}

/// Where an outcome is to be inserted among others, which are in order; none where it stands there.
fn place_of(listed: &[Outcome], outcome: &Outcome) -> Option<usize>
    ensures place { IsPlace (map told_by listed.now) (told_by outcome.now) result }
    ensures within { IfSome result (λ at. at ≤ length listed.now) }
{
    'listed: for at in 0..listed.len() {
        match compare(outcome, &listed[at]) {
            Ordering::Less => return Some(at),
            Ordering::Equal => return None,
            Ordering::Greater => {}
        }
    }
    Some(listed.len())
}

impl Outcomes {
    /// No outcome.
    pub fn new(alloc: Global) -> Outcomes
        ensures { result ≡ [] }
    {
        Outcomes {
            listed: Vec::new(alloc),
        }
    }

    /// All of them, in order.
    pub fn as_slice(&self) -> &[Outcome]
        ensures told { map told_by result.now ≡ self.now }
        ensures known { AreInOrder self.now }
    {
        &self.listed
    }

    /// Lists an outcome, if it isn't listed yet.
    ///
    /// # Errors
    ///
    /// A want of memory, and nothing has changed.
    pub fn add(&mut self, outcome: Outcome) -> Result<(), AllocError>
        ensures ok { OnOk result (IsAdded (told_by outcome) self.old self.new) }
        ensures err { OnErr result (self.new ≡ self.old) }
    {
        match place_of(&self.listed, &outcome) {
            None => Ok(()),
            Some(at) => {
                self.listed.insert(at, outcome)?;
                Ok(())
            }
        }
    }
}

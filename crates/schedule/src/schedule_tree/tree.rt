//! A tree of schedules.

ghost use Rattle.std.specs.Prelude.{◌≡◌, ◌<◌, ◌^◌, ◌+◌, [], ◌∷◌, length, slice_get, Some, IfOk, OnOk, OnErr};
ghost use Rattle.model.specs.Schedule.{EntryFits};
ghost use Rattle.schedule.specs.schedule_tree.Trees.{with_way, AreBelow, AreFitting, IsWayBack};

use crate::Schedule;
use model::ScheduleEntry;
use std::alloc::{AllocError, Global};
use std::marker::Model;

/// A schedule that goes on from another one, by its number, with one entry.
#[derive(Clone, Copy)]
pub(crate) struct Node {
    pub(crate) parent: u32,
    pub(crate) entry: ScheduleEntry,
}

/// Schedules by their numbers. Number 0 has no entries, and each other one goes on from one with a lower number by
/// one entry. There are at most 4,294,967,295. One takes 12 bytes, however long it is.
#[derive(Drop)]
pub struct ScheduleTree {
    nodes: Vec<Node>,
    alloc: Global,
}

impl Model for ScheduleTree {
    ghost use Rattle.std.specs.Prelude.{◌<◌, ◌^◌, ◌+◌, List, length};
    ghost use Rattle.model.specs.declared.event.ScheduleEntry.{ScheduleEntry};
    ghost use Rattle.schedule.specs.schedule_tree.Trees.{ways, AreBelow, AreFitting};

    ghost Value = { List (List ScheduleEntry) };

    ghost view = { λ t. ways t.nodes.items };

    ghost invariant = { λ t. (length t.nodes.items + 1 < 2 ^ 32) × AreBelow 1 t.nodes.items × AreFitting t.nodes.items };
}

/// The entries of a schedule, the last one first.
fn backwards(alloc: Global, nodes: &[Node], number: u32) -> Result<Vec<ScheduleEntry>, AllocError>
    requires below { AreBelow 1 nodes.now }
    requires fitting { AreFitting nodes.now }
    requires there { number < length nodes.now + 1 }
    ensures { IfOk result (λ v. IsWayBack nodes.now number v.items) }
{
    let mut entries = Vec::new(alloc);
    let mut at = number;
    'back: while at != 0 {
        let node = nodes[at as usize - 1];
        entries.push(node.entry)?;
        at = node.parent;
    }
    Ok(entries)
}

impl ScheduleTree {
    /// The schedule of no events alone.
    pub fn new(alloc: Global) -> ScheduleTree
        ensures { result ≡ [] ∷ [] }
    {
        ScheduleTree {
            nodes: Vec::new(alloc),
            alloc,
        }
    }

    /// How many schedules it has: at least one.
    pub fn len(&self) -> u32
        ensures { result ≡ length self.now }
    {
        self.nodes.len() as u32 + 1
    }

    /// Adds the schedule that goes on from the one of a number with an entry.
    ///
    /// # Errors
    ///
    /// A want of memory, and nothing has changed.
    pub fn push(&mut self, parent: u32, entry: ScheduleEntry) -> Result<(), AllocError>
        requires parent { parent < length self.old }
        requires room { length self.old + 1 < 2 ^ 32 }
        requires fits { EntryFits entry }
        ensures ok { OnOk result (self.new ≡ with_way self.old parent entry) }
        ensures err { OnErr result (self.new ≡ self.old) }
    {
        self.nodes.push(Node { parent, entry })?;
        Ok(())
    }

    /// The schedule of a number. The only error is a want of memory.
    pub fn schedule(&self, number: u32) -> Result<Schedule, AllocError>
        requires { number < length self.now }
        ensures { IfOk result (λ s. slice_get self.now number ≡ Some s) }
    {
        let mut entries = backwards(self.alloc, &self.nodes, number)?;
        entries.reverse();
        Ok(Schedule::of_entries(entries))
    }
}

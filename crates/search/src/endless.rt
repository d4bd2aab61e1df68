//! From which numbers edges lead to one from which none leads on.

ghost use Rattle.std.specs.Prelude.{◌≡◌, ◌<◌, ◌^◌, length, replicate, true, IfOk};
ghost use Rattle.search.specs.Edges.{AreBelow, AreMarked, IsEndlessNumber, IsFirstUnmarked, IsLast, LeadsToLast, Sweeps, is_open};

use crate::edges::Edge;
use std::alloc::{AllocError, Global};

/// Takes the marks of the numbers from which edges lead.
fn clear(edges: &[Edge], marks: &mut [bool])
    requires below { AreBelow (length marks.old) edges.now }
    requires marks { marks.old ≡ replicate (length marks.old) true }
    ensures { AreMarked (IsLast edges.now) (length marks.old) marks.new }
{
    'edges: for at in 0..edges.len() {
        let edge = edges[at];
        marks[edge.node as usize] = false;
    }
}

/// Whether an edge leads to a marked number from one that isn't.
fn is_open(edge: Edge, marks: &[bool]) -> bool
    requires node { edge.node < length marks.now }
    requires to { edge.to < length marks.now }
    ensures { result ≡ is_open marks.now edge }
{
    marks[edge.to as usize] && !marks[edge.node as usize]
}

/// Marks each number from which an edge leads to a marked one, the last edges first. Answers whether it marked any.
fn sweep(edges: &[Edge], marks: &mut [bool]) -> bool
    requires { AreBelow (length marks.old) edges.now }
    ensures { Sweeps edges.now result marks.old marks.new }
{
    let mut is_more = false;
    'edges: for at in 0..edges.len() {
        let edge = edges[edges.len() - 1 - at];
        if is_open(edge, marks) {
            marks[edge.node as usize] = true;
            is_more = true;
        }
    }
    is_more
}

/// Marks each number from which edges lead to one that is marked.
fn spread(edges: &[Edge], marks: &mut [bool])
    requires last { AreMarked (IsLast edges.now) (length marks.old) marks.old }
    requires below { AreBelow (length marks.old) edges.now }
    ensures { AreMarked (LeadsToLast edges.now) (length marks.old) marks.new }
{
    let mut is_more = true;
    'sweeps: while is_more {
        is_more = sweep(edges, marks);
    }
}

/// The first number that isn't marked, if there is one.
fn first_unmarked(marks: &[bool]) -> Option<u32>
    requires { length marks.now < 2 ^ 32 }
    ensures { IsFirstUnmarked marks.now result }
{
    let count = marks.len() as u32;
    'numbers: for number in 0..count {
        if !marks[number as usize] {
            return Some(number);
        }
    }
    None
}

/// The first of so many numbers from which edges don't lead to one from which none leads on, if there is one. The only
/// error is a want of memory.
pub(crate) fn endless_number(
    alloc: Global,
    edges: &[Edge],
    count: u32,
) -> Result<Option<u32>, AllocError>
    requires { AreBelow count edges.now }
    ensures { IfOk result (IsEndlessNumber edges.now count) }
{
    let mut marks = vec![in alloc; true; count as usize]?;
    clear(edges, marks.as_mut_slice());
    spread(edges, marks.as_mut_slice());
    Ok(first_unmarked(marks.as_slice()))
}

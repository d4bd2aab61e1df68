//! The last accesses of a variable by each thread that accessed it.
//!
//! # Proved
//!
//! - `first_unknown`, `unknown_read` and `unknown_write` answer an access of another thread whose position the clock of
//!   a thread does not know, and none exactly where there is none.
//! - `keep_read` and `keep_write` keep an access in place of the one before of its thread, and all others; where memory
//!   is missing they change nothing.
//!
//! # Not proved
//!
//! - That a list has at most one access of each thread.

ghost use Rattle.std.specs.Prelude.{◌≡◌, ℕ, ◌<◌, List, [], MatchOption, OnOk, length, slice_get, slice_index_or};
ghost use Rattle.race_detection.specs.last_accesses.Accesses.{AccessesOf, AreSameAccesses, IsFirstUnknown, IsKeptOr, IsOfThread, IsReadKeptOr, IsWriteKeptOr, accesses_at, no_accesses};

use crate::vector_clocks::{Clock, time_of};
use std::alloc::{AllocError, Global};
use std::marker::Model;

/// An access: its thread, its position in the run, and its event.
#[derive(Clone, Copy, PartialEq, Eq)]
pub struct Access {
    pub thread: usize,
    pub position: u64,
    pub event: u64,
}

/// The last reads of a variable and its last writes, at most one of each thread.
#[derive(Drop)]
pub struct Accesses {
    pub reads: Vec<Access>,
    pub writes: Vec<Access>,
}

impl Model for Accesses {
    ghost Value = { AccessesOf };

    ghost view = { λ a. record { reads = a.reads.items; writes = a.writes.items } };
}

impl Accesses {
    pub fn new(alloc: Global) -> Accesses
        ensures none { result ≡ no_accesses }
    {
        Accesses {
            reads: Vec::new(alloc),
            writes: Vec::new(alloc),
        }
    }

    /// Keeps a read. Where memory is missing, nothing changes.
    pub fn keep_read(&mut self, access: Access) -> Result<(), AllocError>
        ensures reads { IsKeptOr result self.old.reads self.new.reads access }
        ensures writes { self.new.writes ≡ self.old.writes }
    {
        keep(&mut self.reads, access)
    }

    /// Keeps a write. Where memory is missing, nothing changes.
    pub fn keep_write(&mut self, access: Access) -> Result<(), AllocError>
        ensures writes { IsKeptOr result self.old.writes self.new.writes access }
        ensures reads { self.new.reads ≡ self.old.reads }
    {
        keep(&mut self.writes, access)
    }
}

/// An access of another thread that did not happen before: the clock of this thread does not know its time.
pub fn first_unknown(accesses: &[Access], threads: &[Clock], thread: usize) -> Option<Access>
    ensures { IsFirstUnknown accesses.now thread (slice_index_or threads.now thread []) result }
{
    'accesses: for access in accesses {
        if access.thread != thread && time_of(threads, thread, access.thread) <= access.position {
            return Some(*access);
        }
    }
    None
}

/// The same among the reads of a variable.
pub fn unknown_read(
    variables: &[Accesses],
    variable: usize,
    threads: &[Clock],
    thread: usize,
) -> Option<Access>
    ensures { IsFirstUnknown (accesses_at variables.now variable).reads thread (slice_index_or threads.now thread []) result }
{
    if variable < variables.len() {
        let accesses = &variables[variable];
        first_unknown(&accesses.reads, threads, thread)
    } else {
        None
    }
}

/// The same among its writes.
pub fn unknown_write(
    variables: &[Accesses],
    variable: usize,
    threads: &[Clock],
    thread: usize,
) -> Option<Access>
    ensures { IsFirstUnknown (accesses_at variables.now variable).writes thread (slice_index_or threads.now thread []) result }
{
    if variable < variables.len() {
        let accesses = &variables[variable];
        first_unknown(&accesses.writes, threads, thread)
    } else {
        None
    }
}

/// The place of the access of a thread.
pub fn place_of(accesses: &[Access], thread: usize) -> Option<usize>
    ensures { MatchOption result (Unit {0}) (λ k. IsOfThread accesses.now k thread) }
{
    'accesses: for (k, access) in accesses.iter().enumerate() {
        if access.thread == thread {
            return Some(k);
        }
    }
    None
}

/// Keeps an access in place of the one before of its thread. Where memory is missing, nothing changes.
pub fn keep(accesses: &mut Vec<Access>, access: Access) -> Result<(), AllocError>
    ensures { IsKeptOr result accesses.old.items accesses.new.items access }
{
    match place_of(accesses, access.thread) {
        Some(k) => {
            accesses[k] = access;
            Ok(())
        }
        None => {
            accesses.push(access)?;
            Ok(())
        }
    }
}

/// Makes the accesses of variables up to this one.
fn make_accesses(
    alloc: Global,
    variables: &mut Vec<Accesses>,
    variable: usize,
) -> Result<(), AllocError>
    ensures same { AreSameAccesses variables.old.items variables.new.items }
    ensures room { OnOk result (variable < length variables.new.items) }
{
    'made: while variables.len() <= variable {
        variables.push(Accesses::new(alloc))?;
    }
    Ok(())
}

/// Keeps a read of a variable. Where memory is missing, nothing changes.
pub fn keep_read(
    alloc: Global,
    variables: &mut Vec<Accesses>,
    variable: usize,
    access: Access,
) -> Result<(), AllocError>
    ensures { IsReadKeptOr result variables.old.items variables.new.items variable access }
{
    make_accesses(alloc, variables, variable)?;
    variables[variable].keep_read(access)
}

/// Keeps a write of a variable. Where memory is missing, nothing changes.
pub fn keep_write(
    alloc: Global,
    variables: &mut Vec<Accesses>,
    variable: usize,
    access: Access,
) -> Result<(), AllocError>
    ensures { IsWriteKeptOr result variables.old.items variables.new.items variable access }
{
    make_accesses(alloc, variables, variable)?;
    variables[variable].keep_write(access)
}

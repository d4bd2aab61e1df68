//! A detector of data races (JLS 17.4.5): it is told of the steps of a run, one after another, and tells which of them
//! race.
//!
//! # Proved
//!
//! - Of whatever run the detector was told (`Watches`): to the next step it answers an earlier one that races with it,
//!   as that step was told, if there is one; it answers none exactly where no earlier step races with it (`watch`). So
//!   the second step of each race has one told, and so has each variable that has a race.
//! - Where memory is missing, or 2^64 - 1 steps were told, it answers that, and still knows the same run.
//!
//! # Not proved
//!
//! - Which step is told where several race: it is the last write of some thread, or its last read.
//! - How much memory it takes: a clock for each thread and each place, with a time for each thread; of each variable
//!   one read and one write of each thread at most. What the numbers stand for.

ghost use Rattle.std.specs.Prelude.{◌≡◌, ◌+◌, ◌<◌, ◌^◌, []};
ghost use Rattle.race_detection.specs.race_detector.Watched.{DetectorOf, IsWatching, Watches, step_with};
ghost use Rattle.std.specs.Option.{option_map, option_or};

use crate::last_accesses::{Access, Accesses, keep_read, keep_write, unknown_read, unknown_write};
use crate::run_steps::{Action, Step};
use crate::vector_clocks::{Clock, join_clock, make_join, make_release, reset_clock, stamp_clock};
use std::alloc::{AllocError, Global};
use std::marker::Model;

/// Knows of the steps of a run so far what it takes to tell the races of the next one: a clock for each thread and for
/// each place, and the last reads and writes of each variable.
#[derive(Drop)]
pub struct Detector {
    alloc: Global,
    position: u64,
    threads: Vec<Clock>,
    places: Vec<Clock>,
    variables: Vec<Accesses>,
}

impl Model for Detector {
    ghost Value = { DetectorOf };

    ghost view = { λ d. record { position = d.position; threads = d.threads.items; places = d.places.items; variables = d.variables.items } };
}

impl Detector {
    /// A detector that was told of no step.
    pub fn new(alloc: Global) -> Detector
        ensures watches { Watches [] result }
    {
        Detector {
            alloc,
            position: 0,
            threads: Vec::new(alloc),
            places: Vec::new(alloc),
            variables: Vec::new(alloc),
        }
    }

    /// Is told of the next step, and tells an earlier one that races with it, if there is any. Where memory is missing,
    /// or this is step 2^64, it wasn't told.
    pub fn watch(&mut self, step: Step) -> Result<Option<Step>, AllocError>
        ensures watched { IsWatching result step self.old self.new }
    {
        if self.position == u64::MAX {
            return Err(AllocError);
        }
        match step.action {
            Action::Read(variable) => self.read(step, variable),
            Action::Write(variable) => self.write(step, variable),
            Action::Acquire(place) => self.acquire(step, place),
            Action::Release(place) => self.release(step, place),
            Action::Clear { taken, left } => self.clear(step, taken, left),
        }
    }

    fn read(&mut self, step: Step, variable: usize) -> Result<Option<Step>, AllocError>
        requires is { step.action ≡ Action.Read variable }
        requires room { self.old.position + 1 < 2 ^ 64 }
        ensures watched { IsWatching result step self.old self.new }
    {
        let written = unknown_write(&self.variables, variable, &self.threads, step.thread);
        keep_read(
            self.alloc,
            &mut self.variables,
            variable,
            access_of(step, self.position),
        )?;
        self.position += 1;
        Ok(told_of(written, Action::Write(variable)))
    }

    fn write(&mut self, step: Step, variable: usize) -> Result<Option<Step>, AllocError>
        requires is { step.action ≡ Action.Write variable }
        requires room { self.old.position + 1 < 2 ^ 64 }
        ensures watched { IsWatching result step self.old self.new }
    {
        let written = unknown_write(&self.variables, variable, &self.threads, step.thread);
        let read = unknown_read(&self.variables, variable, &self.threads, step.thread);
        keep_write(
            self.alloc,
            &mut self.variables,
            variable,
            access_of(step, self.position),
        )?;
        self.position += 1;
        Ok(told_first(
            told_of(written, Action::Write(variable)),
            told_of(read, Action::Read(variable)),
        ))
    }

    fn acquire(&mut self, step: Step, place: usize) -> Result<Option<Step>, AllocError>
        requires is { step.action ≡ Action.Acquire place }
        requires room { self.old.position + 1 < 2 ^ 64 }
        ensures watched { IsWatching result step self.old self.new }
    {
        make_join(
            self.alloc,
            &mut self.threads,
            step.thread,
            &self.places,
            place,
        )?;
        join_clock(&mut self.threads, step.thread, &self.places, place);
        self.position += 1;
        Ok(None)
    }

    fn release(&mut self, step: Step, place: usize) -> Result<Option<Step>, AllocError>
        requires is { step.action ≡ Action.Release place }
        requires room { self.old.position + 1 < 2 ^ 64 }
        ensures watched { IsWatching result step self.old self.new }
    {
        make_release(
            self.alloc,
            &mut self.places,
            place,
            &self.threads,
            step.thread,
        )?;
        join_clock(&mut self.places, place, &self.threads, step.thread);
        self.position += 1;
        stamp_clock(&mut self.places, place, step.thread, self.position);
        Ok(None)
    }

    fn clear(&mut self, step: Step, taken: usize, left: usize) -> Result<Option<Step>, AllocError>
        requires is { step.action ≡ Action.Clear taken left }
        requires room { self.old.position + 1 < 2 ^ 64 }
        ensures watched { IsWatching result step self.old self.new }
    {
        make_release(
            self.alloc,
            &mut self.places,
            left,
            &self.threads,
            step.thread,
        )?;
        reset_clock(&mut self.places, taken);
        join_clock(&mut self.places, left, &self.threads, step.thread);
        self.position += 1;
        stamp_clock(&mut self.places, left, step.thread, self.position);
        Ok(None)
    }
}

fn access_of(step: Step, position: u64) -> Access
    ensures { result ≡ record { thread = step.thread; position = position; event = step.event } }
{
    Access {
        thread: step.thread,
        position,
        event: step.event,
    }
}

fn told_of(access: Option<Access>, action: Action) -> Option<Step>
    ensures { result ≡ option_map (step_with action) access }
{
    match access {
        Some(access) => Some(Step {
            thread: access.thread,
            event: access.event,
            action,
        }),
        None => None,
    }
}

fn told_first(first: Option<Step>, second: Option<Step>) -> Option<Step>
    ensures { result ≡ option_or first second }
{
    match first {
        Some(step) => Some(step),
        None => second,
    }
}

//! Actions of a run as steps of a detector of races: what they leave and find, and what they read and write, by number.
//!
//! # Proved
//!
//! - `Numbering::step` answers the step of an action, and whatever actions were numbered before, the steps of all race
//!   alike: two steps race exactly where their actions do (`Numbers`; `steps_race_alike`).
//! - Where memory is missing, the actions that were numbered before have the same numbers.
//!
//! # Not proved
//!
//! - That numbers are dense, which keeps the lists of a detector short: each is the place of a key in a list.
//!
//! # Wrong bodies
//!
//! - `numbering-volatile-is-forgotten`: a volatile variable is read as if it were none; refused by `IsNumbered`.
//! - `numbering-element-by-its-array-alone`, `numbering-field-by-its-object-alone`: two variables have one key; refused by
//!   `variable_key`.
//! - `numbering-unlock-of-another-monitor`, `numbering-join-finds-the-start`, `numbering-cleared-interrupt-stays`: an
//!   action leaves or finds something else than it does; refused by `IsNumbered`.

ghost use Rattle.std.specs.Prelude.{◌≡◌, []};
ghost use Rattle.race_places.specs.numbering.Numbers.{AreActionsAlike, IsAdded, IsFound, IsLeft, IsNumbered, IsRead, IsWritten, IsNumbering, IsPlaceNumber, Numbers, NumberingOf};
ghost use Rattle.race_places.specs.run_actions.Order.{key, variable_key};

use crate::run_actions::{Action, Key, RunAction, Variable};
use indexmap::IndexSet;
use race_detection::run_steps;
use race_detection::run_steps::Step;
use std::alloc::{AllocError, Global};
use std::marker::Model;

const INSTANCE_FIELD: u32 = 0;

const STATIC_FIELD: u32 = 1;

const ELEMENT: u32 = 2;

const MONITOR: u32 = 3;

const START: u32 = 4;

const END: u32 = 5;

const INTERRUPTS: u32 = 6;

const CLEARED: u32 = 7;

const WAKE: u32 = 8;

const INITIALISATION: u32 = 9;

fn key_of(kind: u32, first: u32, second: u32, third: u32) -> Key
    ensures { result ≡ key kind first second third }
{
    Key {
        kind,
        first,
        second,
        third,
    }
}

fn variable_key(variable: Variable) -> Key
    ensures { result ≡ variable_key variable }
{
    match variable {
        Variable::InstanceField {
            object,
            class,
            field,
        } => key_of(INSTANCE_FIELD, object, u32::from(class), u32::from(field)),
        Variable::StaticField { class, field } => {
            key_of(STATIC_FIELD, u32::from(class), u32::from(field), 0)
        }
        Variable::Element { array, index } => key_of(ELEMENT, array, index, 0),
    }
}

/// The number of a key, which is added where it has none.
fn number_of(keys: &mut IndexSet<Key>, key: Key) -> Result<usize, AllocError>
    ensures { IsAdded result key keys.old.keys keys.new.keys }
{
    match keys.insert_full(key) {
        Ok((number, _)) => Ok(number),
        Err(_) => Err(AllocError),
    }
}

/// Which places and variables have numbers.
#[derive(Drop)]
pub struct Numbering {
    places: IndexSet<Key>,
    variables: IndexSet<Key>,
}

impl Model for Numbering {
    ghost Value = { NumberingOf };

    ghost view = { λ n. record { places = n.places.keys; variables = n.variables.keys } };
}

impl Numbering {
    /// Nothing has a number.
    pub fn new(alloc: Global) -> Numbering
        ensures none { Numbers [] [] result }
    {
        Numbering {
            places: IndexSet::new(alloc),
            variables: IndexSet::new(alloc),
        }
    }

    fn found(&mut self, key: Key) -> Result<run_steps::Action, AllocError>
        ensures { IsFound result key self.old self.new }
    {
        Ok(run_steps::Action::Acquire(number_of(&mut self.places, key)?))
    }

    fn left(&mut self, key: Key) -> Result<run_steps::Action, AllocError>
        ensures { IsLeft result key self.old self.new }
    {
        Ok(run_steps::Action::Release(number_of(&mut self.places, key)?))
    }

    fn read_plain(&mut self, key: Key) -> Result<run_steps::Action, AllocError>
        ensures { IsRead result key self.old self.new }
    {
        Ok(run_steps::Action::Read(number_of(&mut self.variables, key)?))
    }

    fn written_plain(&mut self, key: Key) -> Result<run_steps::Action, AllocError>
        ensures { IsWritten result key self.old self.new }
    {
        Ok(run_steps::Action::Write(number_of(&mut self.variables, key)?))
    }

    /// A place of a thread or of a class is found.
    fn found_of(&mut self, kind: u32, number: u16) -> Result<run_steps::Action, AllocError>
        ensures { IsFound result (key kind number 0 0) self.old self.new }
    {
        self.found(key_of(kind, u32::from(number), 0, 0))
    }

    fn left_of(&mut self, kind: u32, number: u16) -> Result<run_steps::Action, AllocError>
        ensures { IsLeft result (key kind number 0 0) self.old self.new }
    {
        self.left(key_of(kind, u32::from(number), 0, 0))
    }

    fn read(
        &mut self,
        variable: Variable,
        is_volatile: bool,
    ) -> Result<run_steps::Action, AllocError>
        ensures { IsNumbered result (Action.Read variable is_volatile) self.old self.new }
    {
        let key = variable_key(variable);
        if is_volatile {
            self.found(key)
        } else {
            self.read_plain(key)
        }
    }

    fn write(
        &mut self,
        variable: Variable,
        is_volatile: bool,
    ) -> Result<run_steps::Action, AllocError>
        ensures { IsNumbered result (Action.Write variable is_volatile) self.old self.new }
    {
        let key = variable_key(variable);
        if is_volatile {
            self.left(key)
        } else {
            self.written_plain(key)
        }
    }

    /// The number of a place of a thread.
    fn place_of(&mut self, kind: u32, thread: u16) -> Result<usize, AllocError>
        ensures { IsPlaceNumber result (key kind thread 0 0) self.old self.new }
    {
        number_of(&mut self.places, key_of(kind, u32::from(thread), 0, 0))
    }

    fn clear(&mut self, thread: u16) -> Result<run_steps::Action, AllocError>
        ensures { IsNumbered result (Action.ClearInterrupt thread) self.old self.new }
    {
        let taken = self.place_of(INTERRUPTS, thread)?;
        let left = self.place_of(CLEARED, thread)?;
        Ok(run_steps::Action::Clear { taken, left })
    }

    fn action(&mut self, action: Action) -> Result<run_steps::Action, AllocError>
        ensures { IsNumbered result action self.old self.new }
    {
        match action {
            Action::Read {
                variable,
                is_volatile,
            } => self.read(variable, is_volatile),
            Action::Write {
                variable,
                is_volatile,
            } => self.write(variable, is_volatile),
            Action::Lock(object) => self.found(key_of(MONITOR, object, 0, 0)),
            Action::Unlock(object) => self.left(key_of(MONITOR, object, 0, 0)),
            Action::Begin(thread) => self.found_of(START, thread),
            Action::FindStarted(thread) => self.found_of(START, thread),
            Action::Start(thread) => self.left_of(START, thread),
            Action::Finish(thread) => self.left_of(END, thread),
            Action::FindFinished(thread) => self.found_of(END, thread),
            Action::Interrupt(thread) => self.left_of(INTERRUPTS, thread),
            Action::FindInterrupted(thread) => self.found_of(INTERRUPTS, thread),
            Action::ClearInterrupt(thread) => self.clear(thread),
            Action::FindNotInterrupted(thread) => self.found_of(CLEARED, thread),
            Action::Wake(thread) => self.left_of(WAKE, thread),
            Action::FindWoken(thread) => self.found_of(WAKE, thread),
            Action::FinishInitialisation(class) => self.left_of(INITIALISATION, class),
            Action::FindInitialised(class) => self.found_of(INITIALISATION, class),
        }
    }

    /// The step of the next action of a run. The only error is a want of memory.
    pub fn step(&mut self, action: RunAction) -> Result<Step, AllocError>
        ensures numbering { IsNumbering result action self.old self.new }
    {
        match self.action(action.action) {
            Ok(numbered) => Ok(step_of(action, numbered)),
            Err(fault) => Err(fault),
        }
    }
}

fn step_of(action: RunAction, numbered: run_steps::Action) -> Step
    ensures { result ≡ record { thread = action.thread; event = action.event; action = numbered } }
{
    Step {
        thread: usize::from(action.thread),
        event: action.event,
        action: numbered,
    }
}

/// Steps of actions race where the actions do.
pub fn steps_race_alike()
    ensures holds { AreActionsAlike }
{}

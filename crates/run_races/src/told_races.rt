//! Races that are told, each once.
//!
//! # Proved
//!
//! - `numbers_of`: the numbers of a variable. `add`: a race stands behind those that were told, unless it was told.
//!
//! # Wrong bodies
//!
//! - `told_races-element-by-its-array-alone`: two elements of one array have the same numbers; refused by `numbers_of`.

ghost use Rattle.std.specs.Prelude.{◌≡◌, OnOk, [], length, slice_get};
ghost use Rattle.run_races.specs.told_races.Adding.{AddsRace};
ghost use Rattle.run_races.specs.told_races.Variables.{numbers_of};

use indexmap::IndexSet;
use race_places::run_actions::Variable;
use std::alloc::{AllocError, Global};

/// A read or a write by a thread, and where its instruction stands: the number of its method, and its offset there.
#[derive(Clone, Copy, PartialEq, Eq, Hash)]
pub struct RaceAccess {
    pub thread: usize,
    pub is_write: bool,
    pub method: u64,
    pub offset: u16,
}

/// A variable by numbers: what it is, its object or array, and its class with its place there, or its index.
#[derive(Clone, Copy, PartialEq, Eq, Hash)]
pub struct RacedVariable {
    pub kind: u32,
    pub object: u32,
    pub class: u32,
    pub place: u32,
}

/// Two accesses of a variable that race (JLS 17.4.5), the earlier one first.
#[derive(Clone, Copy, PartialEq, Eq, Hash)]
pub struct Race {
    pub variable: RacedVariable,
    pub first: RaceAccess,
    pub second: RaceAccess,
}

pub const INSTANCE_FIELD: u32 = 0;

pub const STATIC_FIELD: u32 = 1;

pub const ELEMENT: u32 = 2;

/// The numbers of a variable.
pub fn numbers_of(variable: Variable) -> RacedVariable
    ensures { result ≡ numbers_of variable }
{
    match variable {
        Variable::InstanceField {
            object,
            class,
            field,
        } => RacedVariable {
            kind: INSTANCE_FIELD,
            object,
            class: u32::from(class),
            place: u32::from(field),
        },
        Variable::StaticField { class, field } => RacedVariable {
            kind: STATIC_FIELD,
            object: 0,
            class: u32::from(class),
            place: u32::from(field),
        },
        Variable::Element { array, index } => RacedVariable {
            kind: ELEMENT,
            object: array,
            class: 0,
            place: index,
        },
    }
}

/// The races that were told.
#[derive(Drop)]
pub struct ToldRaces {
    races: IndexSet<Race>,
}

impl ToldRaces {
    /// None was told.
    pub fn new(alloc: Global) -> ToldRaces
        ensures { result.races.keys ≡ [] }
    {
        ToldRaces {
            races: IndexSet::new(alloc),
        }
    }

    /// How many were told.
    pub fn len(&self) -> usize
        ensures { result ≡ length self.now.races.keys }
    {
        self.races.len()
    }

    /// One of those that were told, in the order of their second accesses.
    pub fn get(&self, place: usize) -> Option<Race>
        ensures { result ≡ slice_get self.now.races.keys place }
    {
        self.races.get_index(place).copied()
    }

    /// Tells a race, unless one of this variable was told by the same threads at the same places. The only error is a
    /// want of memory.
    pub fn add(&mut self, race: Race) -> Result<(), AllocError>
        ensures { OnOk result (AddsRace race self.old.races.keys self.new.races.keys) }
    {
        match self.races.insert_full(race) {
            Ok(_) => Ok(()),
            Err(_) => Err(AllocError),
        }
    }
}

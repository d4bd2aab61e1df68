//! The types of local variables as a search keeps them.

ghost use Rattle.std.specs.Prelude.{◌≡◌, slice_index_or, slice_set, replicate, OnOk, OnErr, IfOk, IfSome, IsTrue};
ghost use Rattle.types.specs.declared.verification_type.VerificationType.TheVariants as type;
ghost use Rattle.verifier.specs.Packed.{unpacked, locals_in};

use crate::run::{
    Run, are_same_runs, are_same_types, run_count, runs_of, runs_with, type_at, types_of,
};
use std::alloc::{AllocError, Global};
use types::VerificationType;

/// There are fewer runs than the part of all types of which this is the whole.
const TYPES_A_RUN: usize = 4;

/// Types of local variables.
#[derive(Drop)]
pub(crate) enum Locals {
    /// Few runs of them.
    Runs(Vec<Run>),
    /// One by one.
    Each(Vec<VerificationType>),
}

/// The types of runs, of which there are so many.
fn of_runs(alloc: Global, runs: Vec<Run>, count: usize) -> Result<Locals, AllocError>
    ensures { IfOk result (λ locals. locals_in locals ≡ unpacked runs.items) }
{
    if runs.len() > count / TYPES_A_RUN {
        return Ok(Locals::Each(types_of(alloc, &runs, count)?));
    }
    Ok(Locals::Runs(runs))
}

/// The local variables of these types.
pub(crate) fn locals_of(alloc: Global, types: Vec<VerificationType>) -> Result<Locals, AllocError>
    ensures { IfOk result (λ locals. locals_in locals ≡ types.items) }
{
    match run_count(&types, types.len() / TYPES_A_RUN) {
        Some(count) => Ok(Locals::Runs(runs_of(alloc, &types, count)?)),
        None => Ok(Locals::Each(types)),
    }
}

/// So many types, each of which is not usable.
pub(crate) fn unusable_locals(alloc: Global, count: usize) -> Result<Locals, AllocError>
    ensures { IfOk result (λ locals. locals_in locals ≡ replicate count type.Unusable) }
{
    let run = Run {
        of: VerificationType::Unusable,
        count,
    };
    Ok(Locals::Runs(Vec::from_slice(alloc, &[run])?))
}

impl Locals {
    /// The types, of which there are so many, one by one.
    pub fn types(&self, alloc: Global, count: usize) -> Result<Vec<VerificationType>, AllocError>
        ensures { IfOk result (λ types. types.items ≡ locals_in self.now) }
    {
        match self {
            Locals::Runs(runs) => types_of(alloc, runs, count),
            Locals::Each(types) => Vec::from_slice(alloc, types),
        }
    }

    /// The types, if they are kept one by one.
    pub fn each(&self) -> Option<&[VerificationType]>
        ensures { IfSome result (λ types. types.now ≡ locals_in self.now) }
    {
        match self {
            Locals::Runs(_) => None,
            Locals::Each(types) => Some(types.as_slice()),
        }
    }

    pub fn copy(&self, alloc: Global) -> Result<Locals, AllocError>
        ensures { IfOk result (λ copy. locals_in copy ≡ locals_in self.now) }
    {
        match self {
            Locals::Runs(runs) => Ok(Locals::Runs(Vec::from_slice(alloc, runs)?)),
            Locals::Each(types) => Ok(Locals::Each(Vec::from_slice(alloc, types)?)),
        }
    }

    /// The type of a local variable; where there is none, what is not usable.
    pub fn at(&self, local: usize) -> VerificationType
        ensures { result ≡ slice_index_or (locals_in self.now) local type.Unusable }
    {
        match self {
            Locals::Runs(runs) => type_at(runs, local),
            Locals::Each(types) => match types.get(local) {
                Some(t) => *t,
                None => VerificationType::Unusable,
            },
        }
    }

    /// Gives a local variable of so many another type.
    pub fn set(
        &mut self,
        alloc: Global,
        count: usize,
        local: usize,
        t: VerificationType,
    ) -> Result<(), AllocError>
        ensures set { OnOk result (locals_in self.new ≡ slice_set (locals_in self.old) local t) }
        ensures kept { OnErr result (self.new ≡ self.old) }
    {
        match self {
            Locals::Each(types) => {
                if let Some(place) = types.get_mut(local) {
                    *place = t;
                }
                Ok(())
            }
            Locals::Runs(runs) => {
                let made = runs_with(alloc, runs, local, t)?;
                *self = of_runs(alloc, made, count)?;
                Ok(())
            }
        }
    }

    /// Whether these are the same types, kept in the same way.
    pub fn is_same(&self, other: &Locals) -> bool
        ensures { IsTrue result → locals_in self.now ≡ locals_in other.now }
    {
        match (self, other) {
            (Locals::Runs(a), Locals::Runs(b)) => are_same_runs(a, b),
            (Locals::Each(a), Locals::Each(b)) => are_same_types(a, b),
            _ => false,
        }
    }
}

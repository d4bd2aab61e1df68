//! Runs of types: so many of one type, one after another.

ghost use Rattle.std.specs.Prelude.{◌≡◌, ◌<◌, ◌++◌, ◌∷◌, [], ◌-◌, replicate, slice_index_or, slice_set, true, false, OnOk, IfOk, IsTrue};
ghost use Rattle.types.specs.declared.verification_type.VerificationType.TheVariants as type;
ghost use Rattle.verifier.specs.Packed.{unpacked};

use std::alloc::{AllocError, Global};
use types::VerificationType;

/// So many types, each of which is this one.
#[derive(Clone, Copy)]
pub(crate) struct Run {
    pub(crate) of: VerificationType,
    pub(crate) count: usize,
}

/// Whether two types are the same, by place and all.
pub(crate) fn is_same_type(a: VerificationType, b: VerificationType) -> bool
    ensures { IsTrue result → a ≡ b }
{
    a == b
}

fn is_same_run(a: Run, b: Run) -> bool
    ensures { IsTrue result → a ≡ b }
{
    a.count == b.count && is_same_type(a.of, b.of)
}

/// Whether these are the same types, one by one.
pub(crate) fn are_same_types(a: &[VerificationType], b: &[VerificationType]) -> bool
    ensures { IsTrue result → a.now ≡ b.now }
{
    if a.len() != b.len() {
        return false;
    }
    for i in 0..a.len() {
        if !is_same_type(a[i], b[i]) {
            return false;
        }
    }
    true
}

/// Whether these are the same runs, one by one.
pub(crate) fn are_same_runs(a: &[Run], b: &[Run]) -> bool
    ensures { IsTrue result → a.now ≡ b.now }
{
    if a.len() != b.len() {
        return false;
    }
    for i in 0..a.len() {
        if !is_same_run(a[i], b[i]) {
            return false;
        }
    }
    true
}

/// How many runs there are of types, if they are at most so many.
pub(crate) fn run_count(types: &[VerificationType], most: usize) -> Option<usize> {
    let mut count: usize = 0;
    for i in 0..types.len() {
        if i == 0 || !is_same_type(types[i], types[i - 1]) {
            if count >= most {
                return None;
            }
            count += 1;
        }
    }
    Some(count)
}

/// The runs of types, of which there are so many.
pub(crate) fn runs_of(
    alloc: Global,
    types: &[VerificationType],
    count: usize,
) -> Result<Vec<Run>, AllocError>
    ensures { IfOk result (λ runs. unpacked runs.items ≡ types.now) }
{
    let mut runs = Vec::with_capacity(alloc, count)?;
    let mut begin: usize = 0;
    'types: for i in 0..types.len() {
        if !is_same_type(types[i], types[begin]) {
            runs.push(Run {
                of: types[begin],
                count: i - begin,
            })?;
            begin = i;
        }
    }
    if begin < types.len() {
        runs.push(Run {
            of: types[begin],
            count: types.len() - begin,
        })?;
    }
    Ok(runs)
}

/// The types of runs, of which there are so many.
pub(crate) fn types_of(
    alloc: Global,
    runs: &[Run],
    count: usize,
) -> Result<Vec<VerificationType>, AllocError>
    ensures { IfOk result (λ types. types.items ≡ unpacked runs.now) }
{
    let mut types = Vec::with_capacity(alloc, count)?;
    'runs: for run in runs {
        add_run(&mut types, *run)?;
    }
    Ok(types)
}

/// The type at a place of runs; past their end what is not usable.
pub(crate) fn type_at(runs: &[Run], place: usize) -> VerificationType
    ensures { result ≡ slice_index_or (unpacked runs.now) place type.Unusable }
{
    let mut left = place;
    'runs: for run in runs {
        if left < run.count {
            return run.of;
        }
        left -= run.count;
    }
    VerificationType::Unusable
}

/// Adds the types of a run.
fn add_run(types: &mut Vec<VerificationType>, run: Run) -> Result<(), AllocError>
    ensures { OnOk result (types.new.items ≡ types.old.items ++ replicate run.count run.of) }
{
    let room = types.len().saturating_add(run.count);
    types.resize(room, run.of)
}

/// Adds the types of a run to the last run, where they are of its type.
fn extend_last(runs: &mut [Run], run: Run) -> bool
    ensures added { result ≡ true → unpacked runs.new ≡ unpacked runs.old ++ replicate run.count run.of }
    ensures same { result ≡ false → runs.new ≡ runs.old }
{
    let Some(last) = runs.last_mut() else {
        return false;
    };
    if !is_same_type(last.of, run.of) {
        return false;
    }
    let Some(count) = last.count.checked_add(run.count) else {
        return false;
    };
    last.count = count;
    true
}

/// Adds a run, but none of no types.
fn push_run(runs: &mut Vec<Run>, run: Run) -> Result<(), AllocError>
    ensures { OnOk result (unpacked runs.new.items ≡ unpacked runs.old.items ++ replicate run.count run.of) }
{
    if run.count == 0 || extend_last(runs, run) {
        return Ok(());
    }
    runs.push(run)?;
    Ok(())
}

/// Adds a run in which one type is another one.
fn push_with(
    runs: &mut Vec<Run>,
    run: Run,
    place: usize,
    of: VerificationType,
) -> Result<(), AllocError>
    requires { place < run.count }
    ensures { OnOk result (unpacked runs.new.items
        ≡ unpacked runs.old.items ++ slice_set (replicate run.count run.of) place of) }
{
    push_run(
        runs,
        Run {
            of: run.of,
            count: place,
        },
    )?;
    push_run(runs, Run { of, count: 1 })?;
    push_run(
        runs,
        Run {
            of: run.of,
            count: run.count - place - 1,
        },
    )?;
    Ok(())
}

/// The runs with another type at a place; past their end they are the same.
pub(crate) fn runs_with(
    alloc: Global,
    runs: &[Run],
    place: usize,
    of: VerificationType,
) -> Result<Vec<Run>, AllocError>
    ensures { IfOk result (λ made. unpacked made.items ≡ slice_set (unpacked runs.now) place of) }
{
    let mut made = Vec::with_capacity(alloc, runs.len())?;
    let mut left = Some(place);
    'runs: for run in runs {
        match left {
            None => push_run(&mut made, *run)?,
            Some(place) => {
                if place < run.count {
                    push_with(&mut made, *run, place, of)?;
                    left = None;
                } else {
                    push_run(&mut made, *run)?;
                    left = Some(place - run.count);
                }
            }
        }
    }
    Ok(made)
}

//! What threads share beside objects, as rows of words.

ghost use Rattle.std.specs.Prelude.{◌≡◌, ◌++◌, OnOk, IfOk, IsTrue};
ghost use Rattle.kept_states.specs.Rows.{status_code, statuses_row};

use kept_parts::rows::push;
use machine_state::ClassStatus;
use std::alloc::{AllocError, Global};

fn status_code(status: ClassStatus) -> u32
    ensures { result ≡ status_code status }
{
    match status {
        ClassStatus::NotInitialised => 0,
        ClassStatus::Initialised => 1,
        ClassStatus::Erroneous => 2,
        ClassStatus::InProgress(thread) => u32::from(thread) + 3,
    }
}

fn status_of(word: u32) -> Result<ClassStatus, AllocError>
    ensures { IfOk result (λ status. word ≡ status_code status) }
{
    match word {
        0 => Ok(ClassStatus::NotInitialised),
        1 => Ok(ClassStatus::Initialised),
        2 => Ok(ClassStatus::Erroneous),
        _ => match u16::try_from(word - 3) {
            Ok(thread) => Ok(ClassStatus::InProgress(thread)),
            Err(_) => Err(AllocError),
        },
    }
}

/// How far classes are.
pub(crate) fn push_statuses(row: &mut Vec<u32>, statuses: &[ClassStatus]) -> Result<(), AllocError>
    ensures { OnOk result (row.new.items ≡ row.old.items ++ statuses_row statuses.now) }
{
    'statuses: for status in statuses {
        push(row, status_code(*status))?;
    }
    Ok(())
}

pub(crate) fn read_statuses(alloc: Global, row: &[u32]) -> Result<Vec<ClassStatus>, AllocError>
    ensures { IfOk result (λ statuses. row.now ≡ statuses_row statuses.items) }
{
    let mut statuses = Vec::with_capacity(alloc, row.len())?;
    'words: for word in row {
        statuses.push(status_of(*word)?)?;
    }
    Ok(statuses)
}

/// UTF-16 units, a word each.
pub(crate) fn push_units(row: &mut Vec<u32>, units: &[u16]) -> Result<(), AllocError>
    ensures { OnOk result (row.new.items ≡ row.old.items ++ units.now) }
{
    'units: for unit in units {
        push(row, u32::from(*unit))?;
    }
    Ok(())
}

/// The unit of a word. An error where it is none.
fn unit_of(word: u32) -> Result<u16, AllocError>
    ensures { IfOk result (λ unit. unit ≡ word) }
{
    match u16::try_from(word) {
        Ok(unit) => Ok(unit),
        Err(_) => Err(AllocError),
    }
}

pub(crate) fn read_units(alloc: Global, row: &[u32]) -> Result<Vec<u16>, AllocError>
    ensures { IfOk result (λ units. units.items ≡ row.now) }
{
    let mut units = Vec::with_capacity(alloc, row.len())?;
    'words: for word in row {
        units.push(unit_of(*word)?)?;
    }
    Ok(units)
}

pub(crate) fn are_same_words(one: &[u32], other: &[u32]) -> bool
    ensures { IsTrue result → one.now ≡ other.now }
{
    one == other
}

fn is_same_status(one: ClassStatus, other: ClassStatus) -> bool
    ensures { IsTrue result → one ≡ other }
{
    one == other
}

pub(crate) fn are_same_statuses(one: &[ClassStatus], other: &[ClassStatus]) -> bool
    ensures { IsTrue result → one.now ≡ other.now }
{
    let count = one.len();
    if other.len() != count {
        return false;
    }
    'statuses: for place in 0..count {
        if !is_same_status(one[place], other[place]) {
            return false;
        }
    }
    true
}

pub(crate) fn are_same_flags(one: &[bool], other: &[bool]) -> bool
    ensures { IsTrue result → one.now ≡ other.now }
{
    one == other
}

pub(crate) fn are_same_units(one: &[u16], other: &[u16]) -> bool
    ensures { IsTrue result → one.now ≡ other.now }
{
    one == other
}

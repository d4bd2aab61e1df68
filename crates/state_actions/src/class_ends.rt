//! Classes that are done: initialised, or erroneous (JVMS 5.5; JLS 12.4.2).
//!
//! # Proved
//!
//! - `is_finished`: whether the class of a number is done, in each world that the machine shows.
//! - `found_class`: the action by which an event finds the class that it needs first, if that is done; by names of
//!   classes that are right, that of the definitions (`found_class`).
//! - `finished_class`: the action by which an event ends the initialisation of a class, by whether that was done
//!   before; it is that of the definitions (`finished_classes`) where the event ends no other class's.
//!
//! # Not proved
//!
//! - That an event ends the initialisation of the class on top alone is a theorem of `event_changes`.

ghost use Rattle.std.specs.Prelude.{◌≡◌, Some, slice_get, unwrap_or};
ghost use Rattle.machine_state.specs.declared.state.ClassStatus.{ClassStatus};
ghost use Rattle.machine_state.specs.class_initialisation.Statuses.{IsFileOf, IsStatus};
ghost use Rattle.machine_state.specs.Shown.{shown_status};
ghost use Rattle.data_races.specs.EventActions as named;
ghost use Rattle.state_actions.specs.class_ends.Classes.{FindsClass, FinishesClass, IsFinished};

use machine_state::{ClassStatus, Shared};
use model::BUILT_IN_CLASSES;
use race_places::run_actions::Action;

/// The place of a class among the classes of the files, unless it is built in.
fn file_of(class: u16) -> Option<usize>
    ensures { IsFileOf class result }
{
    usize::from(class).checked_sub(BUILT_IN_CLASSES)
}

/// How far the class of a file is.
fn status_at(shared: &Shared, file: usize) -> ClassStatus
    ensures { result ≡ unwrap_or (slice_get shared.now.statuses.items file) ClassStatus.Initialised }
{
    shared
        .statuses
        .get(file)
        .copied()
        .unwrap_or(ClassStatus::Initialised)
}

/// How far the class of a number is. Built-in classes are always initialised.
fn class_status(shared: &Shared, class: u16) -> ClassStatus
    ensures { IsStatus shared.now class result }
{
    match file_of(class) {
        None => ClassStatus::Initialised,
        Some(file) => status_at(shared, file),
    }
}

/// Whether a class of a status is initialised or erroneous.
fn is_finished_by(status: ClassStatus) -> bool
    ensures { result ≡ named.is_finished (shown_status status) }
{
    match status {
        ClassStatus::NotInitialised => false,
        ClassStatus::InProgress(_) => false,
        ClassStatus::Initialised => true,
        ClassStatus::Erroneous => true,
    }
}

/// Whether the class of a number is initialised or erroneous.
pub fn is_finished(shared: &Shared, class: u16) -> bool
    ensures { IsFinished shared.now class result }
{
    is_finished_by(class_status(shared, class))
}

/// By which action an event finds the class of a number.
fn finding(shared: &Shared, class: u16) -> Option<Action>
    ensures { FindsClass shared.now (Some class) result }
{
    if is_finished(shared, class) {
        Some(Action::FindInitialised(class))
    } else {
        None
    }
}

/// By which action an event finds a class that it needs first, before the event.
pub fn found_class(shared: &Shared, class: Option<u16>) -> Option<Action>
    ensures { FindsClass shared.now class result }
{
    match class {
        Some(class) => finding(shared, class),
        None => None,
    }
}

/// By which action an event ended the initialisation of the class of a number.
fn finishing(shared: &Shared, class: u16, was_finished: bool) -> Option<Action>
    ensures { FinishesClass shared.now (Some class) was_finished result }
{
    if was_finished {
        return None;
    }
    if is_finished(shared, class) {
        Some(Action::FinishInitialisation(class))
    } else {
        None
    }
}

/// By which action an event ended the initialisation of a class, by whether the class was done before it.
pub fn finished_class(shared: &Shared, class: Option<u16>, was_finished: bool) -> Option<Action>
    ensures { FinishesClass shared.now class was_finished result }
{
    match class {
        Some(class) => finishing(shared, class, was_finished),
        None => None,
    }
}

//! Who holds what an event needs (JLS 17.1; JVMS 5.5).
//!
//! # Proved
//!
//! - `holder`: in each state that is shown, the thread that owns the monitor or initialises the class, or none
//!   (`IsHolder`).
//!
//! # Wrong bodies
//!
//! - `holders-initialised`: a class that is initialised is held by the main thread; refused by `initiator_by`.

ghost use Rattle.std.specs.Prelude.{◌≡◌, unwrap_or, slice_get};
ghost use Rattle.model.specs.Monitors.{monitor_at};
ghost use Rattle.machine_state.specs.class_initialisation.Statuses.{IsFileOf, IsStatus};
ghost use Rattle.machine_state.specs.Shown.{shown_status};
ghost use Rattle.waiting_circles.specs.Holders.{initiator_in, IsInitiator, IsHolder};

use crate::needs::Need;
use heap::Heap;
use machine_state::{ClassStatus, Shared};
use model::BUILT_IN_CLASSES;

/// The thread that owns the monitor of an object, if there is such an object.
fn owner_of(heap: &Heap, object: u32) -> Option<u16>
    ensures { result ≡ (monitor_at heap.now.locks.monitors object).owner }
{
    if object < heap.len() {
        heap.owner(object)
    } else {
        None
    }
}

/// The place of a class among those of the files, unless it is built in. Built-in classes are always initialised.
fn file_of(class: u16) -> Option<usize>
    ensures { IsFileOf class result }
{
    (class as usize).checked_sub(BUILT_IN_CLASSES)
}

/// How far the class of a file is.
fn status_at(shared: &Shared, file: usize) -> ClassStatus
    ensures { result ≡ unwrap_or (slice_get shared.now.statuses.items file) ClassStatus.Initialised }
{
    shared
        .statuses
        .get(file)
        .copied()
        .unwrap_or(ClassStatus::Initialised)
}

/// How far the class of a number is.
fn status_of(shared: &Shared, class: u16) -> ClassStatus
    ensures { IsStatus shared.now class result }
{
    match file_of(class) {
        None => ClassStatus::Initialised,
        Some(file) => status_at(shared, file),
    }
}

/// The thread that initialises a class of a status.
fn initiator_by(status: ClassStatus) -> Option<u16>
    ensures { result ≡ initiator_in (shown_status status) }
{
    match status {
        ClassStatus::InProgress(by) => Some(by),
        ClassStatus::NotInitialised => None,
        ClassStatus::Initialised => None,
        ClassStatus::Erroneous => None,
    }
}

/// The thread that initialises a class, by the class's number.
fn initiator_of(shared: &Shared, class: u16) -> Option<u16>
    ensures { IsInitiator shared.now class result }
{
    initiator_by(status_of(shared, class))
}

/// The thread that holds what is needed, if one does.
pub fn holder(shared: &Shared, need: Need) -> Option<u16>
    ensures { IsHolder shared.now need result }
{
    match need {
        Need::Monitor(object) => owner_of(&shared.heap, object),
        Need::Class(class) => initiator_of(shared, class),
    }
}

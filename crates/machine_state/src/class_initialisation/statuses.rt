//! How far classes are.

ghost use Rattle.std.specs.Prelude.{◌≡◌, false, slice_get, slice_set, unwrap_or};
ghost use Rattle.machine_state.specs.declared.state.ClassStatus.{ClassStatus};
ghost use Rattle.machine_state.specs.Shown.{is_initialised, shown_status};
ghost use Rattle.machine_state.specs.class_initialisation.Statuses.{IsFileOf, IsStatus, IsLook, IsStatusSet, shown_look};
ghost use Rattle.model.specs.ClassInitialisation.{look_by};

use crate::{ClassStatus, Shared};
use model::BUILT_IN_CLASSES;

/// How a thread finds a class that must be initialised.
#[derive(Clone, Copy)]
pub enum ClassLook {
    /// The class is initialised, or the thread itself is at it.
    Ready,
    New,
    /// Another thread is at it.
    Held,
    Failed,
}

/// Its place among the classes of the files, unless it is built in. Built-in classes are always initialised.
fn file_of(class: u16) -> Option<usize>
    ensures { IsFileOf class result }
{
    (class as usize).checked_sub(BUILT_IN_CLASSES)
}

/// How far the class of a file is.
fn status_at(shared: &Shared, file: usize) -> ClassStatus
    ensures { result ≡ unwrap_or (slice_get shared.now.statuses.items file) ClassStatus.Initialised }
{
    shared
        .statuses
        .get(file)
        .copied()
        .unwrap_or(ClassStatus::Initialised)
}

/// How far the class of a number is.
fn status_of(shared: &Shared, class: u16) -> ClassStatus
    ensures { IsStatus shared.now class result }
{
    match file_of(class) {
        None => ClassStatus::Initialised,
        Some(file) => status_at(shared, file),
    }
}

/// Whether the class of a number is known to be initialised.
fn is_ready(shared: &Shared, class: u16) -> bool
    ensures { result ≡ unwrap_or (slice_get shared.now.ready.items class) false }
{
    shared.ready.get(class as usize).copied().unwrap_or(false)
}

/// How a thread finds a class of a status.
fn look_by(thread: u16, status: ClassStatus) -> ClassLook
    ensures { shown_look result ≡ look_by thread (shown_status status) }
{
    match status {
        ClassStatus::NotInitialised => ClassLook::New,
        ClassStatus::InProgress(by) if by == thread => ClassLook::Ready,
        ClassStatus::InProgress(_) => ClassLook::Held,
        ClassStatus::Initialised => ClassLook::Ready,
        ClassStatus::Erroneous => ClassLook::Failed,
    }
}

/// How a thread finds the class of a number.
pub fn look(shared: &Shared, thread: u16, class: u16) -> ClassLook
    ensures { IsLook shared.now thread class result }
{
    if is_ready(shared, class) {
        ClassLook::Ready
    } else {
        look_by(thread, status_of(shared, class))
    }
}

fn is_initialised(status: ClassStatus) -> bool
    ensures { result ≡ is_initialised (shown_status status) }
{
    matches!(status, ClassStatus::Initialised)
}

/// Puts a status in a place, if there is one.
fn put_status(statuses: &mut Vec<ClassStatus>, place: usize, status: ClassStatus)
    ensures { statuses.new.items ≡ slice_set statuses.old.items place status }
{
    if let Some(old) = statuses.get_mut(place) {
        *old = status;
    }
}

/// Puts a flag in a place, if there is one.
fn put_flag(flags: &mut Vec<bool>, place: usize, flag: bool)
    ensures { flags.new.items ≡ slice_set flags.old.items place flag }
{
    if let Some(old) = flags.get_mut(place) {
        *old = flag;
    }
}

/// Sets how far the class of a number is. A built-in class stays initialised.
pub(crate) fn set_status(shared: &mut Shared, class: u16, status: ClassStatus)
    ensures kept { shared.new ≡ record shared.old { statuses = shared.new.statuses; ready = shared.new.ready } }
    ensures set { IsStatusSet class status shared.old shared.new }
{
    if let Some(file) = file_of(class) {
        put_status(&mut shared.statuses, file, status);
        put_flag(&mut shared.ready, class as usize, is_initialised(status));
    }
}

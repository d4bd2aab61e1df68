//! How far the classes are before any event.

ghost use Rattle.std.specs.Prelude.{◌≡◌, ◌-◌, ◌≤◌, ◌++◌, true, false, length, replicate, IfOk};
ghost use Rattle.machine_state.specs.declared.state.ClassStatus.{ClassStatus};

use linked_code::LinkedProgram;
use machine_state::ClassStatus;
use model::BUILT_IN_CLASSES;
use std::alloc::{AllocError, Global};

/// No class of a file is initialised.
pub(crate) fn opening_statuses(
    alloc: Global,
    program: &LinkedProgram,
) -> Result<Vec<ClassStatus>, AllocError>
    requires { BUILT_IN_CLASSES ≤ length program.now.classes.items }
    ensures { IfOk result (λ statuses.
        statuses.items ≡ replicate (length program.now.classes.items - BUILT_IN_CLASSES) ClassStatus.NotInitialised) }
{
    let mut statuses = Vec::new(alloc);
    statuses.resize(
        program.classes.len() - BUILT_IN_CLASSES,
        ClassStatus::NotInitialised,
    )?;
    Ok(statuses)
}

/// The built-in classes are ready from the start, and no others.
pub(crate) fn opening_ready(alloc: Global, program: &LinkedProgram) -> Result<Vec<bool>, AllocError>
    requires { BUILT_IN_CLASSES ≤ length program.now.classes.items }
    ensures { IfOk result (λ ready.
        ready.items ≡ replicate BUILT_IN_CLASSES true
        ++ replicate (length program.now.classes.items - BUILT_IN_CLASSES) false) }
{
    let mut ready = Vec::new(alloc);
    ready.resize(BUILT_IN_CLASSES, true)?;
    ready.resize(program.classes.len(), false)?;
    Ok(ready)
}

//! Why each event keeps the types of a well-typed state: the lemmas in `proofs/`, for a crate above to cite.
//!
//! # Proved
//!
//! - The opening state of a program is well typed (`opening_is_typed`).
//! - In `proofs/typed_runs/`, in the order in which they rest on one another: what an event may do to the world and the
//!   threads (`Changes`, `WorldChanges`, `WaitChanges`), what each instruction brings about (`Instructed`, `BuiltIns`),
//!   and what that makes of the thread (`Stepped`, `Events`, `Settled`).

ghost use Rattle.model.specs.Classes.{Program};
ghost use Rattle.run_laws.specs.typed_runs.Opened.{IsOpenedTyped};

/// The opening state of a program is well typed.
pub fn opening_is_typed()
    ensures holds { (files : Program) → IsOpenedTyped files }
{}

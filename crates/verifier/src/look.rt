//! Instructions that were looked at. While the frame type before one changes in few local variables with which it has
//! nothing to do, these alone are merged into where it leads.

ghost use Rattle.std.specs.Prelude.{◌≡◌, ◌==◌, ℕ, false, OnOk, IfOk, IfSome};
ghost use Rattle.verifier.specs.Agreeing.{is_among};

use std::alloc::AllocError;

/// How many local variables may have changed at most.
const MOST_CHANGES: usize = 8;

/// An instruction as it was looked at last, when all was merged to which it led.
#[derive(Drop)]
pub(crate) struct Look {
    /// The offsets to which it led, its handlers aside.
    pub targets: Vec<usize>,
    /// The local variables that may hold another type before it by now.
    pub changed: Vec<usize>,
}

/// Whether a local variable is among some.
pub(crate) fn is_among(locals: &[usize], local: usize) -> bool
    ensures { result ≡ is_among locals.now local }
{
    locals.iter().any(|other| *other == local)
}

/// Adds local variables to those that changed, each once.
fn add_all(changed: &mut Vec<usize>, locals: &[usize]) -> Result<(), AllocError>
    ensures { OnOk result ((k : ℕ) → is_among changed.new.items k ≡ false
        → (is_among changed.old.items k ≡ false) × (is_among locals.now k ≡ false)) }
{
    'locals: for local in locals {
        if !is_among(changed, *local) {
            changed.push(*local)?;
        }
    }
    Ok(())
}

/// The look after local variables changed, unless they are too many.
pub(crate) fn look_after(look: Look, locals: &[usize]) -> Result<Option<Look>, AllocError>
    ensures targets { IfOk result (λ o. IfSome o (λ after. after.targets.items ≡ look.targets.items)) }
    ensures changed { IfOk result (λ o. IfSome o (λ after. (k : ℕ) → is_among after.changed.items k ≡ false
        → (is_among look.changed.items k ≡ false) × (is_among locals.now k ≡ false))) }
{
    let mut look = look;
    add_all(&mut look.changed, locals)?;
    if look.changed.len() > MOST_CHANGES {
        return Ok(None);
    }
    Ok(Some(look))
}

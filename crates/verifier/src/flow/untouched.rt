//! The local variables with which an instruction has nothing to do.

ghost use Rattle.std.specs.Prelude.{◌≡◌};
ghost use Rattle.types.specs.method_code.Site.{site_of};
ghost use Rattle.verifier.specs.flow.Untouched.{leaves};

use crate::flow_effects::names_constructor;
use crate::look::is_among;
use model::{Instr, Invocation};
use types::method_code::Site;

/// Whether the instruction of a site neither reads nor writes any of these local variables.
pub(crate) fn leaves(site: &Site<'_>, locals: &[usize]) -> bool
    ensures { result ≡ leaves (site_of site.now) locals.now }
{
    match site.instr {
        Instr::Load { local, .. } => !is_among(locals, usize::from(local)),
        Instr::Store { local, .. } => !is_among(locals, usize::from(local)),
        Instr::Increment { local, .. } => !is_among(locals, usize::from(local)),
        Instr::New { .. } => false,
        Instr::Invoke {
            invocation: Invocation::Special,
            index,
        } => !names_constructor(site, index),
        _ => true,
    }
}

//! What is asked of an instruction beyond its operands.

ghost use Rattle.std.specs.Prelude.{◌≡◌};
ghost use Rattle.std.specs.List.{list_any};
ghost use Rattle.model.specs.InitialisedTypes.{is_made_at};
ghost use Rattle.model.specs.Typing.{may_stand};
ghost use Rattle.types.specs.View.{type_in, frame_in};
ghost use Rattle.types.specs.method_code.View.{files_of};
ghost use Rattle.types.specs.method_code.Site.{site_of};

use model::Instr;
use types::method_code::Site;
use types::{FrameType, VerificationType};

/// Whether a type is that of what the instruction made before.
fn is_made_here(site: &Site<'_>, t: VerificationType) -> bool
    ensures { result ≡ is_made_at site.now.offset (type_in (files_of site.now.method) t) }
{
    match t {
        VerificationType::Uninitialised { offset, .. } => offset == site.offset,
        _ => false,
    }
}

fn is_among(site: &Site<'_>, types: &[VerificationType]) -> bool
    ensures { result ≡ list_any (λ t. is_made_at site.now.offset (type_in (files_of site.now.method) t)) types.now }
{
    types.iter().any(|t| is_made_here(site, *t))
}

/// Whether the instruction may find a frame type, its operands aside (JVMS 4.10.1.9): `new` finds nothing on the
/// stack that it itself made before, and a constructor returns only once a constructor was called on `this`.
pub(crate) fn may_stand(site: &Site<'_>, frame: &FrameType) -> bool
    ensures { result ≡ may_stand (site_of site.now) (frame_in (files_of site.now.method) frame.now) site.now.instr }
{
    match site.instr {
        Instr::New { .. } => !is_among(site, &frame.stack),
        Instr::Return(_) => !site.method.is_constructor() || frame.constructed,
        _ => true,
    }
}

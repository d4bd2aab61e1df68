//! Where the instruction at an offset leads.

ghost use Rattle.std.specs.Prelude.{◌≡◌, ◌<◌, ◌^◌, map, option_map, Some, true, IfSome, OnOk, IfOk, IsTrue};
ghost use Rattle.model.specs.InstructionStarts.{is_start};
ghost use Rattle.model.specs.Sites.{Site as ModelSite, site_at};
ghost use Rattle.model.specs.Typing.{flow};
ghost use Rattle.types.specs.View.{frame_in};
ghost use Rattle.types.specs.method_code.Linked.{IsLinked};
ghost use Rattle.types.specs.method_code.View.{files_of, member_of, body_of};
ghost use Rattle.types.specs.method_code.Site.{site_of};
ghost use Rattle.verifier.specs.flow.Handlers.{AreHandlers};
ghost use Rattle.verifier.specs.flow.Leads.{lead_in, LeadOn};
ghost use Rattle.verifier.specs.flow.Meanings.{AreMeanings};
ghost use Rattle.verifier.specs.flow.Untouched.{leaves};

use crate::flow::handler::Handler;
use crate::flow::lead::{Lead, add_handlers, leads_on};
use crate::flow::meanings::Meanings;
use crate::flow::stand::may_stand;
use crate::flow::successors::successors;
use crate::flow::untouched::leaves;
use opcodes::sized_at;
use std::alloc::{AllocError, Global};
use types::FrameType;
use types::method_code::{MethodCode, Site};

/// The instruction at an offset, if one begins there.
fn site_at<'a>(method: &MethodCode<'a>, offset: u16) -> Option<Site<'a>>
    ensures value { option_map site_of result ≡ site_at (member_of method.now) (body_of method.now) offset }
    ensures method { IfSome result (λ site. site.method ≡ method.now) }
{
    let Some((instr, length)) = sized_at(&method.code.code, offset as usize) else {
        return None;
    };
    Some(Site {
        method: *method,
        offset,
        instr,
        next: offset as usize + length,
    })
}

/// Whether the instruction at an offset neither reads nor writes any of these local variables.
///
/// The offset, in bytes from the code's start, is an instruction boundary.
pub(crate) fn leaves_at(method: &MethodCode<'_>, offset: usize, locals: &[usize]) -> bool
    requires start { IsTrue (is_start (body_of method.now).code.code offset) }
    ensures { IsTrue result → (site : ModelSite)
        → site_at (member_of method.now) (body_of method.now) offset ≡ Some site
        → leaves site locals.now ≡ true }
{
    match site_at(method, offset as u16) {
        Some(site) => leaves(&site, locals),
        None => false,
    }
}

/// Where the instruction at an offset leads from a frame type, its handlers included; `None` where no instruction
/// begins there, or where it must not find this frame type (JVMS 4.10.1.9). The frame type becomes the one after the
/// instruction, and with no answer it is any.
///
/// The offset, in bytes from the code's start, is an instruction boundary, and handlers and meanings are the method's
/// own.
pub fn flow_at(
    alloc: Global,
    method: &MethodCode<'_>,
    handlers: &[Handler],
    meanings: &mut Meanings,
    offset: usize,
    frame: &mut FrameType,
) -> Result<Option<Vec<Lead>>, AllocError>
    requires linked { IsLinked (files_of method.now) }
    requires handlers { AreHandlers method.now handlers.now }
    requires start { IsTrue (is_start (body_of method.now).code.code offset) }
    requires meanings { AreMeanings method.now meanings.old }
    ensures meanings { OnOk result (AreMeanings method.now meanings.new) }
    ensures flow { IfOk result (λ o. option_map (λ v. map (lead_in (files_of method.now) frame.old frame.new) v.items) o
        ≡ flow (files_of method.now) (member_of method.now) (body_of method.now) offset
        (frame_in (files_of method.now) frame.old)) }
    ensures handlers { IfOk result (λ o. IfSome o (λ v. LeadOn offset handlers.now v.items)) }
{
    let Some(site) = site_at(method, offset as u16) else {
        return Ok(None);
    };
    if !may_stand(&site, frame) {
        return Ok(None);
    }
    let found = successors(alloc, &site, meanings, frame)?;
    let Some(targets) = found else {
        return Ok(None);
    };
    let mut leads = leads_on(alloc, &targets)?;
    add_handlers(&mut leads, handlers, offset)?;
    Ok(Some(leads))
}

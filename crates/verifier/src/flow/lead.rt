//! Where an instruction leads.

ghost use Rattle.std.specs.Prelude.{◌≡◌, ◌++◌, ◌∷◌, [], map, OnOk, IfOk, IfSome};
ghost use Rattle.verifier.specs.flow.Leads.{lead_on, handler_leads, all_leads, targets_in, has_handlers};

use crate::flow::handler::Handler;
use std::alloc::{AllocError, Global};

/// An offset to which an instruction leads, in bytes from the code's start. The frame type there is the one after the
/// instruction; at a handler it is the one before it, with what is caught alone on the operand stack.
#[derive(Clone, Copy)]
pub struct Lead {
    pub offset: usize,
    /// The handler, where the lead is to one.
    pub handler: Option<Handler>,
}

/// To each of these offsets, with the frame type after the instruction.
pub(crate) fn leads_on(alloc: Global, targets: &[usize]) -> Result<Vec<Lead>, AllocError>
    ensures { IfOk result (λ v. v.items ≡ map lead_on targets.now) }
{
    let mut leads = Vec::with_capacity(alloc, targets.len())?;
    'targets: for target in targets {
        leads.push(Lead {
            offset: *target,
            handler: None,
        })?;
    }
    Ok(leads)
}

/// Adds those to the handlers whose range an offset lies in, in their order.
pub(crate) fn add_handlers(
    leads: &mut Vec<Lead>,
    handlers: &[Handler],
    offset: usize,
) -> Result<(), AllocError>
    ensures { OnOk result (leads.new.items ≡ leads.old.items ++ handler_leads offset handlers.now) }
{
    'handlers: for handler in handlers {
        if handler.covers(offset) {
            leads.push(Lead {
                offset: handler.entry.handler as usize,
                handler: Some(*handler),
            })?;
        }
    }
    Ok(())
}

/// To these offsets, and then to the handlers whose range an offset lies in, in their order.
pub(crate) fn all_leads(
    alloc: Global,
    handlers: &[Handler],
    offset: usize,
    targets: &[usize],
) -> Result<Vec<Lead>, AllocError>
    ensures { IfOk result (λ v. v.items ≡ all_leads offset handlers.now targets.now) }
{
    let mut leads = leads_on(alloc, targets)?;
    add_handlers(&mut leads, handlers, offset)?;
    Ok(leads)
}

/// The offsets of those leads that are to no handler.
pub(crate) fn targets_of(alloc: Global, leads: &[Lead]) -> Result<Vec<usize>, AllocError>
    ensures { IfOk result (λ v. v.items ≡ targets_in leads.now) }
{
    let mut targets = Vec::new(alloc);
    'leads: for lead in leads {
        if lead.handler.is_none() {
            targets.push(lead.offset)?;
        }
    }
    Ok(targets)
}

/// Whether some of those are to handlers.
pub(crate) fn has_handlers(leads: &[Lead]) -> bool
    ensures { result ≡ has_handlers leads.now }
{
    leads.iter().any(|lead| lead.handler.is_some())
}

/// The offset to which those lead, if they are but one, and that is to no handler.
pub(crate) fn only_target(leads: &[Lead]) -> Option<usize>
    ensures { IfSome result (λ to. leads.now ≡ lead_on to ∷ []) }
{
    if leads.len() != 1 {
        return None;
    }
    let lead = leads[0];
    match lead.handler {
        None => Some(lead.offset),
        Some(_) => None,
    }
}

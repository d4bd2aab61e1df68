//! Return instructions (JVMS 6.5).

ghost use Rattle.std.specs.Prelude.{◌≡◌, ◌||◌, [], Bool, Some, None, map, IfOk, IfErr};
ghost use Rattle.std.specs.List.{list_any};
ghost use Rattle.model.specs.Classes.{Program};
ghost use Rattle.model.specs.DescriptorParts.{classes_in};
ghost use Rattle.model.specs.Resolution.{is_missing};
ghost use Rattle.model.specs.Operands.{values};
ghost use Rattle.model.specs.Sites.{Site};
ghost use Rattle.model.specs.Calls.{return_of};
ghost use Rattle.instruction_types.specs.operand_types.View.{want_in, wants_in};
ghost use Rattle.instruction_types.specs.Answers.{Answers};
ghost use Rattle.instruction_types.specs.Returns.{kind_of, returns_as};

use crate::calls::types_of;
use crate::leads::Leads;
use crate::meaning::{Meaning, NoMeaning};
use crate::operand_types::{Want, Wants};
use crate::want::want_for;
use hierarchy::ClassSet;
use model::Returned;
use smallvec::SmallVec;
use std::alloc::Global;
use types::VerificationType;

/// What is returned where the result is of a type.
fn kind_of(returns: Option<VerificationType>) -> Returned
    ensures { result ≡ kind_of returns }
{
    match returns {
        None => Returned::Nothing,
        Some(t) => match t {
            VerificationType::Unusable => Returned::Int,
            VerificationType::Int => Returned::Int,
            VerificationType::Null => Returned::Int,
            VerificationType::Object(_) => Returned::Reference,
            VerificationType::Uninitialised { .. } => Returned::Int,
            VerificationType::UninitialisedThis { .. } => Returned::Int,
        },
    }
}

/// Whether an instruction returns this.
fn returns_as(kind: Returned, returned: Returned) -> bool
    ensures { result ≡ returns_as kind returned }
{
    match returned {
        Returned::Nothing => matches!(kind, Returned::Nothing),
        Returned::Int => matches!(kind, Returned::Int),
        Returned::Reference => matches!(kind, Returned::Reference),
    }
}

/// A return that pops these, where it may stand at all.
fn leaving(alloc: Global, allowed: bool, pops: &[Want]) -> Result<Meaning, NoMeaning>
    ensures wants { IfOk result (λ m. (files : Program)
        → wants_in files m.wants
        ≡ record { allowed = allowed; reads = []; pops = map (want_in files) pops.now; grows = 0 }) }
    ensures reads { IfOk result (λ m. m.wants.reads ≡ None) }
    ensures leads { IfOk result (λ m. m.leads ≡ Leads.Nowhere) }
    ensures memory { IfErr result (λ e. e ≡ NoMeaning.OutOfMemory) }
{
    let Ok(pops) = SmallVec::from_slice(alloc, pops) else {
        return Err(NoMeaning::OutOfMemory);
    };
    let wants = Wants {
        allowed,
        reads: None,
        pops,
        grows: 0,
    };
    Ok(Meaning {
        wants,
        leads: Leads::Nowhere,
    })
}

/// `return`, `ireturn` and `areturn` of a method of a descriptor.
pub(crate) fn return_of(
    alloc: Global,
    set: &ClassSet,
    descriptor: &[u8],
    returned: Returned,
) -> Result<Meaning, NoMeaning>
    ensures { (site : Site) (others : Bool)
        → Answers set.now site (list_any (is_missing set.now) (classes_in descriptor.now) || others)
        (Some (return_of values set.now descriptor.now returned)) result }
{
    let types = match types_of(alloc, set, descriptor) {
        Ok(types) => types,
        Err(reason) => return Err(reason),
    };
    let allowed = returns_as(kind_of(types.returns), returned);
    match returned {
        Returned::Nothing => leaving(alloc, allowed, &[]),
        Returned::Int => leaving(alloc, allowed, &[Want::AnInt]),
        Returned::Reference => match types.returns {
            Some(t) => leaving(alloc, allowed, &[want_for(t)]),
            None => leaving(alloc, allowed, &[]),
        },
    }
}

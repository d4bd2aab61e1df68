//! What an instruction wants and where it leads.

ghost use Rattle.std.specs.Prelude.{◌≡◌, ◌∷◌, [], map, IfOk, IfErr};
ghost use Rattle.model.specs.Classes.{Program};
ghost use Rattle.model.specs.Sites.{wants_of};
ghost use Rattle.instruction_types.specs.operand_types.View.{want_in, wants_in};

use crate::leads::Leads;
use crate::operand_types::{Want, Wants};
use smallvec::SmallVec;
use std::alloc::Global;

/// What an instruction that is not local wants, and where it leads.
#[derive(Drop)]
pub struct Meaning {
    pub wants: Wants,
    pub leads: Leads,
}

/// Why there is no meaning of an instruction.
#[derive(Clone, Copy)]
pub enum NoMeaning {
    /// The instruction is local, or its operand does not name what it is to name.
    Unnamed,
    /// Linking refuses the instruction, for a class that is not found or an array of too many dimensions.
    NotLinked,
    OutOfMemory,
}

/// The wants of an instruction that pops these, the top first, and leaves so many words above what it pops.
pub fn popping(
    alloc: Global,
    pops: &[Want],
    grows: usize,
    leads: Leads,
) -> Result<Meaning, NoMeaning>
    ensures wants { IfOk result (λ m. (files : Program)
        → wants_in files m.wants ≡ wants_of (map (want_in files) pops.now) grows) }
    ensures reads { IfOk result (λ m. m.wants.reads ≡ None) }
    ensures leads { IfOk result (λ m. m.leads ≡ leads) }
    ensures memory { IfErr result (λ e. e ≡ NoMeaning.OutOfMemory) }
{
    let Ok(pops) = SmallVec::from_slice(alloc, pops) else {
        return Err(NoMeaning::OutOfMemory);
    };
    let wants = Wants {
        allowed: true,
        reads: None,
        pops,
        grows,
    };
    Ok(Meaning { wants, leads })
}

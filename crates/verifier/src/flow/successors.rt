//! Where an instruction leads, its handlers aside.

ghost use Rattle.std.specs.Prelude.{◌≡◌, map, option_map, Some, false, OnOk, IfOk, IsFalse};
ghost use Rattle.model.specs.declared.value.Value.{Value};
ghost use Rattle.model.specs.Sites.{MeaningOf, site_at};
ghost use Rattle.model.specs.Linkable.{stands, DuplicateClass};
ghost use Rattle.model.specs.Operands.{values};
ghost use Rattle.model.specs.Meanings.{meaning_of, other_meaning};
ghost use Rattle.types.specs.View.{frame_in};
ghost use Rattle.types.specs.method_code.View.{files_of, member_of, body_of};
ghost use Rattle.types.specs.method_code.Site.{site_of};
ghost use Rattle.instruction_types.specs.Means.{Means};
ghost use Rattle.instruction_types.specs.Answers.{is_refused};
ghost use Rattle.verifier.specs.flow.Meanings.{AreMeanings};
ghost use Rattle.verifier.specs.flow.Successors.{successors_by};

use crate::flow::local::flow_locally;
use crate::flow::meanings::Meanings;
use crate::flow_effects::lead_on;
use instruction_types::operand_types::{LocalFlow, is_ready};
use instruction_types::{Meaning, NoMeaning, meaning_of};
use smallvec::SmallVec;
use std::alloc::{AllocError, Global};
use types::FrameType;
use types::method_code::Site;

/// The offsets to which an instruction leads by its meaning, if its operands are as it wants them.
fn successors_by(
    alloc: Global,
    site: &Site<'_>,
    meaning: &Meaning,
    frame: &mut FrameType,
) -> Result<Option<SmallVec<usize, 2>>, AllocError>
    ensures { IfOk result (λ o. (model : MeaningOf Value)
        → Means (files_of site.now.method) (site_of site.now) meaning.now model
        → option_map (λ tos. map (λ to. (to, frame_in (files_of site.now.method) frame.new)) tos.items) o
        ≡ successors_by (files_of site.now.method) (site_of site.now)
        (frame_in (files_of site.now.method) frame.old) (Some model)) }
{
    let method = &site.method;
    if !is_ready(method.set(), &meaning.wants, method.code.max_stack, frame) {
        return Ok(None);
    }
    if lead_on(site, meaning, frame)? {
        return Ok(Some(SmallVec::from_slice(alloc, &[site.next])?));
    }
    Ok(Some(SmallVec::from_slice(alloc, &[])?))
}

/// The offsets to which an instruction leads that is not local. Its meaning is read unless it is kept, and kept from
/// then on.
fn other_successors(
    alloc: Global,
    site: &Site<'_>,
    meanings: &mut Meanings,
    frame: &mut FrameType,
) -> Result<Option<SmallVec<usize, 2>>, AllocError>
    requires differ { IsFalse (stands (files_of site.now.method) DuplicateClass) }
    requires linked { is_refused (files_of site.now.method) (site_of site.now) ≡ false }
    requires there { site_at (member_of site.now.method) (body_of site.now.method) site.now.offset
        ≡ Some (site_of site.now) }
    requires meanings { AreMeanings site.now.method meanings.old }
    ensures meanings { OnOk result (AreMeanings site.now.method meanings.new) }
    ensures successors { IfOk result (λ o.
        option_map (λ tos. map (λ to. (to, frame_in (files_of site.now.method) frame.new)) tos.items) o
        ≡ successors_by (files_of site.now.method) (site_of site.now) (frame_in (files_of site.now.method) frame.old)
        (other_meaning values (files_of site.now.method) (site_of site.now) site.now.instr)) }
{
    let offset = site.offset as usize;
    if let Some(meaning) = meanings.at(offset) {
        return successors_by(alloc, site, meaning, frame);
    }
    match meaning_of(alloc, site) {
        Ok(meaning) => {
            let found = successors_by(alloc, site, &meaning, frame)?;
            meanings.keep(offset, meaning);
            Ok(found)
        }
        Err(NoMeaning::Unnamed) => Ok(None),
        Err(NoMeaning::NotLinked) => unreachable!(),
        Err(NoMeaning::OutOfMemory) => Err(AllocError),
    }
}

/// The offsets to which an instruction leads from a frame type, which becomes the one there, its handlers aside.
pub(crate) fn successors(
    alloc: Global,
    site: &Site<'_>,
    meanings: &mut Meanings,
    frame: &mut FrameType,
) -> Result<Option<SmallVec<usize, 2>>, AllocError>
    requires differ { IsFalse (stands (files_of site.now.method) DuplicateClass) }
    requires linked { is_refused (files_of site.now.method) (site_of site.now) ≡ false }
    requires there { site_at (member_of site.now.method) (body_of site.now.method) site.now.offset
        ≡ Some (site_of site.now) }
    requires meanings { AreMeanings site.now.method meanings.old }
    ensures meanings { OnOk result (AreMeanings site.now.method meanings.new) }
    ensures successors { IfOk result (λ o.
        option_map (λ tos. map (λ to. (to, frame_in (files_of site.now.method) frame.new)) tos.items) o
        ≡ successors_by (files_of site.now.method) (site_of site.now) (frame_in (files_of site.now.method) frame.old)
        (meaning_of values (files_of site.now.method) (site_of site.now))) }
{
    let found = flow_locally(alloc, site, frame)?;
    match found {
        LocalFlow::Leads(targets) => Ok(Some(targets)),
        LocalFlow::NotReady => Ok(None),
        LocalFlow::NotLocal => other_successors(alloc, site, meanings, frame),
    }
}

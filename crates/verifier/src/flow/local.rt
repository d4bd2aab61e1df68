//! Where a local instruction leads.

ghost use Rattle.std.specs.Prelude.{IfOk};
ghost use Rattle.types.specs.View.{frame_in};
ghost use Rattle.types.specs.method_code.View.{files_of};
ghost use Rattle.types.specs.method_code.Site.{site_of};
ghost use Rattle.verifier.specs.flow.Local.{AnswersLocally};

use instruction_types::operand_types::{InstructionSite, LocalFlow, local_flow};
use std::alloc::{AllocError, Global};
use types::FrameType;
use types::method_code::Site;

/// What a local instruction makes of a frame type, which becomes the one after it.
pub(crate) fn flow_locally(
    alloc: Global,
    site: &Site<'_>,
    frame: &mut FrameType,
) -> Result<LocalFlow, AllocError>
    ensures { IfOk result
        (AnswersLocally (files_of site.now.method) (site_of site.now) (frame_in (files_of site.now.method) frame.old)
        (frame_in (files_of site.now.method) frame.new)) }
{
    let method = &site.method;
    let here = InstructionSite {
        pool: &method.file.pool,
        code: &method.code.code,
        offset: site.offset as usize,
        next: site.next,
        instr: site.instr,
    };
    local_flow(alloc, method.set(), method.code.max_stack, here, frame)
}

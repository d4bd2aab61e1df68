//! What stands in front of the entries.

ghost use Rattle.std.specs.Prelude.{[], IfOk};
ghost use Rattle.std.specs.Option.{option_map};
ghost use Rattle.schedule.specs.growing_text.Growing.{HasGrown};

use crate::Recording;
use crate::schedule_text::push_recorded;
use std::alloc::{AllocError, Global};

/// The text of a run that has done no event so far, and is recorded with this, where it is told. The only error is a
/// want of memory.
pub fn growing_front(alloc: Global, recording: Option<&Recording>) -> Result<Vec<u8>, AllocError>
    ensures { IfOk result (λ text. HasGrown text.items (option_map (λ r. r.now) recording.entry) []) }
{
    let mut text = Vec::new(alloc);
    text.extend_from_slice(b"#growing\n")?;
    push_recorded(&mut text, recording)?;
    Ok(text)
}

//! The frames of a stack (JVMS 2.6).

use std::alloc::{AllocError, Global};
use thread_stacks::{Frame, ThreadStack};

/// How many frames of a stack are told.
pub(crate) const MOST_FRAMES: usize = 32;

/// Where a frame stands: the number of its method, and its place in the method's linked code.
#[derive(Clone, Copy)]
pub(crate) struct FramePlace {
    pub(crate) method: u32,
    pub(crate) place: usize,
}

impl FramePlace {
    pub(crate) fn of(frame: &Frame<'_>) -> FramePlace {
        FramePlace {
            method: frame.method,
            place: frame.place,
        }
    }
}

/// Where the frames of a stack stand, the topmost first; of many those that are told.
#[derive(Drop)]
pub(crate) struct StackPlaces {
    pub(crate) told: Vec<FramePlace>,
    /// How many frames there are.
    pub(crate) count: usize,
}

impl StackPlaces {
    /// Of a stack.
    pub(crate) fn of(alloc: Global, stack: &ThreadStack) -> Result<StackPlaces, AllocError> {
        let count = stack.frame_count();
        let mut told = Vec::new(alloc);
        let mut entries = stack.entries();
        while !entries.is_empty() && told.len() < MOST_FRAMES {
            if let Some(frame) = entries.frame() {
                told.push(FramePlace::of(&frame))?;
            }
            entries.go_under();
        }
        Ok(StackPlaces { told, count })
    }

    /// Of a frame on top, if there is one, and those that wait for its return, the last of which called it.
    pub(crate) fn copied(
        alloc: Global,
        top: Option<FramePlace>,
        callers: &[FramePlace],
    ) -> Result<StackPlaces, AllocError> {
        let mut told = Vec::new(alloc);
        let Some(top) = top else {
            return Ok(StackPlaces { told, count: 0 });
        };
        told.push(top)?;
        for caller in callers.iter().rev().take(MOST_FRAMES - 1) {
            told.push(*caller)?;
        }
        let count = callers.len().saturating_add(1);
        Ok(StackPlaces { told, count })
    }
}

//! A thread that is watched while it does its events.

use crate::thread_explanations::stacks::{FramePlace, StackPlaces};
use heap::java_threads::ThreadStatus;
use machine_state::Shared;
use std::alloc::{AllocError, Global};
use traces::traced_events::class_on_top;

/// What was seen of the event at which an exception was thrown.
#[derive(Drop)]
pub(crate) struct Throw {
    /// Where the frames of the thread stood before it.
    pub(crate) stack: StackPlaces,
    /// The class whose initialisation failed in that event, by its number, and the exception on account of which it
    /// did.
    pub(crate) failed: Option<(u16, u32)>,
}

/// A thread that is watched until a sought exception is thrown there.
#[derive(Drop)]
pub(crate) struct Watch {
    sought: Option<u32>,
    /// Where its topmost frame stands, if it has one.
    top: Option<FramePlace>,
    /// Where the frames stand that wait for a return, the lowest first.
    callers: Vec<FramePlace>,
    /// How many frames it has.
    frames: usize,
    /// The class on top of its stack, by its number.
    initialising: Option<u16>,
    /// The exception that is pending, or has ended it.
    thrown: Option<u32>,
    seen: Option<Throw>,
}

/// The exception that is pending in a thread, or has ended it.
fn thrown_in(shared: &Shared, thread: u16) -> Option<u32> {
    match shared.threads.status(thread) {
        ThreadStatus::Ended(exception) => exception,
        _ => shared.threads.pending(thread),
    }
}

impl Watch {
    /// Of a thread that has done no event, for the first throw of this exception; of none, where there is none.
    pub(crate) fn new(alloc: Global, sought: Option<u32>) -> Watch {
        Watch {
            sought,
            top: None,
            callers: Vec::new(alloc),
            frames: 0,
            initialising: None,
            thrown: None,
            seen: None,
        }
    }

    /// Whether its events are to be watched still.
    pub(crate) fn is_seeking(&self) -> bool {
        self.sought.is_some() && self.seen.is_none()
    }

    /// The exception that is the cause of the one that was sought.
    pub(crate) fn cause(&self) -> Option<u32> {
        let (_, exception) = self.seen.as_ref()?.failed?;
        Some(exception)
    }

    /// What was seen.
    pub(crate) fn into_seen(self) -> Option<Throw> {
        self.seen
    }

    /// Looks at the thread before its event.
    pub(crate) fn before(&mut self, shared: &Shared, thread: u16) {
        let Some(stack) = shared.stacks.get(usize::from(thread)) else {
            return;
        };
        if let Some(frame) = stack.frame() {
            self.top = Some(FramePlace::of(&frame));
        }
        self.frames = stack.frame_count();
        self.initialising = class_on_top(stack);
        self.thrown = thrown_in(shared, thread);
    }

    /// Looks at it after its event.
    pub(crate) fn after(
        &mut self,
        alloc: Global,
        shared: &Shared,
        thread: u16,
    ) -> Result<(), AllocError> {
        let thrown = thrown_in(shared, thread);
        if self.is_seeking() && thrown != self.thrown && thrown == self.sought {
            self.seen = Some(self.seen_throw(alloc)?);
        }
        match shared.stacks.get(usize::from(thread)) {
            Some(stack) => self.go_on(stack.frame_count()),
            None => Ok(()),
        }
    }

    /// The throw, by what was seen before the event.
    fn seen_throw(&self, alloc: Global) -> Result<Throw, AllocError> {
        let stack = StackPlaces::copied(alloc, self.top, &self.callers)?;
        let failed = match (self.initialising, self.thrown) {
            (Some(class), Some(exception)) => Some((class, exception)),
            _ => None,
        };
        Ok(Throw { stack, failed })
    }

    /// Goes on to so many frames: one more, after a call, one less, after a return, or as many.
    fn go_on(&mut self, frames: usize) -> Result<(), AllocError> {
        if frames > self.frames {
            if let Some(caller) = self.top.take() {
                self.callers.push(caller)?;
            }
        } else if frames < self.frames {
            self.top = self.callers.pop();
        }
        Ok(())
    }
}

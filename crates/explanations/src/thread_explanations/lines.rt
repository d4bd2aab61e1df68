//! What is told of a thread, in lines.

use crate::thread_explanations::awaited::Awaited;
use crate::thread_explanations::stacks::{FramePlace, StackPlaces};
use crate::thread_explanations::throws::{Cause, Thrown, exception_of};
use crate::thread_explanations::waits::Wait;
use machine_state::Shared;
use machine_state::method_selection::class_of_kind;
use model::EndState;
use std::alloc::{AllocError, Global};
use traces::{ProgramNames, push_number, push_thread, push_words};

/// A thread in the state to which a run came.
#[derive(Drop)]
pub(crate) struct ThreadFacts {
    pub(crate) wait: Wait,
    /// Its stack.
    pub(crate) stack: StackPlaces,
    /// The exception that ended it.
    pub(crate) thrown: Option<Thrown>,
}

/// What the lines are made of: the names, what the threads share, and each thread and how it stands, by its number.
#[derive(Clone, Copy)]
pub(crate) struct Facts<'a> {
    pub(crate) alloc: Global,
    pub(crate) names: &'a ProgramNames<'a>,
    pub(crate) shared: &'a Shared,
    pub(crate) threads: &'a [ThreadFacts],
    pub(crate) ends: &'a [EndState],
}

impl Facts<'_> {
    fn thread(&self, thread: u16) -> Option<&ThreadFacts> {
        self.threads.get(usize::from(thread))
    }

    fn place(&self, text: &mut Vec<u8>, frame: FramePlace) -> Result<(), AllocError> {
        self.names.push_place(text, frame.method, frame.place)
    }

    fn object(&self, text: &mut Vec<u8>, object: u32) -> Result<(), AllocError> {
        self.names.push_object(text, &self.shared.heap, object)
    }

    /// The name of the class of an object.
    fn class_of(&self, text: &mut Vec<u8>, object: u32) -> Result<(), AllocError> {
        if let Some(kind) = self.shared.heap.class_of(object) {
            text.extend_from_slice(self.names.class_name(class_of_kind(kind)))?;
        }
        Ok(())
    }

    /// `at Counter.run(Counter.java:12)`, for each frame that is told, and how many more there are.
    fn push_stack(&self, lines: &mut Vec<Vec<u8>>, stack: &StackPlaces) -> Result<(), AllocError> {
        for frame in &stack.told {
            let mut line = Vec::from_slice(self.alloc, b"at ")?;
            self.place(&mut line, *frame)?;
            lines.push(line)?;
        }
        let more = stack.count.saturating_sub(stack.told.len());
        if more > 0 {
            let mut line = Vec::from_slice(self.alloc, b"and ")?;
            push_number(&mut line, more as u64)?;
            push_words(&mut line, " more")?;
            lines.push(line)?;
        }
        Ok(())
    }

    /// Where a thread stands for which another one waits: `, which is at Counter.run(Counter.java:12)`.
    fn stands(&self, line: &mut Vec<u8>, thread: u16) -> Result<(), AllocError> {
        if let Some(frame) = self.top_of(thread) {
            push_words(line, ", which is at ")?;
            return self.place(line, frame);
        }
        match self.ends.get(usize::from(thread)) {
            Some(EndState::Ended | EndState::Threw(_)) => push_words(line, ", which has ended"),
            _ if self.shared.threads.begun(thread) => Ok(()),
            _ => push_words(line, ", which has not begun"),
        }
    }

    /// Where the topmost frame of a thread stands.
    fn top_of(&self, thread: u16) -> Option<FramePlace> {
        self.thread(thread)?.stack.told.first().copied()
    }

    /// A thread behind words, and where it stands: `.. thread 1, which is at ..`.
    fn by_thread(
        &self,
        line: &mut Vec<u8>,
        words: &str,
        thread: Option<u16>,
    ) -> Result<(), AllocError> {
        let Some(thread) = thread else {
            return Ok(());
        };
        push_words(line, words)?;
        push_thread(line, thread)?;
        self.stands(line, thread)
    }

    /// For what a thread waits, in words.
    fn push_awaited(
        &self,
        lines: &mut Vec<Vec<u8>>,
        thread: u16,
        facts: &ThreadFacts,
    ) -> Result<(), AllocError> {
        let mut line = Vec::new(self.alloc);
        let by = facts.wait.thread;
        match facts.wait.awaited {
            Awaited::Nothing => return Ok(()),
            Awaited::Monitor(object) => {
                self.monitor(&mut line, "waits for the monitor of ", object, by)?;
            }
            Awaited::MonitorAgain(object) => {
                self.monitor(
                    &mut line,
                    "waits to enter again the monitor of ",
                    object,
                    by,
                )?;
            }
            Awaited::Notification(object) => {
                push_words(&mut line, "is in the wait set of ")?;
                self.object(&mut line, object)?;
            }
            Awaited::End(_) if by == Some(thread) => push_words(
                &mut line,
                "waits for its own end",
            )?,
            Awaited::End(_) => self.by_thread(&mut line, "waits for the end of ", by)?,
            Awaited::Class(class) => self.class(&mut line, class, by)?,
        }
        lines.push(line)?;
        Ok(())
    }

    /// `waits for the monitor of java/lang/Object #35, owned by thread 2, which is at ..`.
    fn monitor(
        &self,
        line: &mut Vec<u8>,
        words: &str,
        object: u32,
        owner: Option<u16>,
    ) -> Result<(), AllocError> {
        push_words(line, words)?;
        self.object(line, object)?;
        self.by_thread(line, ", owned by ", owner)
    }

    /// `waits for the initialisation of Left by thread 1, which is at ..`.
    fn class(&self, line: &mut Vec<u8>, class: u16, by: Option<u16>) -> Result<(), AllocError> {
        push_words(line, "waits for the initialisation of ")?;
        line.extend_from_slice(self.names.class_name(u32::from(class)))?;
        self.by_thread(line, " by ", by)
    }

    /// From where the exception was thrown on account of which an initialisation failed.
    fn push_cause(&self, lines: &mut Vec<Vec<u8>>, cause: &Cause) -> Result<(), AllocError> {
        let mut line = Vec::from_slice(self.alloc, b"since the initialisation of ")?;
        line.extend_from_slice(self.names.class_name(u32::from(cause.class)))?;
        push_words(&mut line, " threw ")?;
        self.class_of(&mut line, cause.exception)?;
        lines.push(line)?;
        match &cause.stack {
            Some(stack) => self.push_stack(lines, stack),
            None => Ok(()),
        }
    }

    /// From where an exception was thrown, and why.
    fn push_thrown(&self, lines: &mut Vec<Vec<u8>>, thrown: &Thrown) -> Result<(), AllocError> {
        if let Some(stack) = &thrown.stack {
            self.push_stack(lines, stack)?;
        }
        match &thrown.cause {
            Some(cause) => self.push_cause(lines, cause),
            None => Ok(()),
        }
    }

    /// What is pending in a thread that goes on, or that it hasn't begun.
    fn push_runnable(&self, lines: &mut Vec<Vec<u8>>, thread: u16) -> Result<(), AllocError> {
        if let Some(exception) = self.shared.threads.pending(thread) {
            let mut line = Vec::new(self.alloc);
            self.class_of(&mut line, exception)?;
            push_words(&mut line, " is pending")?;
            lines.push(line)?;
        }
        if !self.shared.threads.begun(thread) {
            lines.push(Vec::from_slice(self.alloc, b"has not begun")?)?;
        }
        Ok(())
    }

    /// What is told of a thread: the exception that ended it, where its frames stand, or stood when it threw, and what
    /// it waits for.
    pub(crate) fn lines(&self, thread: u16) -> Result<Vec<Vec<u8>>, AllocError> {
        let mut lines = Vec::new(self.alloc);
        let Some(facts) = self.thread(thread) else {
            return Ok(lines);
        };
        match &facts.thrown {
            Some(thrown) => {
                if let Some(exception) = exception_of(self.shared, thread) {
                    self.push_exception(&mut lines, exception)?;
                }
                self.push_thrown(&mut lines, thrown)?;
            }
            None => {
                self.push_stack(&mut lines, &facts.stack)?;
                self.push_runnable(&mut lines, thread)?;
                self.push_awaited(&mut lines, thread, facts)?;
            }
        }
        Ok(lines)
    }
}

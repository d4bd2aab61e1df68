//! In words what an event did.

use crate::names::ProgramNames;
use crate::numbers::{push_number, push_ordinal, push_signed, push_words};
use crate::said::Said;
use crate::sorts::Sort;
use crate::threads::{push_thread_of, push_threads};
use crate::traced_events::{Before, Deed, Entries, Told};
use classfile::Reference;
use classfile::access_flags::{FINAL, has};
use heap::ObjectKind;
use heap::java_threads::WakeCause;
use machine_state::Shared;
use model::built_in::STRING;
use std::alloc::AllocError;

/// ACC_VOLATILE (JVMS table 4.5-A).
const VOLATILE: u16 = 0x0040;

/// What the words are made of: the names, the state after the event, and of the instruction the field that it names,
/// the flags of that, and what its word is.
#[derive(Clone, Copy)]
pub(crate) struct Words<'t, 'l, 's, 'f> {
    pub(crate) names: &'t ProgramNames<'l>,
    pub(crate) shared: &'s Shared,
    pub(crate) field: Option<Reference<'f>>,
    pub(crate) flags: u16,
    pub(crate) sort: Sort,
}

impl Words<'_, '_, '_, '_> {
    /// `"TEXT" #34` of a String, and of another object its type and its number.
    fn object(&self, said: &mut Said, object: u32) -> Result<(), AllocError> {
        let heap = &self.shared.heap;
        match heap.class_of(object) {
            Some(ObjectKind::Instance { class }) if class == STRING as u32 => {
                said.quote_words(heap.words(object))?;
                push_words(&mut said.words, " #")?;
                push_number(&mut said.words, u64::from(object))
            }
            _ => self.names.push_object(&mut said.words, heap, object),
        }
    }

    /// The value that a word stands for.
    fn value(&self, said: &mut Said, word: u32) -> Result<(), AllocError> {
        match self.sort {
            Sort::Int => push_signed(&mut said.words, word.cast_signed()),
            Sort::Boolean => push_words(&mut said.words, if word == 0 { "false" } else { "true" }),
            Sort::Reference => match word.checked_sub(1) {
                Some(object) => self.object(said, object),
                None => push_words(&mut said.words, "null"),
            },
        }
    }

    /// The text that the event printed.
    fn prints(&self, said: &mut Said, before: &Before) -> Result<(), AllocError> {
        push_words(&mut said.words, "prints ")?;
        said.quote(self.shared.printed.get(before.printed..).unwrap_or(&[]))
    }

    /// `volatile ` and `final `, of a field with these flags (JVMS 4.5; JLS 8.3.1).
    fn modifiers(&self, said: &mut Said) -> Result<(), AllocError> {
        if has(self.flags, VOLATILE) {
            push_words(&mut said.words, "volatile ")?;
        }
        if has(self.flags, FINAL) {
            push_words(&mut said.words, "final ")?;
        }
        Ok(())
    }

    /// `reads Counter.n = 1`, `writes final Point.x of Point #34 = 1`, `reads volatile Flag.ready = true`.
    fn field(
        &self,
        said: &mut Said,
        verb: &str,
        object: Option<u32>,
        word: u32,
    ) -> Result<(), AllocError> {
        push_words(&mut said.words, verb)?;
        self.modifiers(said)?;
        if let Some(field) = self.field {
            said.words.extend_from_slice(field.class)?;
            said.words.push(b'.')?;
            said.words.extend_from_slice(field.name)?;
        }
        if let Some(object) = object {
            push_words(&mut said.words, " of ")?;
            self.object(said, object)?;
        }
        push_words(&mut said.words, " = ")?;
        self.value(said, word)
    }

    /// `reads [2] of int[] #34 = 1`.
    fn element(
        &self,
        said: &mut Said,
        verb: &str,
        array: u32,
        index: u32,
        word: u32,
    ) -> Result<(), AllocError> {
        push_words(&mut said.words, verb)?;
        said.words.push(b'[')?;
        push_signed(&mut said.words, index.cast_signed())?;
        push_words(&mut said.words, "] of ")?;
        self.object(said, array)?;
        push_words(&mut said.words, " = ")?;
        self.value(said, word)
    }

    /// `enters monitor of Counter.class (2nd time)`.
    fn enters(&self, said: &mut Said, entries: Entries) -> Result<(), AllocError> {
        push_words(&mut said.words, "enters monitor of ")?;
        self.object(said, entries.object)?;
        if entries.count > 1 {
            push_words(&mut said.words, " (")?;
            push_ordinal(&mut said.words, entries.count)?;
            push_words(&mut said.words, " time)")?;
        }
        Ok(())
    }

    /// `exits monitor of Counter.class (1 entry left)`.
    fn exits(&self, said: &mut Said, entries: Entries) -> Result<(), AllocError> {
        push_words(&mut said.words, "exits monitor of ")?;
        self.object(said, entries.object)?;
        if entries.count > 0 {
            push_words(&mut said.words, " (")?;
            push_number(&mut said.words, u64::from(entries.count))?;
            push_words(
                &mut said.words,
                if entries.count == 1 {
                    " entry left)"
                } else {
                    " entries left)"
                },
            )?;
        }
        Ok(())
    }

    /// Adds that the event also left a monitor.
    fn also_exits(&self, said: &mut Said, exited: Option<Entries>) -> Result<(), AllocError> {
        match exited {
            Some(entries) => {
                push_words(&mut said.words, ", ")?;
                self.exits(said, entries)
            }
            None => Ok(()),
        }
    }

    fn calls(
        &self,
        said: &mut Said,
        method: u32,
        entered: Option<Entries>,
    ) -> Result<(), AllocError> {
        push_words(&mut said.words, "calls ")?;
        self.names.push_method(&mut said.words, method)?;
        match entered {
            Some(entries) => {
                push_words(&mut said.words, ", ")?;
                self.enters(said, entries)
            }
            None => Ok(()),
        }
    }

    fn returns(
        &self,
        said: &mut Said,
        word: Option<u32>,
        exited: Option<Entries>,
    ) -> Result<(), AllocError> {
        push_words(&mut said.words, "returns")?;
        if let Some(word) = word {
            said.words.push(b' ')?;
            self.value(said, word)?;
        }
        self.also_exits(said, exited)
    }

    /// Words and an object behind them.
    fn of_object(&self, said: &mut Said, verb: &str, object: u32) -> Result<(), AllocError> {
        push_words(&mut said.words, verb)?;
        self.object(said, object)
    }

    /// Words and a thread behind them.
    fn of_thread(&self, said: &mut Said, verb: &str, object: u32) -> Result<(), AllocError> {
        push_words(&mut said.words, verb)?;
        push_thread_of(&mut said.words, self.names, self.shared, object)
    }

    /// Words and a class behind them.
    fn of_class(&self, said: &mut Said, verb: &str, class: u16) -> Result<(), AllocError> {
        push_words(&mut said.words, verb)?;
        Ok(
            said.words
                .extend_from_slice(self.names.class_name(u32::from(class)))?,
        )
    }

    fn notifies(&self, said: &mut Said, threads: &[u16]) -> Result<(), AllocError> {
        push_words(&mut said.words, "notifies ")?;
        push_threads(&mut said.words, threads)
    }

    fn enters_again(
        &self,
        said: &mut Said,
        entries: Entries,
        cause: WakeCause,
    ) -> Result<(), AllocError> {
        push_words(
            &mut said.words,
            match cause {
                WakeCause::Notified => "was notified, enters monitor of ",
                WakeCause::Interrupted => "was interrupted, enters monitor of ",
            },
        )?;
        self.object(said, entries.object)?;
        push_words(&mut said.words, " again")?;
        if entries.count > 1 {
            push_words(&mut said.words, " (")?;
            push_number(&mut said.words, u64::from(entries.count))?;
            push_words(&mut said.words, " times)")?;
        }
        Ok(())
    }

    fn catches(&self, said: &mut Said, exception: u32, offset: u16) -> Result<(), AllocError> {
        self.of_object(said, "catches ", exception)?;
        push_words(&mut said.words, " at ")?;
        push_number(&mut said.words, u64::from(offset))
    }

    fn leaves(
        &self,
        said: &mut Said,
        method: u32,
        exception: u32,
        exited: Option<Entries>,
    ) -> Result<(), AllocError> {
        push_words(&mut said.words, "leaves ")?;
        self.names.push_method(&mut said.words, method)?;
        self.of_object(said, " by ", exception)?;
        self.also_exits(said, exited)
    }

    fn stores(&self, said: &mut Said, local: u16, word: u32) -> Result<(), AllocError> {
        push_words(&mut said.words, "local ")?;
        push_number(&mut said.words, u64::from(local))?;
        push_words(&mut said.words, " = ")?;
        self.value(said, word)
    }

    /// What threads do to each other.
    fn of_threads(&self, said: &mut Said, before: &Before, deed: Deed) -> Result<(), AllocError> {
        match deed {
            Deed::Waits { object } => self.of_object(said, "waits on ", object),
            Deed::Notifies {
                thread: Some(thread),
            } => self.notifies(said, &[thread]),
            Deed::Notifies { thread: None } => self.notifies(said, &[]),
            Deed::NotifiesAll => self.notifies(said, before.waiting()),
            Deed::Starts { object } => self.of_thread(said, "starts ", object),
            Deed::Interrupts { object } => self.of_thread(said, "interrupts ", object),
            Deed::Joins { object } => self.of_thread(said, "joins ", object),
            Deed::Yields => push_words(&mut said.words, "yields"),
            Deed::EntersAgain { entries, cause } => self.enters_again(said, entries, cause),
            _ => Ok(()),
        }
    }

    /// Calls, exceptions and classes.
    fn of_methods(&self, said: &mut Said, deed: Deed) -> Result<(), AllocError> {
        match deed {
            Deed::Calls { method, entered } => self.calls(said, method, entered),
            Deed::Returns { word, exited } => self.returns(said, word, exited),
            Deed::Runs { method } => {
                push_words(&mut said.words, "runs ")?;
                self.names.push_method(&mut said.words, method)
            }
            Deed::Catches { exception, offset } => self.catches(said, exception, offset),
            Deed::Leaves {
                method,
                exception,
                exited,
            } => self.leaves(said, method, exception, exited),
            Deed::BeginsInitialisation { class } => {
                self.of_class(said, "begins initialisation of ", class)
            }
            Deed::NeedsNoInitialiser { class } => {
                self.of_class(said, "finds no initialiser of ", class)
            }
            Deed::EndsInitialisation { class } => {
                self.of_class(said, "ends initialisation of ", class)
            }
            Deed::FailsInitialisation { class } => {
                self.of_class(said, "fails initialisation of ", class)
            }
            _ => Ok(()),
        }
    }

    /// What an event did, in words.
    fn deed(&self, said: &mut Said, before: &Before, deed: Deed) -> Result<(), AllocError> {
        match deed {
            Deed::Nothing => Ok(()),
            Deed::Pushes { word } => {
                push_words(&mut said.words, "pushes ")?;
                self.value(said, word)
            }
            Deed::Stores { local, word } => self.stores(said, local, word),
            Deed::Goes { offset } => {
                push_words(&mut said.words, "goes to ")?;
                push_number(&mut said.words, u64::from(offset))
            }
            Deed::ReadsField { object, word } => self.field(said, "reads ", object, word),
            Deed::WritesField { object, word } => self.field(said, "writes ", object, word),
            Deed::ReadsElement { array, index, word } => {
                self.element(said, "reads ", array, index, word)
            }
            Deed::WritesElement { array, index, word } => {
                self.element(said, "writes ", array, index, word)
            }
            Deed::Makes { object } => self.of_object(said, "makes ", object),
            Deed::Enters(entries) => self.enters(said, entries),
            Deed::Exits(entries) => self.exits(said, entries),
            Deed::Prints { number } => {
                push_words(&mut said.words, "prints ")?;
                push_signed(&mut said.words, number)
            }
            Deed::PrintsText => self.prints(said, before),
            Deed::Waits { .. }
            | Deed::Notifies { .. }
            | Deed::NotifiesAll
            | Deed::Starts { .. }
            | Deed::Interrupts { .. }
            | Deed::Joins { .. }
            | Deed::Yields
            | Deed::EntersAgain { .. } => self.of_threads(said, before, deed),
            _ => self.of_methods(said, deed),
        }
    }

    /// Adds what an event did, with the exception that is pending since, and the end of the thread. `, ` stands between
    /// two parts.
    pub(crate) fn push(
        &self,
        said: &mut Said,
        before: &Before,
        told: Told,
    ) -> Result<(), AllocError> {
        let mut link = "";
        if !matches!(told.deed, Deed::Nothing) {
            self.deed(said, before, told.deed)?;
            link = ", ";
        }
        if let Some(exception) = told.throws {
            push_words(&mut said.words, link)?;
            self.of_object(said, "throws ", exception)?;
            link = ", ";
        }
        match told.ends {
            Some(None) => {
                push_words(&mut said.words, link)?;
                push_words(&mut said.words, "ends")
            }
            Some(Some(exception)) => {
                push_words(&mut said.words, link)?;
                self.of_object(said, "ends by ", exception)
            }
            None => Ok(()),
        }
    }
}

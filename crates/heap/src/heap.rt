//! Objects by their references.

ghost use Rattle.std.specs.Prelude.{◌≡◌, ◌+◌, ◌<◌, ◌↔◌, [], Ok, IfOk, OnErr, IsTrue, length, slice_get, option_map};
ghost use Rattle.model.specs.Monitors.{monitor_at};
ghost use Rattle.heap.specs.monitor.Locks.{IsAllowed, is_fat_at};
ghost use Rattle.heap.specs.Heap.{made, Allocates, IsOpened, words_at, word_at, put_field, put_element};
ghost use Rattle.heap.specs.Heap.{HandsOn, kind_of};

mod parts;

use crate::kind::{NarrowKind, ObjectKind};
use crate::layout::{self, Entry};
use crate::monitor::{Call, MonitorCalls, MonitorRefusal, Monitors, Waiter};
use crate::refusal::AllocRefusal;
use model::{Limits, MonitorAnswer};
use std::alloc::{AllocError, Global};
use std::marker::Model;

/// How many objects the opening state may have. With 4,000,000,000 more, which is the highest limit, each reference r
/// has a word r + 1 of 32 bits.
pub const MOST_OPENING: u32 = 294_967_295;

/// The objects of a run by their references, with their monitors.
///
/// Words are read and written by their number in the object, from 0. A word that is not there, or one of an object
/// that is not there, is read as 0 and not written.
#[derive(Drop)]
pub struct Heap {
    table: Vec<Entry>,
    cells: Vec<u32>,
    monitors: Monitors,
    opening: u32,
    counted: u32,
    object_limit: u32,
    cell_limit: u32,
}

impl Model for Heap {
    ghost use Rattle.std.specs.Prelude.{length};
    ghost use Rattle.heap.specs.Heap.{Heap as Shown};
    ghost use Rattle.heap.specs.Layout.{heap_of, IsSound};

    ghost Value = { Shown };

    ghost view = { λ h. heap_of h.table.items h.cells.items h.monitors
        h.opening h.counted h.object_limit h.cell_limit };

    ghost invariant = { λ h. IsSound h.table.items (length h.cells.items) (length h.monitors.monitors)
        h.opening h.counted h.object_limit h.cell_limit };
}

impl Heap {
    /// No objects yet. The limits on objects and cells hold for what is allocated, and not for the opening state.
    pub fn new(alloc: Global, limits: Limits) -> Heap
        ensures { result ≡ record {
          objects = [];
          locks = record { monitors = []; fat = []; limit = limits.monitors };
          opening = 0;
          counted = 0;
          object_limit = limits.objects;
          cell_limit = limits.cells;
        } }
    {
        Heap {
            table: Vec::new(alloc),
            cells: Vec::new(alloc),
            monitors: Monitors::new(alloc, limits.monitors),
            opening: 0,
            counted: 0,
            object_limit: limits.objects,
            cell_limit: limits.cells,
        }
    }

    /// One more object of the opening state, to which all objects before it belong too.
    pub fn add_opening(&mut self, kind: ObjectKind, count: u32) -> Result<u32, AllocError>
        requires { length self.old.objects < MOST_OPENING }
        ensures ok { IfOk result (λ reference. IsOpened reference kind count self.old self.new) }
        ensures err { OnErr result (self.new ≡ self.old) }
    {
        let reference = self.len();
        layout::add(
            &mut self.table,
            &mut self.cells,
            &mut self.monitors,
            kind,
            count,
        )?;
        self.opening = reference + 1;
        self.counted = 0;
        Ok(reference)
    }

    /// How many objects may still be allocated.
    pub(crate) fn objects_left(&self) -> u32
        ensures { result + made self.now ≡ self.now.object_limit }
    {
        self.object_limit - (self.table.len() - self.opening as usize) as u32
    }

    /// How many cells may still be counted of objects that are allocated.
    pub(crate) fn cells_left(&self) -> u32
        ensures { result + self.now.counted ≡ self.now.cell_limit }
    {
        self.cell_limit - self.counted
    }

    /// One more object, where no limit stands. Of its words so many count as cells.
    fn alloc(&mut self, kind: ObjectKind, count: u32, counted: u32) -> Result<u32, AllocRefusal>
        ensures { Allocates result kind count counted self.old self.new }
    {
        if self.objects_left() == 0 {
            return Err(AllocRefusal::Objects);
        }
        if self.cells_left() < counted {
            return Err(AllocRefusal::Cells);
        }
        let reference = self.len();
        layout::add(
            &mut self.table,
            &mut self.cells,
            &mut self.monitors,
            kind,
            count,
        )?;
        self.counted += counted;
        Ok(reference)
    }

    /// One more instance of a class, whose fields are 0. So many of them count as cells.
    pub fn alloc_object(
        &mut self,
        class: u32,
        fields: u32,
        counted: u32,
    ) -> Result<u32, AllocRefusal>
        ensures { Allocates result (ObjectKind.Instance class) fields counted self.old self.new }
    {
        self.alloc(ObjectKind::Instance { class }, fields, counted)
    }

    /// One more array of ints, which are 0.
    pub fn alloc_ints(&mut self, length: u32) -> Result<u32, AllocRefusal>
        ensures { Allocates result ObjectKind.Ints length length self.old self.new }
    {
        self.alloc(ObjectKind::Ints, length, length)
    }

    /// One more array of references, which are null. Its type has this number.
    pub fn alloc_refs(&mut self, of: u32, length: u32) -> Result<u32, AllocRefusal>
        ensures { Allocates result (ObjectKind.References of) length length self.old self.new }
    {
        self.alloc(ObjectKind::References { of }, length, length)
    }

    /// One more array of booleans, chars, bytes or shorts, which are 0.
    pub fn alloc_narrow(&mut self, kind: NarrowKind, length: u32) -> Result<u32, AllocRefusal>
        ensures { Allocates result (ObjectKind.Narrow kind) length length self.old self.new }
    {
        self.alloc(ObjectKind::Narrow(kind), length, length)
    }

    /// How many objects there are, each of which has a monitor.
    pub fn len(&self) -> u32
        ensures objects { result ≡ length self.now.objects }
        ensures monitors { result ≡ length self.now.locks.monitors }
    {
        self.table.len() as u32
    }

    /// What an object is.
    pub fn class_of(&self, object: u32) -> Option<ObjectKind>
        ensures { result ≡ option_map kind_of (slice_get self.now.objects object) }
    {
        layout::kind(self.table.as_slice(), object as usize)
    }

    /// How many fields or elements an object has.
    pub fn length(&self, object: u32) -> u32
        ensures { result ≡ length (words_at self.now.objects object) }
    {
        let table = self.table.as_slice();
        let cells = self.cells.as_slice();
        layout::word_count(table, cells, object)
    }

    /// A field of an object.
    pub fn get_field(&self, object: u32, field: u32) -> u32
        ensures { result ≡ word_at self.now.objects object field }
    {
        layout::word(self.table.as_slice(), self.cells.as_slice(), object, field)
    }

    /// Writes a field of an object.
    pub fn put_field(&mut self, object: u32, field: u32, word: u32)
        ensures { self.new ≡ record self.old { objects = put_field self.old.objects object field word } }
    {
        let table = self.table.as_slice();
        layout::set_word(table, &mut self.cells, object, field, word);
    }

    /// An element of an array.
    pub fn get_element(&self, array: u32, index: u32) -> u32
        ensures { result ≡ word_at self.now.objects array index }
    {
        self.get_field(array, index)
    }

    /// Writes an element of an array, which keeps what an element of its kind has room for.
    pub fn put_element(&mut self, array: u32, index: u32, word: u32)
        ensures { self.new ≡ record self.old { objects = put_element self.old.objects array index word } }
    {
        if let Some(kind) = self.class_of(array) {
            self.put_field(array, index, kind.stored(word));
        }
    }

    /// Whether a caller may make this call of monitors.
    pub fn allows(&self, call: Call) -> bool
        ensures { IsTrue result ↔ IsAllowed call self.now.locks }
    {
        self.monitors.allows(call)
    }

    /// Whether the lock of an object is inflated.
    pub fn is_fat(&self, object: u32) -> bool
        requires { object < length self.now.locks.monitors }
        ensures { result ≡ is_fat_at self.now.locks object }
    {
        self.monitors.is_fat(object)
    }

    /// The thread that owns the monitor of an object.
    pub fn owner(&self, object: u32) -> Option<u16>
        requires { object < length self.now.locks.monitors }
        ensures { result ≡ (monitor_at self.now.locks.monitors object).owner }
    {
        self.monitors.owner(object)
    }

    /// How often the owner of the monitor of an object has entered it.
    pub fn entries(&self, object: u32) -> u32
        requires { object < length self.now.locks.monitors }
        ensures { result ≡ (monitor_at self.now.locks.monitors object).count }
    {
        self.monitors.entries(object)
    }

    /// How many threads are in the wait set of an object.
    pub fn waiter_count(&self, object: u32) -> usize
        requires { object < length self.now.locks.monitors }
        ensures { result ≡ length (monitor_at self.now.locks.monitors object).waiters }
    {
        self.monitors.waiter_count(object)
    }

    /// The member of this number, in joining order from 0, of the wait set of an object.
    pub fn waiter(&self, object: u32, pick: usize) -> Option<Waiter>
        requires { object < length self.now.locks.monitors }
        ensures { result ≡ slice_get (monitor_at self.now.locks.monitors object).waiters pick }
    {
        self.monitors.waiter(object, pick)
    }

    /// The members of the wait set of an object, in joining order.
    pub fn waiters(&self, alloc: Global, object: u32) -> Result<Vec<Waiter>, AllocError>
        requires { object < length self.now.locks.monitors }
        ensures { IfOk result (λ v. v.items ≡ (monitor_at self.now.locks.monitors object).waiters) }
    {
        self.monitors.waiters(alloc, object)
    }

    /// The thread enters the monitor of an object once, where it has no owner or is the thread's (JLS 17.1).
    pub fn enter(&mut self, object: u32, thread: u16) -> Result<MonitorAnswer, MonitorRefusal>
        requires { IsAllowed (Call.Enter object thread) self.old.locks }
        ensures { HandsOn result (Call.Enter object thread) self.old self.new }
    {
        self.monitors.enter(object, thread)
    }

    /// The thread leaves the monitor once, if it is the owner.
    pub fn exit(&mut self, object: u32, thread: u16) -> MonitorAnswer
        requires { IsAllowed (Call.Exit object thread) self.old.locks }
        ensures { HandsOn (Ok result) (Call.Exit object thread) self.old self.new }
    {
        self.monitors.exit(object, thread)
    }

    /// The thread joins the wait set with its entries, and the monitor has no owner, if the thread is the owner (JLS
    /// 17.2.1).
    pub fn wait(&mut self, object: u32, thread: u16) -> Result<MonitorAnswer, MonitorRefusal>
        requires { IsAllowed (Call.Wait object thread) self.old.locks }
        ensures { HandsOn result (Call.Wait object thread) self.old self.new }
    {
        self.monitors.wait(object, thread)
    }

    /// The member of this number leaves the wait set, if the thread is the owner (JLS 17.2.2).
    pub fn notify(&mut self, object: u32, thread: u16, pick: u16) -> MonitorAnswer
        requires { IsAllowed (Call.Notify object thread pick) self.old.locks }
        ensures { HandsOn (Ok result) (Call.Notify object thread pick) self.old self.new }
    {
        self.monitors.notify(object, thread, pick)
    }

    /// All members leave the wait set, if the thread is the owner (JLS 17.2.2).
    pub fn notify_all(&mut self, object: u32, thread: u16) -> MonitorAnswer
        requires { IsAllowed (Call.NotifyAll object thread) self.old.locks }
        ensures { HandsOn (Ok result) (Call.NotifyAll object thread) self.old self.new }
    {
        self.monitors.notify_all(object, thread)
    }

    /// All members leave the wait set, whoever the owner is.
    pub fn wake_all(&mut self, object: u32)
        requires { IsAllowed (Call.WakeAll object) self.old.locks }
        ensures { HandsOn (Ok MonitorAnswer.Done) (Call.WakeAll object) self.old self.new }
    {
        self.monitors.wake_all(object);
    }

    /// The thread leaves the wait set, if it is a member (JLS 17.2.3).
    pub fn interrupt(&mut self, object: u32, thread: u16)
        requires { IsAllowed (Call.Interrupt object thread) self.old.locks }
        ensures { HandsOn (Ok MonitorAnswer.Done) (Call.Interrupt object thread) self.old self.new }
    {
        self.monitors.interrupt(object, thread);
    }

    /// The thread enters as often as it had when it joined the wait set, where the monitor has no owner (JLS 17.2.1).
    pub fn relock(&mut self, object: u32, thread: u16, count: u32) -> MonitorAnswer
        requires { IsAllowed (Call.Relock object thread count) self.old.locks }
        ensures { HandsOn (Ok result) (Call.Relock object thread count) self.old self.new }
    {
        self.monitors.relock(object, thread, count)
    }
}

//! The parts of a heap as they are kept, and a heap that is made of such parts again.

ghost use Rattle.std.specs.Prelude.{◌≡◌, ℕ, ◌+◌, ◌<◌, ◌≤◌, length, IfOk, IfErr, OnOk, OnErr, IsTrue};
ghost use Rattle.heap.specs.Heap.{made, words_at, with_object, with_words, IsNotExtended, IsRefused, IsSameAt};

use crate::heap::{Heap, MOST_OPENING};
use crate::kind::ObjectKind;
use crate::layout;
use crate::refusal::AllocRefusal;
use std::alloc::AllocError;

impl Heap {
    /// How many of the objects belong to the opening state.
    pub fn opening(&self) -> u32
        ensures { result ≡ self.now.opening }
    {
        self.opening
    }

    /// How many cells were counted of the objects that were allocated since.
    pub fn counted(&self) -> u32
        ensures { result ≡ self.now.counted }
    {
        self.counted
    }

    /// Says how many cells were counted.
    pub fn set_counted(&mut self, counted: u32)
        requires { counted ≤ self.old.cell_limit }
        ensures { self.new ≡ record self.old { counted = counted } }
    {
        self.counted = counted;
    }

    /// How many more objects may be allocated, in all.
    pub fn object_limit(&self) -> u32
        ensures { result ≡ self.now.object_limit }
    {
        self.object_limit
    }

    /// How many cells may be counted of these, together.
    pub fn cell_limit(&self) -> u32
        ensures { result ≡ self.now.cell_limit }
    {
        self.cell_limit
    }

    /// How many locks may be inflated.
    pub fn monitor_limit(&self) -> u32
        ensures { result ≡ self.now.locks.limit }
    {
        self.monitors.limit()
    }

    /// The fields or elements of an object; none of one that is not there.
    #[inline]
    pub fn words(&self, object: u32) -> &[u32]
        ensures { result.now ≡ words_at self.now.objects object }
    {
        layout::words(self.table.as_slice(), self.cells.as_slice(), object)
    }

    /// How many objects both have, from the first on.
    fn both(&self, other: &Heap) -> u32
        ensures one { result ≤ length self.now.objects }
        ensures monitors { result ≤ length self.now.locks.monitors }
        ensures other { result ≤ length other.now.objects }
        ensures others { result ≤ length other.now.locks.monitors }
    {
        let one = self.len();
        let other = other.len();
        if one < other { one } else { other }
    }

    /// Whether an object and its monitor, for which no thread waits, are the same in another heap, in both of which the
    /// object is. What is not found to be the same may be so.
    #[inline]
    fn is_same_at(&self, other: &Heap, object: u32) -> bool
        requires one { object < length self.now.locks.monitors }
        requires other { object < length other.now.locks.monitors }
        ensures { IsTrue result → IsSameAt object self.now other.now }
    {
        self.monitors.is_same_at(&other.monitors, object)
            && layout::is_same_object(
                self.table.as_slice(),
                self.cells.as_slice(),
                other.table.as_slice(),
                other.cells.as_slice(),
                object,
            )
    }

    /// The first object, from this one on, that may differ in another heap, it or its monitor; or the one behind the
    /// last that both have.
    pub fn same_until(&self, other: &Heap, from: u32) -> u32
        ensures same { (object : ℕ) → from ≤ object → object < result → IsSameAt object self.now other.now }
        ensures there { from ≤ length self.now.objects → result ≤ length self.now.objects }
        ensures from { from ≤ result }
        ensures both { from ≤ length other.now.objects → result ≤ length other.now.objects }
    {
        let count = self.both(other);
        let mut object = from;
        'objects: while object < count {
            if self.is_same_at(other, object) {
                object += 1;
            } else {
                return object;
            }
        }
        object
    }

    /// One more object of the opening state, with these words, to which all objects before it belong too. On an error,
    /// a want of memory, nothing has changed.
    pub fn add_opening_words(&mut self, kind: ObjectKind, words: &[u32]) -> Result<(), AllocError>
        requires there { length self.old.objects < MOST_OPENING }
        requires words { length words.now < 4294967296 }
        ensures ok { OnOk result (self.new
            ≡ record (with_object self.old (record { kind = kind; words = words.now }) 0) {
              opening = length self.old.objects + 1;
              counted = 0;
            }) }
        ensures err { OnErr result (self.new ≡ self.old) }
    {
        let reference = self.len();
        layout::add_words(
            &mut self.table,
            &mut self.cells,
            &mut self.monitors,
            kind,
            words,
        )?;
        self.opening = reference + 1;
        self.counted = 0;
        Ok(())
    }

    /// One more object, with these words, where no limit stands. So many of the words count as cells. A refusal says
    /// which limit stands, or that there was no memory; nothing has changed then.
    pub fn add_words(
        &mut self,
        kind: ObjectKind,
        words: &[u32],
        counted: u32,
    ) -> Result<(), AllocRefusal>
        requires { length words.now < 4294967296 }
        ensures ok { OnOk result (self.new
            ≡ with_object self.old (record { kind = kind; words = words.now }) counted) }
        ensures opened { OnOk result (self.old.opening ≤ length self.old.objects) }
        ensures objects { OnOk result (made self.old < self.old.object_limit) }
        ensures cells { OnOk result (self.old.counted + counted ≤ self.old.cell_limit) }
        ensures err { IfErr result (λ refusal. IsRefused refusal counted self.old self.new) }
    {
        if self.objects_left() == 0 {
            return Err(AllocRefusal::Objects);
        }
        if self.cells_left() < counted {
            return Err(AllocRefusal::Cells);
        }
        layout::add_words(
            &mut self.table,
            &mut self.cells,
            &mut self.monitors,
            kind,
            words,
        )?;
        self.counted += counted;
        Ok(())
    }

    /// An object has these words, too, behind those that it has. All of them count as cells. A refusal says that the limit
    /// on cells stands, or that there was no memory; nothing has changed then.
    pub fn extend(&mut self, object: u32, words: &[u32]) -> Result<(), AllocRefusal>
        requires there { object < length self.old.objects }
        requires fits { length (words_at self.old.objects object) + length words.now < 4294967296 }
        ensures ok { OnOk result (self.new ≡ with_words self.old object words.now) }
        ensures cells { OnOk result (self.old.counted + length words.now ≤ self.old.cell_limit) }
        ensures err { IfErr result (λ refusal. IsNotExtended refusal (length words.now) self.old self.new) }
    {
        if words.len() > self.cells_left() as usize {
            return Err(AllocRefusal::Cells);
        }
        layout::extend(&mut self.table, &mut self.cells, object, words)?;
        self.counted += words.len() as u32;
        Ok(())
    }

    /// What another heap is, in the room of this one. The only error is a want of memory.
    pub fn copied(self, other: &Heap) -> Result<Heap, AllocError>
        ensures { IfOk result (λ heap. heap ≡ other.now) }
    {
        let Heap {
            mut table,
            mut cells,
            monitors,
            opening: _opening,
            counted: _counted,
            object_limit: _object_limit,
            cell_limit: _cell_limit,
        } = self;
        table.clear();
        table.extend_from_slice(other.table.as_slice())?;
        cells.clear();
        cells.extend_from_slice(other.cells.as_slice())?;
        Ok(Heap {
            table,
            cells,
            monitors: monitors.copied(&other.monitors)?,
            opening: other.opening,
            counted: other.counted,
            object_limit: other.object_limit,
            cell_limit: other.cell_limit,
        })
    }
}

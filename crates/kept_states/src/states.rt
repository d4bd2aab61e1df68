//! The states that are kept.

ghost use Rattle.std.specs.Prelude.{◌≡◌, ℕ, List, [], ◌∷◌, Some, length, slice_get, IfSome, IfOk, OnOk};
ghost use Rattle.kept_parts.specs.Heaps.{AreBefore, IsHeapWritten};
ghost use Rattle.kept_states.specs.States.{IsStateRow};
ghost use Rattle.kept_states.specs.Kept.{IsNumbered, IsState, IsRowMade, IsStateAdded};

use crate::globals::globals_number;
use crate::numbered::Numbered;
use crate::reading::{part, read_numbered};
use crate::threads::push_threads;
use kept_parts::heap_rows::{NumberedHeap, fat_number, heap_number};
use kept_parts::rows::push;
use machine_state::Shared;
use std::alloc::{AllocError, Global};
use word_table::WordTable;

/// States by their numbers. Each is a list of numbers of its parts, and each part is written once.
#[derive(Drop)]
pub struct KeptStates {
    pub alloc: Global,
    /// The rows of parts, and lists of their numbers.
    pub parts: WordTable,
    /// The rows of states.
    pub states: WordTable,
    /// By the number of a state: that of the flags of its inflated locks.
    pub fat: Vec<u32>,
    /// Room for the row of a part.
    pub row: Vec<u32>,
    /// The row of the state that was written last.
    pub state: Vec<u32>,
    /// Room for the numbers of objects.
    pub numbers: Vec<u32>,
}

/// The heap of a state before, with its numbers.
#[tactic(auto, using(crate::proofs::Written::heap_is_before))]
fn heap_before(before: Option<&Numbered>) -> Option<NumberedHeap<'_>>
    ensures { (parts : List (List ℕ)) → IfSome before.entry (λ b. IsNumbered parts b.now)
        → IfSome result (AreBefore parts) }
{
    match before {
        Some(before) => Some(NumberedHeap {
            heap: &before.shared.heap,
            objects: before.objects.as_slice(),
            number: before.heap,
        }),
        None => None,
    }
}

/// Writes the heap of a state.
fn written_heap(
    parts: &mut WordTable,
    row: &mut Vec<u32>,
    numbers: &mut Vec<u32>,
    shared: &Shared,
    before: Option<&Numbered>,
) -> Result<u32, AllocError>
    requires { IfSome before (λ b. IsNumbered parts.old b.now) }
    ensures { IfOk result (λ number. IsHeapWritten shared.now.heap number numbers.new.items parts.old parts.new) }
{
    heap_number(parts, row, numbers, &shared.heap, heap_before(before))
}

/// Two words alone.
fn set_two(state: &mut Vec<u32>, first: u32, second: u32) -> Result<(), AllocError>
    ensures { OnOk result (state.new.items ≡ first ∷ second ∷ []) }
{
    state.clear();
    push(state, first)?;
    push(state, second)
}

/// The number of the flags of a state, if it is kept.
fn flags_at(fat: &[u32], number: u32) -> Option<u32>
    ensures { result ≡ slice_get fat.now number }
{
    fat.get(number as usize).copied()
}

impl KeptStates {
    /// No state. The only error is a want of memory.
    pub fn new(alloc: Global) -> Result<KeptStates, AllocError>
        ensures states { IfOk result (λ k. k.states ≡ []) }
        ensures fat { IfOk result (λ k. k.fat.items ≡ []) }
    {
        Ok(KeptStates {
            alloc,
            parts: WordTable::new(alloc)?,
            states: WordTable::new(alloc)?,
            fat: Vec::new(alloc),
            row: Vec::new(alloc),
            state: Vec::new(alloc),
            numbers: Vec::new(alloc),
        })
    }

    /// How many states are kept.
    pub fn len(&self) -> u32
        ensures { result ≡ length self.now.states }
    {
        self.states.len()
    }

    /// Writes the parts of a state, and makes its row. Those that are the same in the state before keep their numbers.
    /// On an error, a want of memory, nothing is claimed.
    pub fn write(&mut self, shared: &Shared, before: Option<&Numbered>) -> Result<(), AllocError>
        requires { IfSome before (λ b. IsNumbered self.old.parts b.now) }
        ensures { OnOk result (IsRowMade shared.now self.old self.new) }
    {
        let globals = globals_number(&mut self.parts, &mut self.row, shared, before)?;
        let heap = written_heap(
            &mut self.parts,
            &mut self.row,
            &mut self.numbers,
            shared,
            before,
        )?;
        set_two(&mut self.state, globals, heap)?;
        push_threads(
            &mut self.parts,
            &mut self.row,
            &mut self.state,
            shared,
            before,
        )
    }

    /// The number of a kept state that is the same as the one that was written last, if one is found.
    pub fn find(&self) -> Option<u32>
        ensures { IfSome result (λ number. slice_get self.now.states number ≡ Some self.now.state.items) }
    {
        self.states.find(self.state.as_slice())
    }

    /// Keeps the state that was written last. On an error, a want of memory, nothing is claimed.
    #[tactic(auto, using(crate::proofs::Written::state_added))]
    pub fn push(&mut self, shared: &Shared) -> Result<u32, AllocError>
        requires row { IsStateRow self.old.parts self.old.state.items shared.now }
        requires flags { length shared.now.heap.locks.fat ≡ length shared.now.heap.objects }
        ensures { IfOk result (λ number. IsStateAdded number shared.now self.old self.new) }
    {
        let fat = fat_number(&mut self.parts, &mut self.row, &shared.heap)?;
        self.fat.push(fat)?;
        self.states.push(self.state.as_slice())
    }

    /// The state of a number. An error where there is none, or where memory is wanting.
    pub fn read(&self, number: u32) -> Result<Numbered, AllocError>
        ensures state { IfOk result (λ n. IsState self.now number n.shared) }
        ensures numbered { IfOk result (IsNumbered self.now.parts) }
    {
        let row = part(&self.states, number)?;
        match flags_at(self.fat.as_slice(), number) {
            Some(fat) => read_numbered(self.alloc, &self.parts, row, fat),
            None => Err(AllocError),
        }
    }
}

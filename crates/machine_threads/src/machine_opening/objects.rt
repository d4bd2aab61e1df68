//! The objects that there are before any event.

ghost use Rattle.std.specs.Prelude.{◌≡◌, ◌+◌, ◌<◌, ◌≤◌, [], ◌∷◌, length, map, replicate, OnOk, IfOk};
ghost use Rattle.heap.specs.Heap.{fresh};
ghost use Rattle.heap.specs.declared.kind.ObjectKind.{ObjectKind};
ghost use Rattle.machine_threads.specs.machine_opening.Opened.{AddsObjects, opened, first_objects, main_thread, opening_objects};
ghost use Rattle.machine_threads.specs.machine_opening.Opened.{string_object};

use heap::{Heap, ObjectKind};
use linked_code::LinkedProgram;
use model::Limits;
use model::built_in::{CLASS, PRINT_STREAM, STRING, THREAD};
use std::alloc::{AllocError, Global};

/// Adds an object, behind those of the opening state that are there.
fn add(heap: &mut Heap, kind: ObjectKind, count: u32) -> Result<(), AllocError>
    requires { length heap.old.objects < 294967295 }
    ensures { OnOk result (AddsObjects (fresh kind count ∷ []) heap.old heap.new) }
{
    heap.add_opening(kind, count)?;
    Ok(())
}

/// Adds so many instances of a class without fields.
fn add_instances(heap: &mut Heap, class: u32, count: u32) -> Result<(), AllocError>
    requires { length heap.old.objects + count ≤ 294967295 }
    ensures { OnOk result (AddsObjects (replicate count (fresh (ObjectKind.Instance class) 0)) heap.old heap.new) }
{
    for _ in 0..count {
        add(heap, ObjectKind::Instance { class }, 0)?;
    }
    Ok(())
}

/// The units of a text as words. A text of 2^32 units has no room in a heap.
fn words_of(alloc: Global, text: &[u16]) -> Result<Vec<u32>, AllocError>
    ensures words { IfOk result (λ words. words.items ≡ text.now) }
    ensures few { IfOk result (λ words. length words.items < 4294967296) }
{
    if text.len() >= 0x1_0000_0000 {
        return Err(AllocError);
    }
    let mut words = Vec::with_capacity(alloc, text.len())?;
    for unit in text {
        words.push(u32::from(*unit))?;
    }
    Ok(words)
}

/// Adds a String of a text, behind the objects of the opening state that are there.
fn add_string(alloc: Global, heap: &mut Heap, text: &[u16]) -> Result<(), AllocError>
    requires { length heap.old.objects < 294967295 }
    ensures { OnOk result (AddsObjects (string_object text.now ∷ []) heap.old heap.new) }
{
    let words = words_of(alloc, text)?;
    let kind = ObjectKind::Instance {
        class: STRING as u32,
    };
    heap.add_opening_words(kind, &words)
}

/// Adds a String for each text.
fn add_strings(alloc: Global, heap: &mut Heap, texts: &[Vec<u16>]) -> Result<(), AllocError>
    requires { length heap.old.objects + length texts.now ≤ 294967295 }
    ensures { OnOk result (AddsObjects (map (λ text. string_object text.items) texts.now) heap.old heap.new) }
{
    for text in texts {
        add_string(alloc, heap, text)?;
    }
    Ok(())
}

/// Adds the Thread of main: its target, its name, its number and its priority.
fn add_main_thread(heap: &mut Heap, name: u32) -> Result<(), AllocError>
    requires { length heap.old.objects < 294967295 }
    ensures { OnOk result (AddsObjects (main_thread name ∷ []) heap.old heap.new) }
{
    let kind = ObjectKind::Instance {
        class: THREAD as u32,
    };
    heap.add_opening_words(kind, &[0, name, 0, 0])
}

/// Adds the PrintStream of System.out, the array that main gets, and the Thread of main, whose name has this word.
fn add_first(heap: &mut Heap, string_component: u32, name: u32) -> Result<(), AllocError>
    requires { length heap.old.objects + 3 ≤ 294967295 }
    ensures { OnOk result (AddsObjects (first_objects string_component name) heap.old heap.new) }
{
    let print_stream = ObjectKind::Instance {
        class: PRINT_STREAM as u32,
    };
    let arguments = ObjectKind::References {
        of: string_component,
    };
    add(heap, print_stream, 0)?;
    add(heap, arguments, 0)?;
    add_main_thread(heap, name)
}

/// The objects of the opening state: behind the first ones a Class for each class, a String for each text of a
/// constant, and the PrintStream of System.err.
pub(crate) fn opening_heap(
    alloc: Global,
    program: &LinkedProgram,
    limits: Limits,
) -> Result<Heap, AllocError>
    requires { length (opening_objects program.now) ≤ 294967295 }
    ensures { IfOk result (λ heap. heap ≡ opened limits (opening_objects program.now)) }
{
    let mut heap = Heap::new(alloc, limits);
    add_first(&mut heap, program.string_component, program.main_text)?;
    add_instances(&mut heap, CLASS as u32, program.classes.len() as u32)?;
    add_strings(alloc, &mut heap, &program.texts)?;
    add_instances(&mut heap, PRINT_STREAM as u32, 1)?;
    Ok(heap)
}

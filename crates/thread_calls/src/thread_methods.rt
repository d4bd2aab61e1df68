//! Which method that waits for threads, or finds, starts or interrupts them, the call of a frame runs (JVMS 6.5
//! invokevirtual, invokespecial, invokestatic, invokeinterface).
//!
//! # Proved
//!
//! - `thread_method_called`: in each state to which a run of the accepted class files led and whose words are shown, of
//!   a thread that stands at an instruction in the frame, the method of Object or Thread that the call runs, of those
//!   that are told (`ThreadMethod`), and none where it runs none of them: by the names of the class files, that of the
//!   definitions (`built_in_at`).
//!
//! # Not proved
//!
//! - That the event is done, and doesn't throw, is asked elsewhere.
//!
//! # Wrong bodies
//!
//! - `thread_methods-interface-is-not-asked`: a receiver that doesn't implement the interface runs the method that its
//!   class selects; refused by `interface_method`.
//! - `thread_methods-null-is-a-thread`: a call on null runs the method that is named; refused by `special_called`.
//! - `thread_methods-static-runs-none`: a call of `interrupted` is told as none; refused by `static_in`.

ghost use Rattle.std.specs.Prelude.{◌≡◌, Some};
ghost use Rattle.constant_pool.specs.View.{reference_of};
ghost use Rattle.class_tree.specs.View.{file_of};
ghost use Rattle.model.specs.Calls.{special_class as special_class_of};
ghost use Rattle.model.specs.Lookup.{find_interface_method, find_method};
ghost use Rattle.model.specs.Classes.{name_of};
ghost use Rattle.model.specs.Names.{Member, constructor_name, name_eq};
ghost use Rattle.model.specs.Pool.{interface_method_at, method_at};
ghost use Rattle.model.specs.Tree.{FileTree};
ghost use Rattle.hierarchy.specs.Places.{class_at};
ghost use Rattle.method_tables.specs.method_links.Methods.{Names};
ghost use Rattle.method_tables.specs.selection_tables.Chosen.{IsChosenBy};
ghost use Rattle.thread_stacks.specs.Stacks.{shown_frame};
ghost use Rattle.next_accesses.specs.accesses.Accesses.{object_under};
ghost use Rattle.thread_calls.specs.thread_methods.Called as called;
ghost use Rattle.thread_calls.specs.thread_methods.Called.{CallsBy, CallsIn, CallsInterface, CallsSpecial};
ghost use Rattle.thread_calls.specs.thread_methods.Called.{CallsStatic, CallsVirtual};
ghost use Rattle.thread_calls.specs.thread_methods.Called.{TellsAbove, TellsMethod, TellsChosen, TellsOwn};
ghost use Rattle.thread_calls.specs.thread_methods.Called.{TellsInterface, TellsVirtual, method_in};

use crate::call_tables::CallTables;
use classfile::{ClassFile, Reference, class_name};
use heap::Heap;
use hierarchy::ClassSet;
use linked_code::{BuiltInMethod, LinkedProgram, MethodBody};
use machine_state::Shared;
use machine_state::linked_frames::tops_are_shown;
use machine_state::method_selection::{class_of_kind, methods_are_read, methods_are_run};
use method_tables::selection_tables::chosen_method;
use model::{Instr, Invocation};
use next_accesses::read_operands::operands_are_read;
use run_laws::soundness::no_event_is_wrong;
use run_laws::word_operands::receivers_fit;
use thread_stacks::Frame;

/// A method of Object or Thread without code that waits for threads, or finds, starts or interrupts them.
#[derive(Clone, Copy, PartialEq, Eq)]
pub enum ThreadMethod {
    Wait,
    Start,
    Interrupt,
    IsInterrupted,
    Interrupted,
    Join,
    IsAlive,
}

/// The object of the operand under so many others, if that is not null.
fn object_at(frame: &Frame<'_>, under: usize) -> Option<u32>
    ensures { result ≡ object_under (shown_frame frame.now).operands under }
{
    frame.operand(under).checked_sub(1)
}

// ---- by numbers

/// The one that a built-in method is, if it is one.
fn thread_method_of(method: BuiltInMethod) -> Option<ThreadMethod>
    ensures { result ≡ called.thread_method_of method }
{
    match method {
        BuiltInMethod::ObjectWait => Some(ThreadMethod::Wait),
        BuiltInMethod::ThreadStart => Some(ThreadMethod::Start),
        BuiltInMethod::ThreadInterrupt => Some(ThreadMethod::Interrupt),
        BuiltInMethod::ThreadIsInterrupted => Some(ThreadMethod::IsInterrupted),
        BuiltInMethod::ThreadInterrupted => Some(ThreadMethod::Interrupted),
        BuiltInMethod::ThreadJoin => Some(ThreadMethod::Join),
        BuiltInMethod::ThreadIsAlive => Some(ThreadMethod::IsAlive),
        _ => None,
    }
}

fn body_method(body: &MethodBody) -> Option<ThreadMethod>
    ensures { result ≡ called.body_method body.now }
{
    match body {
        MethodBody::BuiltIn(method) => thread_method_of(*method),
        MethodBody::Abstract | MethodBody::Code(_) => None,
    }
}

fn method_row(program: &LinkedProgram, number: usize) -> Option<ThreadMethod>
    ensures { result ≡ method_in program.now number }
{
    match program.methods.get(number) {
        Some(row) => body_method(&row.body),
        None => None,
    }
}

/// The one of the method of a number that is chosen.
fn method_at_number(
    tables: &CallTables<'_>,
    program: &LinkedProgram,
    number: usize,
) -> Option<ThreadMethod>
    ensures { TellsChosen tables.now.linked.now program.now number result }
{
    methods_are_run();
    let _ = tables.linked;
    method_row(program, number)
}

/// The number of the method that a receiver of the class of a number runs, where a call is of the method of a number.
fn chosen(tables: &CallTables<'_>, class: usize, callee: usize) -> usize
    ensures { IsChosenBy tables.now.linked.now class callee result }
{
    let set = tables.linked.hierarchy().set();
    chosen_method(set, &tables.numbers, &tables.selected, class, callee)
}

/// The one that an object's class selects, where a call is of the method of a number.
fn virtual_method(
    tables: &CallTables<'_>,
    program: &LinkedProgram,
    heap: &Heap,
    callee: usize,
    object: u32,
) -> Option<ThreadMethod>
    ensures { TellsVirtual tables.now.linked.now program.now heap.now.objects callee object result }
{
    let Some(kind) = heap.class_of(object) else {
        return None;
    };
    let number = chosen(tables, class_of_kind(kind) as usize, callee);
    method_at_number(tables, program, number)
}

/// The same where the object has to implement an interface.
fn interface_method(
    tables: &CallTables<'_>,
    program: &LinkedProgram,
    heap: &Heap,
    callee: usize,
    object: u32,
    interface: &[u8],
) -> Option<ThreadMethod>
    ensures { TellsInterface tables.now.linked.now program.now heap.now.objects callee object interface.now
        result }
{
    let Some(kind) = heap.class_of(object) else {
        return None;
    };
    let class = class_of_kind(kind) as usize;
    let hierarchy = tables.linked.hierarchy();
    if hierarchy.is_subclass_or_implements(hierarchy.set().name_at(class), interface) {
        method_at_number(tables, program, chosen(tables, class, callee))
    } else {
        None
    }
}

// ---- by what a call names

/// Under how many operands the receiver of a method of a descriptor lies, where it may be one of those that are told:
/// these have no parameters.
fn receiver_depth(descriptor: &[u8]) -> Option<usize>
    ensures { result ≡ called.receiver_depth descriptor.now }
{
    if descriptor == b"()V".as_slice() || descriptor == b"()Z".as_slice() {
        Some(0)
    } else {
        None
    }
}

/// The same of the method that is named.
fn depth_of(named: Reference<'_>) -> Option<usize>
    ensures { result ≡ called.receiver_depth (reference_of named.entry).descriptor }
{
    receiver_depth(named.descriptor)
}

/// Whether a constructor is named (JVMS 2.9.1).
fn is_constructor(named: Reference<'_>) -> bool
    ensures { result ≡ name_eq (reference_of named.entry).name constructor_name }
{
    named.name == b"<init>".as_slice()
}

/// The one that `invokevirtual` runs, by the method that it names and the number of the one that is found.
fn virtual_called(
    tables: &CallTables<'_>,
    program: &LinkedProgram,
    heap: &Heap,
    frame: &Frame<'_>,
    named: Reference<'_>,
    callee: Option<usize>,
) -> Option<ThreadMethod>
    requires { Names tables.now.linked.now callee
        (find_method tables.now.linked.now (reference_of named)) }
    ensures { CallsVirtual tables.now.linked.now program.now heap.now.objects (shown_frame frame.now).operands
        (reference_of named.entry) result }
{
    let Some(depth) = depth_of(named) else {
        return None;
    };
    let Some(object) = object_at(frame, depth) else {
        return None;
    };
    let Some(callee) = callee else {
        return None;
    };
    virtual_method(tables, program, heap, callee, object)
}

/// The one that `invokeinterface` runs.
fn interface_called(
    tables: &CallTables<'_>,
    program: &LinkedProgram,
    heap: &Heap,
    frame: &Frame<'_>,
    named: Reference<'_>,
    callee: Option<usize>,
) -> Option<ThreadMethod>
    requires { Names tables.now.linked.now callee
        (find_interface_method tables.now.linked.now (reference_of named)) }
    ensures { CallsInterface tables.now.linked.now program.now heap.now.objects (shown_frame frame.now).operands
        (reference_of named.entry) result }
{
    let Some(depth) = depth_of(named) else {
        return None;
    };
    let Some(object) = object_at(frame, depth) else {
        return None;
    };
    let Some(callee) = callee else {
        return None;
    };
    interface_method(tables, program, heap, callee, object, named.class)
}

/// The class at which selection begins: above the current one, where another class above that is named.
fn special_class<'a>(set: &'a ClassSet, current: &[u8], named: &'a [u8]) -> &'a [u8]
    ensures { result.now ≡ special_class_of set.now current.now named.now }
{
    if current != named && set.is_subclass(current, named) {
        set.superclass_of(current).unwrap_or(named)
    } else {
        named
    }
}

/// The one that is selected from the class of a name upwards.
fn method_above(
    tables: &CallTables<'_>,
    program: &LinkedProgram,
    class: &[u8],
    callee: usize,
) -> Option<ThreadMethod>
    ensures { TellsAbove tables.now.linked.now program.now class.now callee result }
{
    let set = tables.linked.hierarchy().set();
    match set.place_of(class) {
        Some(first) => method_at_number(tables, program, chosen(tables, first, callee)),
        None => None,
    }
}

/// The one that is the method of a number itself.
fn own_method(
    tables: &CallTables<'_>,
    program: &LinkedProgram,
    callee: usize,
) -> Option<ThreadMethod>
    ensures { TellsOwn tables.now.linked.now program.now callee result }
{
    methods_are_read();
    let _ = tables.linked;
    method_row(program, callee)
}

/// The one that `invokespecial` runs in the methods of a class.
fn special_called(
    tables: &CallTables<'_>,
    program: &LinkedProgram,
    frame: &Frame<'_>,
    current: &[u8],
    named: Reference<'_>,
    callee: Option<usize>,
) -> Option<ThreadMethod>
    requires { Names tables.now.linked.now callee
        (find_method tables.now.linked.now (reference_of named)) }
    ensures { CallsSpecial tables.now.linked.now program.now (shown_frame frame.now).operands current.now
        (reference_of named.entry) result }
{
    let Some(depth) = depth_of(named) else {
        return None;
    };
    let Some(_object) = object_at(frame, depth) else {
        return None;
    };
    let Some(callee) = callee else {
        return None;
    };
    if is_constructor(named) {
        return own_method(tables, program, callee);
    }
    let set = tables.linked.hierarchy().set();
    let class = special_class(set, current, named.class);
    method_above(tables, program, class, callee)
}

/// The one that `invokevirtual` runs, whose operand is an index in the pool of the class at a place.
fn virtual_in(
    tables: &CallTables<'_>,
    program: &LinkedProgram,
    heap: &Heap,
    frame: &Frame<'_>,
    file: &ClassFile,
    class: usize,
    index: u16,
) -> Option<ThreadMethod>
    requires { Some (file_of file.now) ≡ class_at tables.now.linked.now class }
    ensures { (named : Member) → method_at (file_of file.now).pool index ≡ Some named
        → CallsVirtual tables.now.linked.now program.now heap.now.objects
        (shown_frame frame.now).operands named result }
{
    match file.method_reference(index) {
        Some(named) => {
            let callee = tables.named.named(class, index);
            virtual_called(tables, program, heap, frame, named, callee)
        }
        None => None,
    }
}

/// The one that `invokespecial` runs.
fn special_in(
    tables: &CallTables<'_>,
    program: &LinkedProgram,
    frame: &Frame<'_>,
    file: &ClassFile,
    class: usize,
    index: u16,
) -> Option<ThreadMethod>
    requires { Some (file_of file.now) ≡ class_at tables.now.linked.now class }
    ensures { (named : Member) → method_at (file_of file.now).pool index ≡ Some named
        → CallsSpecial tables.now.linked.now program.now (shown_frame frame.now).operands
        (name_of (file_of file.now)) named result }
{
    match file.method_reference(index) {
        Some(named) => {
            let callee = tables.named.named(class, index);
            special_called(tables, program, frame, class_name(file), named, callee)
        }
        None => None,
    }
}

/// The one that `invokestatic` runs.
fn static_in(
    tables: &CallTables<'_>,
    program: &LinkedProgram,
    class: usize,
    index: u16,
) -> Option<ThreadMethod>
    ensures { (file : FileTree) → class_at tables.now.linked.now class ≡ Some file
        → (named : Member) → method_at file.pool index ≡ Some named
        → CallsStatic tables.now.linked.now program.now named result }
{
    match tables.named.named(class, index) {
        Some(callee) => own_method(tables, program, callee),
        None => None,
    }
}

/// The one that `invokeinterface` runs.
fn interface_in(
    tables: &CallTables<'_>,
    program: &LinkedProgram,
    heap: &Heap,
    frame: &Frame<'_>,
    file: &ClassFile,
    class: usize,
    index: u16,
) -> Option<ThreadMethod>
    requires { Some (file_of file.now) ≡ class_at tables.now.linked.now class }
    ensures { (named : Member) → interface_method_at (file_of file.now).pool index ≡ Some named
        → CallsInterface tables.now.linked.now program.now heap.now.objects
        (shown_frame frame.now).operands named result }
{
    match file.interface_method_reference(index) {
        Some(named) => {
            let callee = tables.named.named(class, index);
            interface_called(tables, program, heap, frame, named, callee)
        }
        None => None,
    }
}

/// The one that the instruction of a method of a class runs.
fn called_by(
    tables: &CallTables<'_>,
    program: &LinkedProgram,
    heap: &Heap,
    frame: &Frame<'_>,
    file: &ClassFile,
    class: usize,
    instruction: Instr,
) -> Option<ThreadMethod>
    requires { Some (file_of file.now) ≡ class_at tables.now.linked.now class }
    ensures { CallsBy tables.now.linked.now program.now heap.now.objects (shown_frame frame.now).operands
        (file_of file.now) instruction result }
{
    match instruction {
        Instr::Invoke { invocation, index } => match invocation {
            Invocation::Virtual => virtual_in(tables, program, heap, frame, file, class, index),
            Invocation::Special => special_in(tables, program, frame, file, class, index),
            Invocation::Static => static_in(tables, program, class, index),
        },
        Instr::InvokeInterface { index, .. } => {
            interface_in(tables, program, heap, frame, file, class, index)
        }
        _ => None,
    }
}

/// The one that the instruction of a method of the class at a place runs.
fn called_in(
    tables: &CallTables<'_>,
    program: &LinkedProgram,
    heap: &Heap,
    frame: &Frame<'_>,
    class: usize,
    instruction: Instr,
) -> Option<ThreadMethod>
    ensures { CallsIn tables.now.linked.now program.now heap.now.objects (shown_frame frame.now).operands class
        instruction result }
{
    let set = tables.linked.hierarchy().set();
    match set.class_at(class) {
        Some(file) => called_by(tables, program, heap, frame, file, class, instruction),
        None => None,
    }
}

/// The one that the instruction of the frame on top of a thread calls, if it calls one.
pub fn thread_method_called(
    tables: &CallTables<'_>,
    program: &LinkedProgram,
    shared: &Shared,
    thread: u16,
    frame: &Frame<'_>,
    instruction: Instr,
) -> Option<ThreadMethod>
    ensures { TellsMethod tables.now.linked.now program.now shared.now thread (shown_frame frame.now) instruction
        result }
{
    receivers_fit();
    operands_are_read();
    tops_are_shown();
    no_event_is_wrong();
    match tables.numbers.place(frame.method as usize) {
        Some(place) => called_in(
            tables,
            program,
            &shared.heap,
            frame,
            place.class,
            instruction,
        ),
        None => None,
    }
}

//! Which method without code that may access variables the call of a frame runs (JVMS 6.5 invokevirtual, invokespecial,
//! invokeinterface).
//!
//! # Proved
//!
//! - `accessing_called`: in each state to which a run of the accepted class files led and whose words are shown, of a
//!   thread that stands at an instruction in the frame, the method without code of StringBuilder or of String that the
//!   call runs on its receiver, or `clone`, and none where it runs none: by the names of the class files, that of the
//!   definitions (`built_in_at`).
//!
//! # Not proved
//!
//! - That the event is done, and doesn't throw, is asked elsewhere.
//!
//! # Wrong bodies
//!
//! - `accessing_calls-interface-is-not-asked`: a receiver that doesn't implement the interface runs the method that its
//!   class selects; refused by `interface_accessing`.
//! - `accessing_calls-null-is-called`: a call on null runs the method that is named; refused by `special_called`.
//! - `accessing_calls-get-chars-has-three-parameters`: the receiver of `getChars` is sought above it; refused by
//!   `accessing_parameters`.

ghost use Rattle.std.specs.Prelude.{◌≡◌, Some};
ghost use Rattle.constant_pool.specs.View.{reference_of};
ghost use Rattle.class_tree.specs.View.{file_of};
ghost use Rattle.model.specs.Calls.{special_class as special_class_of};
ghost use Rattle.model.specs.Lookup.{find_interface_method, find_method};
ghost use Rattle.model.specs.Classes.{name_of};
ghost use Rattle.model.specs.Names.{Member, constructor_name, name_eq};
ghost use Rattle.model.specs.Pool.{interface_method_at, method_at};
ghost use Rattle.hierarchy.specs.Places.{class_at};
ghost use Rattle.method_tables.specs.method_links.Methods.{Names};
ghost use Rattle.method_tables.specs.selection_tables.Chosen.{IsChosenBy};
ghost use Rattle.thread_stacks.specs.Stacks.{shown_frame};
ghost use Rattle.next_accesses.specs.accessing_calls.Called as called;
ghost use Rattle.next_accesses.specs.accessing_calls.Called.{CallsBy, CallsIn, CallsInterface, CallsSpecial};
ghost use Rattle.next_accesses.specs.accessing_calls.Called.{CallsVirtual};
ghost use Rattle.next_accesses.specs.accessing_calls.Called.{TellsAbove, TellsAccessing, TellsChosen, TellsConstructor};
ghost use Rattle.next_accesses.specs.accessing_calls.Called.{TellsInterface, TellsVirtual, accessing_in};

use crate::access_tables::AccessTables;
use crate::accesses::object_at;
use crate::read_operands::operands_are_read;
use classfile::{ClassFile, Reference, class_name};
use heap::Heap;
use hierarchy::ClassSet;
use linked_code::{BuiltInMethod, LinkedProgram, MethodBody};
use machine_state::Shared;
use machine_state::linked_frames::tops_are_shown;
use machine_state::method_selection::{class_of_kind, methods_are_read, methods_are_run};
use method_tables::selection_tables::chosen_method;
use model::{BuilderMethod, Instr, Invocation, TextMethod};
use run_laws::soundness::no_event_is_wrong;
use run_laws::word_operands::receivers_fit;
use thread_stacks::Frame;

// ---- by numbers

/// A method without code that may access variables: one of StringBuilder, one that writes texts or takes them apart, or
/// `clone`.
#[derive(Clone, Copy, PartialEq, Eq)]
pub(crate) enum AccessingMethod {
    Builds(BuilderMethod),
    Writes(TextMethod),
    Clones,
}

/// The one that a built-in method is, if it is one.
fn accessing_of(method: BuiltInMethod) -> Option<AccessingMethod>
    ensures { result ≡ called.accessing_of method }
{
    match method {
        BuiltInMethod::StringBuilderBuilds(method) => Some(AccessingMethod::Builds(method)),
        BuiltInMethod::StringWrites(method) => Some(AccessingMethod::Writes(method)),
        BuiltInMethod::ObjectClone => Some(AccessingMethod::Clones),
        _ => None,
    }
}

fn body_accessing(body: &MethodBody) -> Option<AccessingMethod>
    ensures { result ≡ called.body_accessing body.now }
{
    match body {
        MethodBody::BuiltIn(method) => accessing_of(*method),
        MethodBody::Abstract | MethodBody::Code(_) => None,
    }
}

fn accessing_row(program: &LinkedProgram, number: usize) -> Option<AccessingMethod>
    ensures { result ≡ accessing_in program.now number }
{
    match program.methods.get(number) {
        Some(row) => body_accessing(&row.body),
        None => None,
    }
}

/// The one of the method of a number that is chosen.
fn accessing_at(
    tables: &AccessTables<'_>,
    program: &LinkedProgram,
    number: usize,
) -> Option<AccessingMethod>
    ensures { TellsChosen tables.now.linked.now program.now number result }
{
    methods_are_run();
    let _ = tables.linked;
    accessing_row(program, number)
}

/// The number of the method that a receiver of the class of a number runs, where a call is of the method of a number.
fn chosen(tables: &AccessTables<'_>, class: usize, callee: usize) -> usize
    ensures { IsChosenBy tables.now.linked.now class callee result }
{
    let set = tables.linked.hierarchy().set();
    chosen_method(set, &tables.numbers, &tables.selected, class, callee)
}

/// The one that an object's class selects, where a call is of the method of a number.
fn virtual_accessing(
    tables: &AccessTables<'_>,
    program: &LinkedProgram,
    heap: &Heap,
    callee: usize,
    object: u32,
) -> Option<AccessingMethod>
    ensures { TellsVirtual tables.now.linked.now program.now heap.now.objects callee object result }
{
    let Some(kind) = heap.class_of(object) else {
        return None;
    };
    let number = chosen(tables, class_of_kind(kind) as usize, callee);
    accessing_at(tables, program, number)
}

/// The same where the object has to implement an interface.
fn interface_accessing(
    tables: &AccessTables<'_>,
    program: &LinkedProgram,
    heap: &Heap,
    callee: usize,
    object: u32,
    interface: &[u8],
) -> Option<AccessingMethod>
    ensures { TellsInterface tables.now.linked.now program.now heap.now.objects callee object interface.now
        result }
{
    let Some(kind) = heap.class_of(object) else {
        return None;
    };
    let class = class_of_kind(kind) as usize;
    let hierarchy = tables.linked.hierarchy();
    if hierarchy.is_subclass_or_implements(hierarchy.set().name_at(class), interface) {
        accessing_at(tables, program, chosen(tables, class, callee))
    } else {
        None
    }
}

// ---- by what a call names

/// Whether it is the descriptor of such a method that has no parameters.
fn has_none(descriptor: &[u8]) -> bool
    ensures { result ≡ called.has_none descriptor.now }
{
    descriptor == b"()V".as_slice()
        || (descriptor == b"()Ljava/lang/String;".as_slice()
            || descriptor == b"()Ljava/lang/Object;".as_slice())
}

/// Whether it is the descriptor of such a method that has one parameter.
fn has_one(descriptor: &[u8]) -> bool
    ensures { result ≡ called.has_one descriptor.now }
{
    descriptor == b"(Ljava/lang/String;)V".as_slice()
        || (descriptor == b"(Ljava/lang/String;)Ljava/lang/StringBuilder;".as_slice()
            || (descriptor == b"(I)Ljava/lang/StringBuilder;".as_slice()
                || (descriptor == b"(C)Ljava/lang/StringBuilder;".as_slice()
                    || descriptor
                        == b"(Ljava/lang/StringBuilder;)Ljava/lang/StringBuilder;".as_slice())))
}

/// How many parameters a method of a descriptor has, where it may be one that accesses variables.
fn accessing_parameters(descriptor: &[u8]) -> Option<usize>
    ensures { result ≡ called.accessing_parameters descriptor.now }
{
    if has_none(descriptor) {
        Some(0)
    } else if has_one(descriptor) {
        Some(1)
    } else if descriptor == b"([CII)V".as_slice() {
        Some(3)
    } else if descriptor == b"(II[CI)V".as_slice() {
        Some(4)
    } else {
        None
    }
}

/// The same of the method that is named.
fn parameters_of(named: Reference<'_>) -> Option<usize>
    ensures { result ≡ called.accessing_parameters (reference_of named.entry).descriptor }
{
    accessing_parameters(named.descriptor)
}

/// Whether a constructor is named (JVMS 2.9.1).
fn is_constructor(named: Reference<'_>) -> bool
    ensures { result ≡ name_eq (reference_of named.entry).name constructor_name }
{
    named.name == b"<init>".as_slice()
}

/// The one that `invokevirtual` runs, by the method that it names and the number of the one that is found.
fn virtual_called(
    tables: &AccessTables<'_>,
    program: &LinkedProgram,
    heap: &Heap,
    frame: &Frame<'_>,
    named: Reference<'_>,
    callee: Option<usize>,
) -> Option<AccessingMethod>
    requires { Names tables.now.linked.now callee
        (find_method tables.now.linked.now (reference_of named)) }
    ensures { CallsVirtual tables.now.linked.now program.now heap.now.objects (shown_frame frame.now).operands
        (reference_of named.entry) result }
{
    let Some(parameters) = parameters_of(named) else {
        return None;
    };
    let Some(object) = object_at(frame, parameters) else {
        return None;
    };
    let Some(callee) = callee else {
        return None;
    };
    virtual_accessing(tables, program, heap, callee, object)
}

/// The one that `invokeinterface` runs.
fn interface_called(
    tables: &AccessTables<'_>,
    program: &LinkedProgram,
    heap: &Heap,
    frame: &Frame<'_>,
    named: Reference<'_>,
    callee: Option<usize>,
) -> Option<AccessingMethod>
    requires { Names tables.now.linked.now callee
        (find_interface_method tables.now.linked.now (reference_of named)) }
    ensures { CallsInterface tables.now.linked.now program.now heap.now.objects (shown_frame frame.now).operands
        (reference_of named.entry) result }
{
    let Some(parameters) = parameters_of(named) else {
        return None;
    };
    let Some(object) = object_at(frame, parameters) else {
        return None;
    };
    let Some(callee) = callee else {
        return None;
    };
    interface_accessing(tables, program, heap, callee, object, named.class)
}

/// The class at which selection begins: above the current one, where another class above that is named.
fn special_class<'a>(set: &'a ClassSet, current: &[u8], named: &'a [u8]) -> &'a [u8]
    ensures { result.now ≡ special_class_of set.now current.now named.now }
{
    if current != named && set.is_subclass(current, named) {
        set.superclass_of(current).unwrap_or(named)
    } else {
        named
    }
}

/// The one that is selected from the class of a name upwards.
fn accessing_above(
    tables: &AccessTables<'_>,
    program: &LinkedProgram,
    class: &[u8],
    callee: usize,
) -> Option<AccessingMethod>
    ensures { TellsAbove tables.now.linked.now program.now class.now callee result }
{
    let set = tables.linked.hierarchy().set();
    match set.place_of(class) {
        Some(first) => accessing_at(tables, program, chosen(tables, first, callee)),
        None => None,
    }
}

/// The one that is the constructor of a number.
fn accessing_constructor(
    tables: &AccessTables<'_>,
    program: &LinkedProgram,
    callee: usize,
) -> Option<AccessingMethod>
    ensures { TellsConstructor tables.now.linked.now program.now callee result }
{
    methods_are_read();
    let _ = tables.linked;
    accessing_row(program, callee)
}

/// The one that `invokespecial` runs in the methods of a class.
fn special_called(
    tables: &AccessTables<'_>,
    program: &LinkedProgram,
    frame: &Frame<'_>,
    current: &[u8],
    named: Reference<'_>,
    callee: Option<usize>,
) -> Option<AccessingMethod>
    requires { Names tables.now.linked.now callee
        (find_method tables.now.linked.now (reference_of named)) }
    ensures { CallsSpecial tables.now.linked.now program.now (shown_frame frame.now).operands current.now
        (reference_of named.entry) result }
{
    let Some(parameters) = parameters_of(named) else {
        return None;
    };
    let Some(_object) = object_at(frame, parameters) else {
        return None;
    };
    let Some(callee) = callee else {
        return None;
    };
    if is_constructor(named) {
        return accessing_constructor(tables, program, callee);
    }
    let set = tables.linked.hierarchy().set();
    let class = special_class(set, current, named.class);
    accessing_above(tables, program, class, callee)
}

/// The one that `invokevirtual` runs, whose operand is an index in the pool of the class at a place.
fn virtual_in(
    tables: &AccessTables<'_>,
    program: &LinkedProgram,
    heap: &Heap,
    frame: &Frame<'_>,
    file: &ClassFile,
    class: usize,
    index: u16,
) -> Option<AccessingMethod>
    requires { Some (file_of file.now) ≡ class_at tables.now.linked.now class }
    ensures { (named : Member) → method_at (file_of file.now).pool index ≡ Some named
        → CallsVirtual tables.now.linked.now program.now heap.now.objects
        (shown_frame frame.now).operands named result }
{
    match file.method_reference(index) {
        Some(named) => {
            let callee = tables.named.named(class, index);
            virtual_called(tables, program, heap, frame, named, callee)
        }
        None => None,
    }
}

/// The one that `invokespecial` runs.
fn special_in(
    tables: &AccessTables<'_>,
    program: &LinkedProgram,
    frame: &Frame<'_>,
    file: &ClassFile,
    class: usize,
    index: u16,
) -> Option<AccessingMethod>
    requires { Some (file_of file.now) ≡ class_at tables.now.linked.now class }
    ensures { (named : Member) → method_at (file_of file.now).pool index ≡ Some named
        → CallsSpecial tables.now.linked.now program.now (shown_frame frame.now).operands
        (name_of (file_of file.now)) named result }
{
    match file.method_reference(index) {
        Some(named) => {
            let callee = tables.named.named(class, index);
            special_called(tables, program, frame, class_name(file), named, callee)
        }
        None => None,
    }
}

/// The one that `invokeinterface` runs.
fn interface_in(
    tables: &AccessTables<'_>,
    program: &LinkedProgram,
    heap: &Heap,
    frame: &Frame<'_>,
    file: &ClassFile,
    class: usize,
    index: u16,
) -> Option<AccessingMethod>
    requires { Some (file_of file.now) ≡ class_at tables.now.linked.now class }
    ensures { (named : Member) → interface_method_at (file_of file.now).pool index ≡ Some named
        → CallsInterface tables.now.linked.now program.now heap.now.objects
        (shown_frame frame.now).operands named result }
{
    match file.interface_method_reference(index) {
        Some(named) => {
            let callee = tables.named.named(class, index);
            interface_called(tables, program, heap, frame, named, callee)
        }
        None => None,
    }
}

/// The one that the instruction of a method of a class runs.
fn called_by(
    tables: &AccessTables<'_>,
    program: &LinkedProgram,
    heap: &Heap,
    frame: &Frame<'_>,
    file: &ClassFile,
    class: usize,
    instruction: Instr,
) -> Option<AccessingMethod>
    requires { Some (file_of file.now) ≡ class_at tables.now.linked.now class }
    ensures { CallsBy tables.now.linked.now program.now heap.now.objects (shown_frame frame.now).operands
        (file_of file.now) instruction result }
{
    match instruction {
        Instr::Invoke { invocation, index } => match invocation {
            Invocation::Virtual => virtual_in(tables, program, heap, frame, file, class, index),
            Invocation::Special => special_in(tables, program, frame, file, class, index),
            Invocation::Static => None,
        },
        Instr::InvokeInterface { index, .. } => {
            interface_in(tables, program, heap, frame, file, class, index)
        }
        _ => None,
    }
}

/// The one that the instruction of a method of the class at a place runs.
fn called_in(
    tables: &AccessTables<'_>,
    program: &LinkedProgram,
    heap: &Heap,
    frame: &Frame<'_>,
    class: usize,
    instruction: Instr,
) -> Option<AccessingMethod>
    ensures { CallsIn tables.now.linked.now program.now heap.now.objects (shown_frame frame.now).operands class
        instruction result }
{
    let set = tables.linked.hierarchy().set();
    match set.class_at(class) {
        Some(file) => called_by(tables, program, heap, frame, file, class, instruction),
        None => None,
    }
}

/// The method without code that may access variables and that the instruction of the frame on top of a thread calls, if
/// it calls one.
pub(crate) fn accessing_called(
    tables: &AccessTables<'_>,
    program: &LinkedProgram,
    shared: &Shared,
    thread: u16,
    frame: &Frame<'_>,
    instruction: Instr,
) -> Option<AccessingMethod>
    ensures { TellsAccessing tables.now.linked.now program.now shared.now thread (shown_frame frame.now) instruction
        result }
{
    receivers_fit();
    operands_are_read();
    tops_are_shown();
    no_event_is_wrong();
    match tables.numbers.place(frame.method as usize) {
        Some(place) => called_in(
            tables,
            program,
            &shared.heap,
            frame,
            place.class,
            instruction,
        ),
        None => None,
    }
}

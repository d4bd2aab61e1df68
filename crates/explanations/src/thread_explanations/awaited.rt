//! For what threads wait (JVMS 2.11.10, 5.5; JLS 17).

ghost use Rattle.std.specs.Prelude.{◌≡◌};
ghost use Rattle.heap.specs.java_threads.Statuses.{status_of};
ghost use Rattle.thread_stacks.specs.Stacks.{shown_frame};
ghost use Rattle.model.specs.Monitors.{monitor_at};
ghost use Rattle.model.specs.Report.{end_state_of};
ghost use Rattle.machine_threads.specs.instruction_needs.Needs.{class_in as needed};
ghost use Rattle.explanations.specs.thread_explanations.Waits as waits;

use heap::Heap;
use heap::java_threads::ThreadStatus;
use linked_code::{LinkedInstruction, LinkedProgram, MethodBody};
use machine_state::method_selection::method_at;
use machine_state::{ClassStatus, Shared};
use model::EndState;
use model::built_in::MAIN_THREAD;
use thread_stacks::{Frame, ThreadStack, Top};
use traces::class_object_of;

/// For what a thread waits. Objects and classes are given by their numbers.
#[derive(Clone, Copy)]
pub enum Awaited {
    Nothing,
    /// The time when no other thread owns the monitor of an object.
    Monitor(u32),
    /// The time when no other thread owns it, to go on from a wait.
    MonitorAgain(u32),
    /// A notification, in the wait set of an object.
    Notification(u32),
    /// The end of the thread of a Thread object.
    End(u32),
    /// The initialisation of a class.
    Class(u16),
}

/// The object of the reference under so many operands of the frame on top.
fn object_under(stack: &ThreadStack, operands: usize) -> Option<u32>
    ensures { result ≡ waits.object_under operands stack.now }
{
    match stack.frame() {
        Some(frame) => frame.operand(operands).checked_sub(1),
        None => None,
    }
}

/// The Class object of the class that declares a method.
fn class_object(program: &LinkedProgram, method: u32) -> Option<u32>
    ensures { result ≡ waits.class_object program.now method }
{
    match method_at(program, method) {
        Some(row) => Some(class_object_of(row.class)),
        None => None,
    }
}

/// The instruction at a place of a body.
fn instruction_of(body: &MethodBody, place: usize) -> Option<LinkedInstruction>
    ensures { result ≡ waits.instruction_of body.now place }
{
    match body {
        MethodBody::Code(code) => code.instructions.get(place).copied(),
        MethodBody::Abstract | MethodBody::BuiltIn(_) => None,
    }
}

/// The instruction at which a frame stands.
fn instruction_in(program: &LinkedProgram, frame: &Frame<'_>) -> Option<LinkedInstruction>
    ensures { result ≡ waits.instruction_in program.now (shown_frame frame.now) }
{
    match method_at(program, frame.method) {
        Some(row) => instruction_of(&row.body, frame.place),
        None => None,
    }
}

/// The instruction at which the frame on top stands.
fn instruction_on_top(program: &LinkedProgram, stack: &ThreadStack) -> Option<LinkedInstruction>
    ensures { result ≡ waits.instruction_on_top program.now stack.now }
{
    match stack.frame() {
        Some(frame) => instruction_in(program, &frame),
        None => None,
    }
}

/// The object whose monitor an instruction enters, if it enters one: `monitorenter`, or the call of a synchronized
/// method.
fn entered_by(
    program: &LinkedProgram,
    stack: &ThreadStack,
    instruction: LinkedInstruction,
) -> Option<u32>
    ensures { result ≡ waits.entered_by program.now stack.now instruction }
{
    match instruction {
        LinkedInstruction::MonitorEnter => object_under(stack, 0),
        LinkedInstruction::InvokeStatic { method, .. } => class_object(program, method),
        LinkedInstruction::InvokeSpecial { parameters, .. }
        | LinkedInstruction::InvokeVirtual { parameters, .. }
        | LinkedInstruction::InvokeInterface { parameters, .. } => {
            object_under(stack, usize::from(parameters))
        }
        _ => None,
    }
}

/// The object whose monitor the instruction on top enters.
fn entered_on_top(program: &LinkedProgram, stack: &ThreadStack) -> Option<u32>
    ensures { result ≡ waits.entered_on_top program.now stack.now }
{
    match instruction_on_top(program, stack) {
        Some(instruction) => entered_by(program, stack, instruction),
        None => None,
    }
}

/// The object whose monitor a thread enters first, where its first method is synchronized.
fn entered_first(shared: &Shared, program: &LinkedProgram, thread: u16) -> Option<u32>
    ensures { result ≡ waits.entered_first program.now shared.now.threads.threads thread }
{
    if thread == MAIN_THREAD {
        class_object(program, program.main)
    } else {
        Some(shared.threads.object(thread))
    }
}

/// The object whose monitor a thread enters next that runs.
fn entered_next(
    shared: &Shared,
    program: &LinkedProgram,
    stack: &ThreadStack,
    thread: u16,
) -> Option<u32>
    ensures { result ≡ waits.entered_next program.now shared.now.threads.threads thread stack.now }
{
    match stack.top() {
        Top::Empty => entered_first(shared, program, thread),
        Top::Invocation => entered_on_top(program, stack),
        Top::Initialisation { .. } => None,
    }
}

/// For the monitor of this object, if there is one.
fn monitor_of(object: Option<u32>) -> Awaited
    ensures { result ≡ waits.monitor_of object }
{
    match object {
        Some(object) => Awaited::Monitor(object),
        None => Awaited::Nothing,
    }
}

/// For which monitor a blocked thread of a status waits, that enters the monitor of this object next, where it runs.
fn monitor_awaited(status: ThreadStatus, next: Option<u32>) -> Awaited
    ensures { result ≡ waits.monitor_awaited (status_of status) next }
{
    match status {
        ThreadStatus::Relock { object, .. } => Awaited::MonitorAgain(object),
        ThreadStatus::Running | ThreadStatus::Waiting { .. } | ThreadStatus::Ended(_) => {
            monitor_of(next)
        }
    }
}

/// In which wait set a waiting thread is.
fn notification_awaited(status: ThreadStatus) -> Awaited
    ensures { result ≡ waits.notification_awaited (status_of status) }
{
    match status {
        ThreadStatus::Waiting { object, .. } => Awaited::Notification(object),
        ThreadStatus::Running | ThreadStatus::Relock { .. } | ThreadStatus::Ended(_) => {
            Awaited::Nothing
        }
    }
}

/// For whose end a joining thread waits.
fn end_awaited(stack: &ThreadStack) -> Awaited
    ensures { result ≡ waits.end_awaited stack.now }
{
    match object_under(stack, 0) {
        Some(object) => Awaited::End(object),
        None => Awaited::Nothing,
    }
}

/// The class that an instruction needs (JVMS 5.5), by its number.
fn class_in(instruction: LinkedInstruction) -> Option<u16>
    ensures { result ≡ needed instruction }
{
    match instruction {
        LinkedInstruction::GetStatic { class, .. }
        | LinkedInstruction::PutStatic { class, .. }
        | LinkedInstruction::PutBooleanStatic { class, .. }
        | LinkedInstruction::PutByteStatic { class, .. }
        | LinkedInstruction::PutCharStatic { class, .. }
        | LinkedInstruction::PutShortStatic { class, .. }
        | LinkedInstruction::New { class, .. }
        | LinkedInstruction::InvokeStatic { class, .. } => Some(class),
        _ => None,
    }
}

/// The class that the instruction on top needs.
fn class_on_top(program: &LinkedProgram, stack: &ThreadStack) -> Option<u16>
    ensures { result ≡ waits.class_on_top program.now stack.now }
{
    match instruction_on_top(program, stack) {
        Some(instruction) => class_in(instruction),
        None => None,
    }
}

/// The class that declares a method, by the method's number.
fn declaring_class(program: &LinkedProgram, method: u32) -> Option<u16>
    ensures { result ≡ waits.declaring_class program.now method }
{
    match method_at(program, method) {
        Some(row) => Some(row.class),
        None => None,
    }
}

/// The superclass of a class, by its number.
fn superclass_of(program: &LinkedProgram, class: u16) -> Option<u16>
    ensures { result ≡ waits.superclass_of program.now class }
{
    match program.classes.get(usize::from(class)) {
        Some(row) => row.superclass,
        None => None,
    }
}

/// The class that a thread needs initialised: that of `main` first, that of its instruction, or the superclass of the
/// one that it initialises.
fn class_of_next(program: &LinkedProgram, stack: &ThreadStack) -> Option<u16>
    ensures { result ≡ waits.class_of_next program.now stack.now }
{
    match stack.top() {
        Top::Empty => declaring_class(program, program.main),
        Top::Invocation => class_on_top(program, stack),
        Top::Initialisation { class, .. } => superclass_of(program, class),
    }
}

/// For which class an initialising thread waits.
fn class_awaited(program: &LinkedProgram, stack: &ThreadStack) -> Awaited
    ensures { result ≡ waits.class_awaited program.now stack.now }
{
    match class_of_next(program, stack) {
        Some(class) => Awaited::Class(class),
        None => Awaited::Nothing,
    }
}

/// For what a thread with this stack waits that stands so.
fn awaited_with(
    shared: &Shared,
    program: &LinkedProgram,
    stack: &ThreadStack,
    thread: u16,
    end: &EndState,
) -> Awaited
    ensures { result ≡ waits.awaited_with program.now shared.now.threads.threads thread stack.now
        (end_state_of end.now) }
{
    let status = shared.threads.status(thread);
    match end {
        EndState::Blocked => {
            monitor_awaited(status, entered_next(shared, program, stack, thread))
        }
        EndState::Waiting => notification_awaited(status),
        EndState::Joining => end_awaited(stack),
        EndState::Initialising => class_awaited(program, stack),
        EndState::Ended | EndState::Threw(_) | EndState::Runnable => Awaited::Nothing,
    }
}

/// For what a thread waits that stands so.
pub(crate) fn awaited_by(
    shared: &Shared,
    program: &LinkedProgram,
    thread: u16,
    end: &EndState,
) -> Awaited
    ensures { result ≡ waits.awaited_by program.now shared.now thread (end_state_of end.now) }
{
    match shared.stacks.get(usize::from(thread)) {
        Some(stack) => awaited_with(shared, program, stack, thread, end),
        None => Awaited::Nothing,
    }
}

/// The thread that owns the monitor of an object.
fn owner_of(heap: &Heap, object: u32) -> Option<u16>
    ensures { result ≡ (monitor_at heap.now.locks.monitors object).owner }
{
    if object < heap.len() {
        heap.owner(object)
    } else {
        None
    }
}

/// The thread that initialises a class of this status.
fn initiator_by(status: ClassStatus) -> Option<u16>
    ensures { result ≡ waits.initiator_by status }
{
    match status {
        ClassStatus::InProgress(by) => Some(by),
        ClassStatus::NotInitialised | ClassStatus::Initialised | ClassStatus::Erroneous => None,
    }
}

/// The thread that initialises a class. The classes of the files come behind the built-in ones, which are initialised
/// from the start.
fn initiator_of(shared: &Shared, program: &LinkedProgram, class: u16) -> Option<u16>
    ensures { result ≡ waits.initiator_of program.now shared.now class }
{
    let built_in = program.classes.len().saturating_sub(shared.statuses.len());
    if usize::from(class) < built_in {
        return None;
    }
    match shared.statuses.get(usize::from(class) - built_in) {
        Some(status) => initiator_by(*status),
        None => None,
    }
}

impl Awaited {
    /// The thread that has to do something for it: to leave the monitor, to end, or to initialise the class.
    pub(crate) fn thread(self, shared: &Shared, program: &LinkedProgram) -> Option<u16>
        ensures { result ≡ waits.awaited_of program.now shared.now self }
    {
        match self {
            Awaited::Nothing | Awaited::Notification(_) => None,
            Awaited::Monitor(object) | Awaited::MonitorAgain(object) => {
                owner_of(&shared.heap, object)
            }
            Awaited::End(object) => shared.threads.number(object),
            Awaited::Class(class) => initiator_of(shared, program, class),
        }
    }
}

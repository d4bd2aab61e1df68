//! What the definitions of `model` mean, on programs and operands written out: each function here is a
//! theorem, and does nothing.
//!
//! # Proved
//!
//! Theorems over the definitions, no code. Nearly all are by computation.
//!
//! - Runs of one class: `prints_seven` (from its bytes; and `event_by_event`), `only_returns`, `int_arithmetic`,
//!   `wide_and_switch`, `sum_of_squares`, `both_switches`, `wrong_operands`, `exceptions`.
//! - Instructions: `instructions`, `opcodes`, `stack_moves`, `computed`, `compared`, `converted`, `branches`.
//! - Classes: `superclass_first`, `class_at_begin`, `written_by_javac`, `built_in_classes`, `built_in_members`,
//!   `opening_objects`, `lookups`, `instances`.
//! - A case for each refusal: `malformed_files`, `malformed_codes`, `outside_profiles`, `bad_hierarchies`,
//!   `unresolveds`, `other_refusals`; and that none stands in the programs that are run: `programs_link`.
//! - Typings: `type_joins`, `typings`, `untypables`, `constructors`, `only_returns_unconstructed`. Those of the
//!   built-in methods with code, in each program: `built_in_typings`. A program that is accepted as a whole, and one
//!   that links and isn't accepted: `accepted_program`.
//! - Accepted, from the bytes that `javac` wrote: two classes, two constructors, a handler of `ArithmeticException` and
//!   two threads, with the frame types of each method and the reports of two schedules: `accepted_threads`.
//! - Texts and calls: `listing_of_the_first_file`, `schedule_files` (both versions), `plain_monitors`.
//! - Schedules with the text of their reports:
//!   - several threads, monitors, wait sets and interrupts: `lost_update`, `counter_under_lock`,
//!     `exit_of_what_is_not_owned`, `exception_releases`, `wait_keeps_count`, `interrupted_waits`,
//!     `waiter_of_a_thread`, `lock_order_deadlock`, `entry_257`;
//!   - class initialisation: `initialisers_in_order`, `superclass_constant`, `held_initialiser`, `failing_initialiser`,
//!     `failing_initial_class`;
//!   - exceptions: `handler_order`, `uncaught_exception`, `stack_overflow`, `not_a_runnable`, `array_store`;
//!   - fields, arrays, strings and calls: `shadowed_fields`, `narrow_arrays`, `same_string`, `made_strings`,
//!     `text_methods`, `built_texts`, `told_objects`, `super_call`.
//! - Programs in Java that print what `java` prints: `java_objects`, `java_calls`, `java_threads`. Threads in Java that
//!   wait for all that there is to wait for: `threads_that_wait`.

ghost use Rattle.run_laws.specs.examples.AcceptedProgram.{AcceptedProgram};
ghost use Rattle.run_laws.specs.examples.AcceptedThreads.{AcceptedThreads};
ghost use Rattle.run_laws.specs.examples.ArrayStore.{ArrayStore};
ghost use Rattle.run_laws.specs.examples.Branches.{Branches};
ghost use Rattle.run_laws.specs.examples.BuiltInClasses.{BuiltInClasses, OpeningObjects};
ghost use Rattle.run_laws.specs.examples.BuiltInMembers.{BuiltInMembers};
ghost use Rattle.run_laws.specs.examples.BuiltInTypings.{BuiltInTyped};
ghost use Rattle.run_laws.specs.examples.BuiltTexts.{BuiltTexts};
ghost use Rattle.run_laws.specs.examples.Constructors as constructing;
ghost use Rattle.run_laws.specs.examples.Constructors.{Constructors};
ghost use Rattle.run_laws.specs.examples.CounterUnderLock.{CounterUnderLock};
ghost use Rattle.run_laws.specs.examples.Entry257.{Entry257};
ghost use Rattle.run_laws.specs.examples.ExceptionReleases.{ExceptionReleases};
ghost use Rattle.run_laws.specs.examples.Exceptions.{Exceptions};
ghost use Rattle.run_laws.specs.examples.ExitOfWhatIsNotOwned.{ExitOfWhatIsNotOwned};
ghost use Rattle.run_laws.specs.examples.FailingInitialClass.{FailingInitialClass};
ghost use Rattle.run_laws.specs.examples.FailingInitialiser.{FailingInitialiser};
ghost use Rattle.run_laws.specs.examples.HandlerOrder.{HandlerOrder};
ghost use Rattle.run_laws.specs.examples.HeldInitialiser.{HeldInitialiser};
ghost use Rattle.run_laws.specs.examples.Initialisations.{ClassAtBegin, SuperclassFirst};
ghost use Rattle.run_laws.specs.examples.InitialisersInOrder.{InitialisersInOrder};
ghost use Rattle.run_laws.specs.examples.Instructions.{Instructions, Opcodes};
ghost use Rattle.run_laws.specs.examples.IntArithmetic.{IntArithmetic};
ghost use Rattle.run_laws.specs.examples.IntValues.{Compared, Computed, Converted};
ghost use Rattle.run_laws.specs.examples.InterruptedWaits.{InterruptedWaits};
ghost use Rattle.run_laws.specs.examples.JavaCalls.{JavaCalls};
ghost use Rattle.run_laws.specs.examples.JavaObjects.{JavaObjects};
ghost use Rattle.run_laws.specs.examples.JavaThreads.{JavaThreads};
ghost use Rattle.run_laws.specs.examples.Javac.{WrittenByJavac};
ghost use Rattle.run_laws.specs.examples.ListedFile.{ListedFile};
ghost use Rattle.run_laws.specs.examples.LockOrderDeadlock.{LockOrderDeadlock};
ghost use Rattle.run_laws.specs.examples.Lookups.{Instances, Lookups};
ghost use Rattle.run_laws.specs.examples.Loops.{Loop, Switches};
ghost use Rattle.run_laws.specs.examples.LostUpdate.{LostUpdate};
ghost use Rattle.run_laws.specs.examples.MalformedFiles.{MalformedFiles};
ghost use Rattle.run_laws.specs.examples.MadeStrings.{MadeStrings};
ghost use Rattle.run_laws.specs.examples.NarrowArrays.{NarrowArrays};
ghost use Rattle.run_laws.specs.examples.NotARunnable.{NotARunnable};
ghost use Rattle.run_laws.specs.examples.OnlyReturns.{OnlyReturns};
ghost use Rattle.run_laws.specs.examples.PlainMonitors.{PlainMonitors};
ghost use Rattle.run_laws.specs.examples.PrintsSeven.{PrintsSeven, EventByEvent};
ghost use Rattle.run_laws.specs.examples.ProgramsLink.{ProgramsLink};
ghost use Rattle.run_laws.specs.examples.Refusals.{BadHierarchies, MalformedCodes, OtherRefusals, OutsideProfiles, Unresolveds};
ghost use Rattle.run_laws.specs.examples.SameString.{SameString};
ghost use Rattle.run_laws.specs.examples.ShadowedFields.{ShadowedFields};
ghost use Rattle.run_laws.specs.examples.StackMoves.{StackMoves};
ghost use Rattle.run_laws.specs.examples.StackOverflow.{StackOverflow};
ghost use Rattle.run_laws.specs.examples.SuperCall.{SuperCall};
ghost use Rattle.run_laws.specs.examples.SuperclassConstant.{SuperclassConstant};
ghost use Rattle.run_laws.specs.examples.ThreadsThatWait.{ThreadsThatWait};
ghost use Rattle.run_laws.specs.examples.ToldObjects.{ToldObjects};
ghost use Rattle.run_laws.specs.examples.TextMethods.{TextMethods};
ghost use Rattle.run_laws.specs.examples.TypeJoins.{TypeJoins};
ghost use Rattle.run_laws.specs.examples.Typings.{Typings, Untypables};
ghost use Rattle.run_laws.specs.examples.UncaughtException.{UncaughtException};
ghost use Rattle.run_laws.specs.examples.WaitKeepsCount.{WaitKeepsCount};
ghost use Rattle.run_laws.specs.examples.WaiterOfAThread.{WaiterOfAThread};
ghost use Rattle.run_laws.specs.examples.WideAndSwitch.{WideAndSwitch};
ghost use Rattle.run_laws.specs.examples.WrongOperands.{WrongOperands};

/// A class file whose main prints 7, from its bytes to the end of its run.
pub fn prints_seven()
    ensures holds { PrintsSeven }
{}

/// The run of `prints_seven`, event by event.
pub fn event_by_event()
    ensures holds { EventByEvent }
{}

/// A class file whose main returns at once.
pub fn only_returns()
    ensures holds { OnlyReturns }
{}

/// The least int divided by -1, shifts by more than 31, and a sum that wraps.
pub fn int_arithmetic()
    ensures holds { IntArithmetic }
{}

/// A wide `iinc`, and a `lookupswitch` after no, one, two and three bytes of padding.
pub fn wide_and_switch()
    ensures holds { WideAndSwitch }
{}

/// A loop with `goto`, `if_icmplt` and `iinc`, then `dup`, `swap` and `pop`.
pub fn sum_of_squares()
    ensures holds { Loop }
{}

/// Both switches with negative keys and defaults, in a loop closed by `goto_w`.
pub fn both_switches()
    ensures holds { Switches }
{}

/// Instructions by their bytes, with their lengths, and bytes that begin none.
pub fn instructions()
    ensures holds { Instructions }
{}

/// The opcodes by families and by lengths, and those that are left out.
pub fn opcodes()
    ensures holds { Opcodes }
{}

/// Codes that find an instruction or an operand missing, or an operand of another kind.
pub fn wrong_operands()
    ensures holds { WrongOperands }
{}

/// A division by zero, and a call on null.
pub fn exceptions()
    ensures holds { Exceptions }
{}

/// `pop` to `swap`, on any values over any rest of the stack.
pub fn stack_moves()
    ensures holds { StackMoves }
{}

/// Int arithmetic, on ints at the edges.
pub fn computed()
    ensures holds { Computed }
{}

/// Comparisons of two ints.
pub fn compared()
    ensures holds { Compared }
{}

/// `ineg`, `i2b`, `i2c` and `i2s`.
pub fn converted()
    ensures holds { Converted }
{}

/// Where jumps and switches lead.
pub fn branches()
    ensures holds { Branches }
{}

/// A class and its superclass are initialised, the superclass before the class.
pub fn superclass_first()
    ensures holds { SuperclassFirst }
{}

/// The first event of main's thread, where its class was begun already, and under limits of frames.
pub fn class_at_begin()
    ensures holds { ClassAtBegin }
{}

/// A class file that `javac` wrote, with constants of all kinds, fields, handlers and attributes.
pub fn written_by_javac()
    ensures holds { WrittenByJavac }
{}

/// The built-in classes, their superclasses, and subtypes among them and arrays.
pub fn built_in_classes()
    ensures holds { BuiltInClasses }
{}

/// The members of the built-in classes.
pub fn built_in_members()
    ensures holds { BuiltInMembers }
{}

/// The objects that stand before any event.
pub fn opening_objects()
    ensures holds { OpeningObjects }
{}

/// A file for each condition of OutsideProfile.
pub fn outside_profiles()
    ensures holds { OutsideProfiles }
{}

/// A file for each condition of Malformed with cause Code.
pub fn malformed_codes()
    ensures holds { MalformedCodes }
{}

/// A program for each condition of BadHierarchy.
pub fn bad_hierarchies()
    ensures holds { BadHierarchies }
{}

/// A program for each condition of Unresolved.
pub fn unresolveds()
    ensures holds { Unresolveds }
{}

/// Programs that are refused as DuplicateClass, NoMain or TooLarge, and which of several refusals is answered.
pub fn other_refusals()
    ensures holds { OtherRefusals }
{}

/// A tree for each condition that `decode` tests.
pub fn malformed_files()
    ensures holds { MalformedFiles }
{}

/// Fields and methods that symbolic references name, and methods that are selected.
pub fn lookups()
    ensures holds { Lookups }
{}

/// Which types are below which, with interfaces and without.
pub fn instances()
    ensures holds { Instances }
{}

/// Joins of two types and of two frame types, and the order of types.
pub fn type_joins()
    ensures holds { TypeJoins }
{}

/// Methods with a typing, each by its list of frame types.
pub fn typings()
    ensures holds { Typings }
{}

/// Methods with code of the built-in classes have a typing, whatever the files of the program are.
pub fn built_in_typings()
    ensures holds { BuiltInTyped }
{}

/// Codes that have no typing.
pub fn untypables()
    ensures holds { Untypables }
{}

/// Two threads that add 1 to a static field with no monitor (JLS 17.4): by the order of their steps it is 1 or 2.
pub fn lost_update()
    ensures holds { LostUpdate }
{}

/// Two threads that count under the monitor of a Class object: while one is inside, the other may not enter.
pub fn counter_under_lock()
    ensures holds { CounterUnderLock }
{}

/// An exception that leaves a synchronized static method releases its monitor (JVMS 2.11.10).
pub fn exception_releases()
    ensures holds { ExceptionReleases }
{}

/// A synchronized method that releases its own monitor: its return finds that the thread does not own it.
pub fn exit_of_what_is_not_owned()
    ensures holds { ExitOfWhatIsNotOwned }
{}

/// invokeinterface on an object that does not implement the interface (JVMS 6.5).
pub fn not_a_runnable()
    ensures holds { NotARunnable }
{}

/// An Object stored into an array of X (JVMS 6.5, aastore).
pub fn array_store()
    ensures holds { ArrayStore }
{}

/// A thread that entered a monitor three times waits, and owns it three times again (JLS 17.2.1). Of two waiting
/// threads one is notified and the other is not.
pub fn wait_keeps_count()
    ensures holds { WaitKeepsCount }
{}

/// A thread is interrupted while it waits, and another time before it waits (JLS 17.2.1, 17.2.3).
pub fn interrupted_waits()
    ensures holds { InterruptedWaits }
{}

/// Two threads enter two monitors in opposite orders.
pub fn lock_order_deadlock()
    ensures holds { LockOrderDeadlock }
{}

/// The initialiser of F divides by zero (JVMS 5.5): an ExceptionInInitializerError, then a NoClassDefFoundError.
pub fn failing_initialiser()
    ensures holds { FailingInitialiser }
{}

/// A class that one thread initialises, while another asks for it.
pub fn held_initialiser()
    ensures holds { HeldInitialiser }
{}

/// The initialiser of the initial class fails: main does not begin.
pub fn failing_initial_class()
    ensures holds { FailingInitialClass }
{}

/// Three handlers for one division by zero (JVMS 2.10): the first in the table whose range and class fit takes it.
pub fn handler_order()
    ensures holds { HandlerOrder }
{}

/// A method that calls itself, with three frames allowed.
pub fn stack_overflow()
    ensures holds { StackOverflow }
{}

/// Q.f calls P.f by invokespecial; main calls P.f by invokevirtual on a Q.
pub fn super_call()
    ensures holds { SuperCall }
{}

/// Class C below B: a static call initialises B before C, and then runs.
pub fn initialisers_in_order()
    ensures holds { InitialisersInOrder }
{}

/// A constant of C, which is below B (JVMS 5.5, step 6).
pub fn superclass_constant()
    ensures holds { SuperclassConstant }
{}

/// P and Q below it each declare a field x (JVMS 5.4.3.2): a Q has both.
pub fn shadowed_fields()
    ensures holds { ShadowedFields }
{}

/// Arrays of byte, boolean, char and short keep a part of what is stored.
pub fn narrow_arrays()
    ensures holds { NarrowArrays }
{}

/// A String that concat makes is one object with its units for cells; charAt finds them, and throws outside of them.
pub fn made_strings()
    ensures holds { MadeStrings }
{}

/// Methods of String that are built in and have code: indexOf finds a text, and trim leaves out a space.
pub fn text_methods()
    ensures holds { TextMethods }
{}

/// Texts that a StringBuilder builds, and one that is printed to System.err: what they cost, and what is printed.
pub fn built_texts()
    ensures holds { BuiltTexts }
{}

/// What an exception tells of its class and its cause, what the machine's own exceptions tell, and numbers of objects.
pub fn told_objects()
    ensures holds { ToldObjects }
{}

/// Two String constants of one text are one object (JVMS 5.1).
pub fn same_string()
    ensures holds { SameString }
{}

/// main waits on the object of a thread, which ends.
pub fn waiter_of_a_thread()
    ensures holds { WaiterOfAThread }
{}

/// A division by zero that nobody catches.
pub fn uncaught_exception()
    ensures holds { UncaughtException }
{}

/// A monitor that is entered 257 times and left as often.
pub fn entry_257()
    ensures holds { Entry257 }
{}

/// The programs of the other examples link: no condition stands in them.
pub fn programs_link()
    ensures holds { ProgramsLink }
{}

/// A constructor and a `new`, with typings; and what single instructions do to what is not initialised.
pub fn constructors()
    ensures holds { Constructors }
{}

/// A constructor that calls no other one has no typing.
pub fn only_returns_unconstructed()
    ensures holds { constructing.OnlyReturns }
{}

/// A program in Java with objects, fields, arrays, calls and exceptions: it prints what `java` prints.
pub fn java_objects()
    ensures holds { JavaObjects }
{}

/// A program in Java with threads, monitors, wait sets and interrupts: it prints what `java` prints.
pub fn java_threads()
    ensures holds { JavaThreads }
{}

/// Calls in Java of methods that are abstract, private or a superclass's: it prints what `java` prints.
pub fn java_calls()
    ensures holds { JavaCalls }
{}

/// Threads in Java each of which waits for something else, and how they stand then.
pub fn threads_that_wait()
    ensures holds { ThreadsThatWait }
{}

/// A program is accepted, and its run meets no operand of a wrong kind; another one links and is not accepted.
pub fn accepted_program()
    ensures holds { AcceptedProgram }
{}

/// A program of two classes and two threads, with a constructor and a handler, is accepted; its runs by two schedules.
pub fn accepted_threads()
    ensures holds { AcceptedThreads }
{}

/// The listing of a class file, line by line.
pub fn listing_of_the_first_file()
    ensures holds { ListedFile }
{}

/// Calls on two monitors: a waiting thread is notified, and enters again as often as it had entered.
pub fn plain_monitors()
    ensures holds { PlainMonitors }
{}

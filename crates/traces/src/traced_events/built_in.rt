//! What calls of methods did that have no code.

ghost use Rattle.std.specs.Prelude.{◌≡◌};
ghost use Rattle.traces.specs.traced_events.Answered.{answered, built, named, wrote};

use crate::traced_events::before::Before;
use crate::traced_events::deed::Deed;
use linked_code::{BuiltInMethod, LinkedProgram, MethodBody};
use machine_state::method_selection::method_at;
use model::{BuilderMethod, NameMethod, PrintMethod, TextMethod};

/// The built-in method of a number, if it is one.
pub(crate) fn built_in_called(
    program: &LinkedProgram,
    method: Option<u32>,
) -> Option<BuiltInMethod> {
    match &method_at(program, method?)?.body {
        MethodBody::BuiltIn(built_in) => Some(*built_in),
        MethodBody::Abstract | MethodBody::Code(_) => None,
    }
}

/// What a method of PrintStream printed. An int was on top of the frame.
pub(crate) fn print_deed(before: &Before, method: PrintMethod) -> Deed {
    match method {
        PrintMethod::PrintlnInt => Deed::Prints {
            number: before.operands[0].cast_signed(),
        },
        PrintMethod::Println
        | PrintMethod::PrintlnChar
        | PrintMethod::PrintlnString
        | PrintMethod::PrintChar
        | PrintMethod::PrintInt
        | PrintMethod::PrintString => Deed::PrintsText,
    }
}

/// The word on top of a stack, and how many objects there are.
#[derive(Clone, Copy)]
pub(crate) struct Answer {
    pub(crate) word: u32,
    pub(crate) objects: u32,
}

/// What a method of String did that answered: it made the String of the word where there are more objects since.
fn answer_deed(objects: u32, answer: Answer) -> Deed
    ensures { result ≡ answered objects answer.objects answer.word }
{
    if answer.objects > objects {
        return Deed::Makes {
            object: answer.word.saturating_sub(1),
        };
    }
    Deed::Pushes { word: answer.word }
}

/// What a method of StringBuilder did, by its number and the word on top after it.
fn builder_deed(builder: BuilderMethod, method: u32, word: u32) -> Deed
    ensures { result ≡ built builder method word }
{
    match builder {
        BuilderMethod::ConstructEmpty | BuilderMethod::ConstructOfString => Deed::Runs { method },
        BuilderMethod::AppendString
        | BuilderMethod::AppendInt
        | BuilderMethod::AppendChar
        | BuilderMethod::AppendBuilder
        | BuilderMethod::ToString => Deed::Pushes { word },
    }
}

/// What a method did that names a Thread: `getName` gave the name, which it may have made; the others gave nothing.
fn naming_deed(before: &Before, method: u32, names: NameMethod, answer: Answer) -> Deed
    ensures { result ≡ named names before.now.objects answer.objects method answer.word }
{
    match names {
        NameMethod::Construct
        | NameMethod::ConstructWithTarget
        | NameMethod::ConstructWithName
        | NameMethod::ConstructWithTargetAndName
        | NameMethod::SetName => Deed::Runs { method },
        NameMethod::GetName => answer_deed(before.objects, answer),
    }
}

/// What a constructor of String did, or a method that takes its text apart: `intern` gave a String that was there, the
/// others gave nothing.
fn writing_deed(method: u32, writes: TextMethod, word: u32) -> Deed
    ensures { result ≡ wrote writes method word }
{
    match writes {
        TextMethod::ConstructEmpty
        | TextMethod::ConstructOfString
        | TextMethod::ConstructOfChars
        | TextMethod::GetChars => Deed::Runs { method },
        TextMethod::Intern => Deed::Pushes { word },
    }
}

/// What a call of a built-in method did, by what is there after it and the pick of its event.
pub(crate) fn built_in_deed(
    before: &Before,
    method: u32,
    built_in: BuiltInMethod,
    answer: Answer,
    pick: u16,
) -> Deed {
    let object = before.receiver.saturating_sub(1);
    match built_in {
        BuiltInMethod::Construct
        | BuiltInMethod::ConstructWithMessage
        | BuiltInMethod::ConstructWithCause => Deed::Runs { method },
        BuiltInMethod::ObjectClone => answer_deed(before.objects, answer),
        BuiltInMethod::ThreadNames(names) => naming_deed(before, method, names, answer),
        BuiltInMethod::StringWrites(writes) => writing_deed(method, writes, answer.word),
        BuiltInMethod::ObjectWait => Deed::Waits { object },
        BuiltInMethod::ObjectNotify => Deed::Notifies {
            thread: before.waiting.get(usize::from(pick)).copied(),
        },
        BuiltInMethod::ObjectNotifyAll => Deed::NotifiesAll,
        BuiltInMethod::ThreadStart => Deed::Starts { object },
        BuiltInMethod::ThreadInterrupt => Deed::Interrupts { object },
        BuiltInMethod::ThreadJoin => Deed::Joins { object },
        BuiltInMethod::ThreadYield => Deed::Yields,
        BuiltInMethod::ThreadIsInterrupted
        | BuiltInMethod::ThreadInterrupted
        | BuiltInMethod::ThreadCurrentThread
        | BuiltInMethod::ThreadIsAlive => Deed::Pushes { word: answer.word },
        BuiltInMethod::PrintStreamPrints(method) => print_deed(before, method),
        BuiltInMethod::StringAnswers(_) | BuiltInMethod::ObjectAnswers(_) => answer_deed(
            before.objects,
            answer,
        ),
        BuiltInMethod::StringBuilderBuilds(builder) => builder_deed(builder, method, answer.word),
    }
}

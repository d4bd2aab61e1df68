//! Which of the methods of the machine a method without code is.

ghost use Rattle.std.specs.Prelude.{◌≡◌, find, map, option_map};
ghost use Rattle.constant_pool.specs.View.{reference_of};
ghost use Rattle.model.specs.Names.{member_eq};
ghost use Rattle.model.specs.BuiltInMethods.{built_in_method, constructor_of, is_row_of};
ghost use Rattle.linked_code.specs.Methods.{built_in_of};
ghost use Rattle.linked_program.specs.method_rows.BuiltIns.{declared_member, entry_of};

use classfile::Reference;
use linked_code::BuiltInMethod;
use model::{BuilderMethod, NameMethod, ObjectMethod, PrintMethod, StringMethod, TextMethod};

/// A method of a built-in class that has no code.
#[derive(Clone, Copy)]
struct Declared {
    class: &'static [u8],
    name: &'static [u8],
    descriptor: &'static [u8],
    method: BuiltInMethod,
}

/// All but the constructors of exceptions, and those that only take their operands.
const DECLARED: [Declared; 53] = [
    Declared {
        class: b"java/lang/Object",
        name: b"wait",
        descriptor: b"()V",
        method: BuiltInMethod::ObjectWait,
    },
    Declared {
        class: b"java/lang/Object",
        name: b"notify",
        descriptor: b"()V",
        method: BuiltInMethod::ObjectNotify,
    },
    Declared {
        class: b"java/lang/Object",
        name: b"notifyAll",
        descriptor: b"()V",
        method: BuiltInMethod::ObjectNotifyAll,
    },
    Declared {
        class: b"java/lang/Object",
        name: b"clone",
        descriptor: b"()Ljava/lang/Object;",
        method: BuiltInMethod::ObjectClone,
    },
    Declared {
        class: b"java/lang/Thread",
        name: b"<init>",
        descriptor: b"()V",
        method: BuiltInMethod::ThreadNames(NameMethod::Construct),
    },
    Declared {
        class: b"java/lang/Thread",
        name: b"<init>",
        descriptor: b"(Ljava/lang/Runnable;)V",
        method: BuiltInMethod::ThreadNames(NameMethod::ConstructWithTarget),
    },
    Declared {
        class: b"java/lang/Thread",
        name: b"<init>",
        descriptor: b"(Ljava/lang/String;)V",
        method: BuiltInMethod::ThreadNames(NameMethod::ConstructWithName),
    },
    Declared {
        class: b"java/lang/Thread",
        name: b"<init>",
        descriptor: b"(Ljava/lang/Runnable;Ljava/lang/String;)V",
        method: BuiltInMethod::ThreadNames(NameMethod::ConstructWithTargetAndName),
    },
    Declared {
        class: b"java/lang/Thread",
        name: b"start",
        descriptor: b"()V",
        method: BuiltInMethod::ThreadStart,
    },
    Declared {
        class: b"java/lang/Thread",
        name: b"interrupt",
        descriptor: b"()V",
        method: BuiltInMethod::ThreadInterrupt,
    },
    Declared {
        class: b"java/lang/Thread",
        name: b"isInterrupted",
        descriptor: b"()Z",
        method: BuiltInMethod::ThreadIsInterrupted,
    },
    Declared {
        class: b"java/lang/Thread",
        name: b"interrupted",
        descriptor: b"()Z",
        method: BuiltInMethod::ThreadInterrupted,
    },
    Declared {
        class: b"java/lang/Thread",
        name: b"yield",
        descriptor: b"()V",
        method: BuiltInMethod::ThreadYield,
    },
    Declared {
        class: b"java/lang/Thread",
        name: b"currentThread",
        descriptor: b"()Ljava/lang/Thread;",
        method: BuiltInMethod::ThreadCurrentThread,
    },
    Declared {
        class: b"java/lang/Thread",
        name: b"join",
        descriptor: b"()V",
        method: BuiltInMethod::ThreadJoin,
    },
    Declared {
        class: b"java/lang/Thread",
        name: b"isAlive",
        descriptor: b"()Z",
        method: BuiltInMethod::ThreadIsAlive,
    },
    Declared {
        class: b"java/lang/Thread",
        name: b"getName",
        descriptor: b"()Ljava/lang/String;",
        method: BuiltInMethod::ThreadNames(NameMethod::GetName),
    },
    Declared {
        class: b"java/lang/Thread",
        name: b"setName",
        descriptor: b"(Ljava/lang/String;)V",
        method: BuiltInMethod::ThreadNames(NameMethod::SetName),
    },
    Declared {
        class: b"java/io/PrintStream",
        name: b"println",
        descriptor: b"()V",
        method: BuiltInMethod::PrintStreamPrints(PrintMethod::Println),
    },
    Declared {
        class: b"java/io/PrintStream",
        name: b"println",
        descriptor: b"(C)V",
        method: BuiltInMethod::PrintStreamPrints(PrintMethod::PrintlnChar),
    },
    Declared {
        class: b"java/io/PrintStream",
        name: b"println",
        descriptor: b"(I)V",
        method: BuiltInMethod::PrintStreamPrints(PrintMethod::PrintlnInt),
    },
    Declared {
        class: b"java/io/PrintStream",
        name: b"println",
        descriptor: b"(Ljava/lang/String;)V",
        method: BuiltInMethod::PrintStreamPrints(PrintMethod::PrintlnString),
    },
    Declared {
        class: b"java/io/PrintStream",
        name: b"print",
        descriptor: b"(C)V",
        method: BuiltInMethod::PrintStreamPrints(PrintMethod::PrintChar),
    },
    Declared {
        class: b"java/io/PrintStream",
        name: b"print",
        descriptor: b"(I)V",
        method: BuiltInMethod::PrintStreamPrints(PrintMethod::PrintInt),
    },
    Declared {
        class: b"java/io/PrintStream",
        name: b"print",
        descriptor: b"(Ljava/lang/String;)V",
        method: BuiltInMethod::PrintStreamPrints(PrintMethod::PrintString),
    },
    Declared {
        class: b"java/lang/String",
        name: b"length",
        descriptor: b"()I",
        method: BuiltInMethod::StringAnswers(StringMethod::Length),
    },
    Declared {
        class: b"java/lang/String",
        name: b"charAt",
        descriptor: b"(I)C",
        method: BuiltInMethod::StringAnswers(StringMethod::CharAt),
    },
    Declared {
        class: b"java/lang/String",
        name: b"equals",
        descriptor: b"(Ljava/lang/Object;)Z",
        method: BuiltInMethod::StringAnswers(StringMethod::Equals),
    },
    Declared {
        class: b"java/lang/String",
        name: b"hashCode",
        descriptor: b"()I",
        method: BuiltInMethod::StringAnswers(StringMethod::HashCode),
    },
    Declared {
        class: b"java/lang/String",
        name: b"compareTo",
        descriptor: b"(Ljava/lang/String;)I",
        method: BuiltInMethod::StringAnswers(StringMethod::CompareTo),
    },
    Declared {
        class: b"java/lang/String",
        name: b"concat",
        descriptor: b"(Ljava/lang/String;)Ljava/lang/String;",
        method: BuiltInMethod::StringAnswers(StringMethod::Concat),
    },
    Declared {
        class: b"java/lang/String",
        name: b"substring",
        descriptor: b"(II)Ljava/lang/String;",
        method: BuiltInMethod::StringAnswers(StringMethod::Substring),
    },
    Declared {
        class: b"java/lang/String",
        name: b"indexOf",
        descriptor: b"(II)I",
        method: BuiltInMethod::StringAnswers(StringMethod::IndexOf),
    },
    Declared {
        class: b"java/lang/String",
        name: b"regionMatches",
        descriptor: b"(ILjava/lang/String;II)Z",
        method: BuiltInMethod::StringAnswers(StringMethod::RegionMatches),
    },
    Declared {
        class: b"java/lang/String",
        name: b"valueOf",
        descriptor: b"(I)Ljava/lang/String;",
        method: BuiltInMethod::StringAnswers(StringMethod::ValueOfInt),
    },
    Declared {
        class: b"java/lang/String",
        name: b"valueOf",
        descriptor: b"(C)Ljava/lang/String;",
        method: BuiltInMethod::StringAnswers(StringMethod::ValueOfChar),
    },
    Declared {
        class: b"java/lang/String",
        name: b"<init>",
        descriptor: b"()V",
        method: BuiltInMethod::StringWrites(TextMethod::ConstructEmpty),
    },
    Declared {
        class: b"java/lang/String",
        name: b"<init>",
        descriptor: b"(Ljava/lang/String;)V",
        method: BuiltInMethod::StringWrites(TextMethod::ConstructOfString),
    },
    Declared {
        class: b"java/lang/String",
        name: b"<init>",
        descriptor: b"([CII)V",
        method: BuiltInMethod::StringWrites(TextMethod::ConstructOfChars),
    },
    Declared {
        class: b"java/lang/String",
        name: b"getChars",
        descriptor: b"(II[CI)V",
        method: BuiltInMethod::StringWrites(TextMethod::GetChars),
    },
    Declared {
        class: b"java/lang/String",
        name: b"intern",
        descriptor: b"()Ljava/lang/String;",
        method: BuiltInMethod::StringWrites(TextMethod::Intern),
    },
    Declared {
        class: b"java/lang/StringBuilder",
        name: b"<init>",
        descriptor: b"()V",
        method: BuiltInMethod::StringBuilderBuilds(BuilderMethod::ConstructEmpty),
    },
    Declared {
        class: b"java/lang/StringBuilder",
        name: b"<init>",
        descriptor: b"(Ljava/lang/String;)V",
        method: BuiltInMethod::StringBuilderBuilds(BuilderMethod::ConstructOfString),
    },
    Declared {
        class: b"java/lang/StringBuilder",
        name: b"append",
        descriptor: b"(Ljava/lang/String;)Ljava/lang/StringBuilder;",
        method: BuiltInMethod::StringBuilderBuilds(BuilderMethod::AppendString),
    },
    Declared {
        class: b"java/lang/StringBuilder",
        name: b"append",
        descriptor: b"(I)Ljava/lang/StringBuilder;",
        method: BuiltInMethod::StringBuilderBuilds(BuilderMethod::AppendInt),
    },
    Declared {
        class: b"java/lang/StringBuilder",
        name: b"append",
        descriptor: b"(C)Ljava/lang/StringBuilder;",
        method: BuiltInMethod::StringBuilderBuilds(BuilderMethod::AppendChar),
    },
    Declared {
        class: b"java/lang/StringBuilder",
        name: b"append",
        descriptor: b"(Ljava/lang/StringBuilder;)Ljava/lang/StringBuilder;",
        method: BuiltInMethod::StringBuilderBuilds(BuilderMethod::AppendBuilder),
    },
    Declared {
        class: b"java/lang/StringBuilder",
        name: b"toString",
        descriptor: b"()Ljava/lang/String;",
        method: BuiltInMethod::StringBuilderBuilds(BuilderMethod::ToString),
    },
    Declared {
        class: b"java/lang/Object",
        name: b"hashCode",
        descriptor: b"()I",
        method: BuiltInMethod::ObjectAnswers(ObjectMethod::HashCode),
    },
    Declared {
        class: b"java/lang/Object",
        name: b"getClass",
        descriptor: b"()Ljava/lang/Class;",
        method: BuiltInMethod::ObjectAnswers(ObjectMethod::GetClass),
    },
    Declared {
        class: b"java/lang/System",
        name: b"identityHashCode",
        descriptor: b"(Ljava/lang/Object;)I",
        method: BuiltInMethod::ObjectAnswers(ObjectMethod::IdentityHashCode),
    },
    Declared {
        class: b"java/lang/Class",
        name: b"getName",
        descriptor: b"()Ljava/lang/String;",
        method: BuiltInMethod::ObjectAnswers(ObjectMethod::ClassName),
    },
    Declared {
        class: b"java/lang/String",
        name: b"described",
        descriptor: b"(Ljava/lang/Object;I)Ljava/lang/String;",
        method: BuiltInMethod::ObjectAnswers(ObjectMethod::Described),
    },
];

fn is_declared(declared: &Declared, method: Reference<'_>) -> bool
    ensures { result ≡ member_eq (declared_member declared.now) (reference_of method.entry) }
{
    declared.class == method.class
        && declared.name == method.name
        && declared.descriptor == method.descriptor
}

/// The first among some that is declared as a method is.
fn declared_among(all: &[Declared], method: Reference<'_>) -> Option<BuiltInMethod>
    ensures { option_map built_in_of result
        ≡ option_map (λ row. row.1) (find (is_row_of (reference_of method.entry)) (map entry_of all.now)) }
{
    for declared in all {
        if is_declared(declared, method) {
            return Some(declared.method);
        }
    }
    None
}

/// Which method a constructor is that has no row of its own, by its descriptor.
fn constructor(descriptor: &[u8]) -> BuiltInMethod
    ensures { built_in_of result ≡ constructor_of descriptor.now }
{
    if descriptor == b"(Ljava/lang/String;)V".as_slice() {
        return BuiltInMethod::ConstructWithMessage;
    }
    if descriptor == b"(Ljava/lang/String;Ljava/lang/Throwable;)V".as_slice() {
        return BuiltInMethod::ConstructWithCause;
    }
    BuiltInMethod::Construct
}

/// Which of them a method without code is: the constructors of exceptions and those that only take their operands have
/// no row of their own.
pub(crate) fn built_in_method(method: Reference<'_>) -> BuiltInMethod
    ensures { built_in_of result ≡ built_in_method (reference_of method.entry) }
{
    match declared_among(&DECLARED, method) {
        Some(declared) => declared,
        None => constructor(method.descriptor),
    }
}

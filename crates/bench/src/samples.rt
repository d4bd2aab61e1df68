//! Methods by their linked code, as a linker would make it of what javac makes of a loop.

use linked_code::LinkedInstruction;
use linked_code::LinkedInstruction::{
    Add, And, Bound, Const, ExclusiveOr, GetField, Goto, IfEqual, IfIntsGreater,
    IfIntsGreaterOrEqual, IfNotEqual, Increment, Jump, Load, LoadElement, Multiply, PutField,
    Remainder, ReturnValue, Store, StoreInt, TableSwitch, UnsignedShiftRight,
};

/// Counts up to local variable 0.
static COUNT: [LinkedInstruction; 9] = [
    Const(0),
    Store(1),
    Load(1),
    Load(0),
    IfIntsGreaterOrEqual(7),
    Increment { local: 1, by: 1 },
    Goto(2),
    Load(1),
    ReturnValue,
];

/// Mixes as many numbers as local variable 0 says.
static MIX: [LinkedInstruction; 21] = [
    Const(0),
    Store(1),
    Const(0),
    Store(2),
    Load(2),
    Load(0),
    IfIntsGreaterOrEqual(19),
    Load(1),
    Const(31),
    Multiply,
    Load(2),
    Load(1),
    Const(3),
    UnsignedShiftRight,
    ExclusiveOr,
    Add,
    Store(1),
    Increment { local: 2, by: 1 },
    Goto(4),
    Load(1),
    ReturnValue,
];

/// How many primes are below local variable 0, by division.
static PRIMES: [LinkedInstruction; 25] = [
    Const(0),
    Store(3),
    Const(2),
    Store(1),
    Load(1),
    Load(0),
    IfIntsGreaterOrEqual(23),
    Const(2),
    Store(2),
    Load(2),
    Load(2),
    Multiply,
    Load(1),
    IfIntsGreater(20),
    Load(1),
    Load(2),
    Remainder,
    IfEqual(21),
    Increment { local: 2, by: 1 },
    Goto(9),
    Increment { local: 3, by: 1 },
    Increment { local: 1, by: 1 },
    Goto(4),
    Load(3),
    ReturnValue,
];

/// A switch, as often as local variable 0 says.
static SWITCH: [LinkedInstruction; 27] = [
    Const(0),
    Store(1),
    Const(0),
    Store(2),
    Load(1),
    Load(0),
    IfIntsGreaterOrEqual(25),
    Load(1),
    Const(3),
    And,
    TableSwitch { low: 0 },
    Bound { high: 3 },
    Jump(17),
    Jump(19),
    Jump(21),
    Jump(17),
    Jump(21),
    Increment { local: 2, by: 1 },
    Goto(23),
    Increment { local: 2, by: 2 },
    Goto(23),
    Increment { local: 2, by: 3 },
    Goto(23),
    Increment { local: 1, by: 1 },
    Goto(4),
    Load(2),
    ReturnValue,
];

/// How many primes are below local variable 0, by an array of as many ints in local variable 1.
static SIEVE: [LinkedInstruction; 32] = [
    Const(0),
    Store(4),
    Const(2),
    Store(2),
    Load(2),
    Load(0),
    IfIntsGreaterOrEqual(30),
    Load(1),
    Load(2),
    LoadElement,
    IfNotEqual(28),
    Increment { local: 4, by: 1 },
    Load(2),
    Load(2),
    Add,
    Store(3),
    Load(3),
    Load(0),
    IfIntsGreaterOrEqual(28),
    Load(1),
    Load(3),
    Const(1),
    StoreInt,
    Load(3),
    Load(2),
    Add,
    Store(3),
    Goto(16),
    Increment { local: 2, by: 1 },
    Goto(4),
    Load(4),
    ReturnValue,
];

/// Adds up the numbers below local variable 0, in a field of the object in local variable 1.
static FIELD: [LinkedInstruction; 16] = [
    Const(0),
    Store(2),
    Load(2),
    Load(0),
    IfIntsGreaterOrEqual(13),
    Load(1),
    Load(1),
    GetField(0),
    Load(2),
    Add,
    PutField(0),
    Increment { local: 2, by: 1 },
    Goto(2),
    Load(1),
    GetField(0),
    ReturnValue,
];

/// What a method has in local variable 1.
#[derive(Clone, Copy)]
pub enum Argument {
    Nothing,
    /// An array of as many ints as local variable 0 says.
    Ints,
    /// An object with one field.
    Object,
}

/// A method of an int, and of what it works on.
#[derive(Clone, Copy)]
pub struct Sample {
    pub name: &'static str,
    pub code: &'static [LinkedInstruction],
    pub argument: Argument,
}

fn made(name: &'static str, code: &'static [LinkedInstruction], argument: Argument) -> Sample {
    Sample {
        name,
        code,
        argument,
    }
}

/// All of them.
pub fn samples() -> [Sample; 6] {
    [
        made("count", &COUNT, Argument::Nothing),
        made("mix", &MIX, Argument::Nothing),
        made("primes", &PRIMES, Argument::Nothing),
        made("switch", &SWITCH, Argument::Nothing),
        made("sieve", &SIEVE, Argument::Ints),
        made("field", &FIELD, Argument::Object),
    ]
}

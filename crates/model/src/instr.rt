//! Instructions (JVMS chapter 6), by families.

/// Of which kind a local variable is that an instruction loads or stores.
#[derive(Clone, Copy)]
pub enum Kind {
    Int,
    Reference,
}

/// An array by what it holds. `baload` and `bastore` take arrays of booleans and of bytes.
#[derive(Clone, Copy)]
pub enum ArrayKind {
    Int,
    Reference,
    ByteOrBoolean,
    Char,
    Short,
}

/// What is computed from two ints.
#[derive(Clone, Copy)]
pub enum Arithmetic {
    Add,
    Subtract,
    Multiply,
    Divide,
    Remainder,
    ShiftLeft,
    ShiftRight,
    UnsignedShiftRight,
    And,
    Or,
    ExclusiveOr,
}

/// To what an int is narrowed.
#[derive(Clone, Copy)]
pub enum Conversion {
    ToByte,
    ToChar,
    ToShort,
}

/// How two ints are compared, the second from the top with the top.
#[derive(Clone, Copy)]
pub enum Comparison {
    Equal,
    NotEqual,
    Less,
    GreaterOrEqual,
    Greater,
    LessOrEqual,
}

/// What moves words of the operand stack, whatever they are.
#[derive(Clone, Copy)]
pub enum StackMove {
    Pop,
    Pop2,
    Dup,
    DupX1,
    DupX2,
    Dup2,
    Dup2X1,
    Dup2X2,
    Swap,
}

/// What a return instruction returns.
#[derive(Clone, Copy)]
pub enum Returned {
    Nothing,
    Int,
    Reference,
}

#[derive(Clone, Copy)]
pub enum FieldAccess {
    GetStatic,
    PutStatic,
    GetField,
    PutField,
}

#[derive(Clone, Copy)]
pub enum Invocation {
    Virtual,
    Special,
    Static,
}

/// An instruction, by its family. The opcodes of one family differ in how they spell an operand: `iload_0`,
/// `iload 0` and `wide iload 0` are one. An index is one of the constant pool. A jump is counted from the offset
/// of the opcode. The jumps of a `tableswitch`, and the pairs of a `lookupswitch`, stay in the code, from the
/// offset `at` on.
#[derive(Clone, Copy)]
pub enum Instr {
    Nop,
    /// `aconst_null`.
    Null,
    /// `iconst_m1` to `iconst_5`, `bipush` and `sipush`.
    Const(i32),
    /// `ldc` and `ldc_w`.
    LoadConstant {
        index: u16,
    },
    Load {
        kind: Kind,
        local: u16,
    },
    Store {
        kind: Kind,
        local: u16,
    },
    LoadElement(ArrayKind),
    StoreElement(ArrayKind),
    Move(StackMove),
    Compute(Arithmetic),
    Negate,
    Increment {
        local: u16,
        by: i16,
    },
    Convert(Conversion),
    /// `ifeq` to `ifle`: an int is compared with 0.
    If {
        comparison: Comparison,
        by: i32,
    },
    /// `if_icmpeq` to `if_icmple`.
    IfInts {
        comparison: Comparison,
        by: i32,
    },
    /// `if_acmpeq` and `if_acmpne`.
    IfReferences {
        equal: bool,
        by: i32,
    },
    /// `ifnull` and `ifnonnull`.
    IfNull {
        null: bool,
        by: i32,
    },
    Goto {
        by: i32,
    },
    /// The jump for `low + k` is the `k`th.
    TableSwitch {
        default: i32,
        low: i32,
        high: i32,
        at: usize,
    },
    LookupSwitch {
        default: i32,
        pairs: u32,
        at: usize,
    },
    Return(Returned),
    Field {
        access: FieldAccess,
        index: u16,
    },
    Invoke {
        invocation: Invocation,
        index: u16,
    },
    /// The count and the last byte are those of the instruction, whatever they are.
    InvokeInterface {
        index: u16,
        count: u8,
        last: u8,
    },
    New {
        index: u16,
    },
    /// The code of the element type, whatever it is.
    NewArray {
        code: u8,
    },
    /// `anewarray`.
    NewReferenceArray {
        index: u16,
    },
    ArrayLength,
    Throw,
    CheckCast {
        index: u16,
    },
    InstanceOf {
        index: u16,
    },
    MonitorEnter,
    MonitorExit,
}

//! The class java/lang/Throwable.
//!
//! Made by `tools/build-built-in` of the class files of builtin/classes. Not to be edited.

use crate::builtin::form::{BuiltInClass, Coded, Declared, Operand, Stored};

/// The code of `<init>(Ljava/lang/Throwable;)V`.
const INIT: [u8; 18] = [
    0x2a, 0x2b, 0xc7, 0, 7, 0x01, 0xa7, 0, 7, 0x2b, 0xb6, 0, 22, 0x2b, 0xb7, 0, 26, 0xb1,
];

/// The code of `getMessage()Ljava/lang/String;`.
const GET_MESSAGE: [u8; 5] = [0x2a, 0xb4, 0, 30, 0xb0];

/// The code of `getLocalizedMessage()Ljava/lang/String;`.
const GET_LOCALIZED_MESSAGE: [u8; 5] = [0x2a, 0xb6, 0, 33, 0xb0];

/// The code of `getCause()Ljava/lang/Throwable;`.
const GET_CAUSE: [u8; 5] = [0x2a, 0xb4, 0, 37, 0xb0];

/// The code of `initCause(Ljava/lang/Throwable;)Ljava/lang/Throwable;`.
const INIT_CAUSE: [u8; 59] = [
    0x2a, 0xb4, 0, 37, 0xc6, 0, 32, 0x2b, 0xc7, 0, 8, 0x12, 6, 0xa7, 0, 7, 0x2b, 0xb6, 0, 22, 0x4d,
    0xbb, 0, 39, 0x59, 0x12, 8, 0x2c, 0xb6, 0, 45, 0x2a, 0xb7, 0, 46, 0xbf, 0x2b, 0x2a, 0xa6, 0,
    14, 0xbb, 0, 48, 0x59, 0x12, 10, 0x2a, 0xb7, 0, 49, 0xbf, 0x2a, 0x2b, 0xb5, 0, 37, 0x2a, 0xb0,
];

/// The code of `toString()Ljava/lang/String;`.
const TO_STRING: [u8; 32] = [
    0x2a, 0xb6, 0, 53, 0xb6, 0, 58, 0x4c, 0x2a, 0xb6, 0, 61, 0x4d, 0x2c, 0xc7, 0, 7, 0x2b, 0xa7, 0,
    13, 0x2b, 0x12, 12, 0xb6, 0, 45, 0x2c, 0xb6, 0, 45, 0xb0,
];

/// The code of `printStackTrace()V`.
const PRINT_STACK_TRACE: [u8; 8] = [0x2a, 0xb2, 0, 67, 0xb6, 0, 71, 0xb1];

/// The code of `printStackTrace(Ljava/io/PrintStream;)V`.
const PRINT_STACK_TRACE_2: [u8; 78] = [
    0x2b, 0x2a, 0xb6, 0, 77, 0x03, 0x3d, 0x2a, 0xb6, 0, 81, 0x4e, 0x2d, 0xc6, 0, 64, 0x2a, 0x3a, 4,
    0x03, 0x36, 5, 0x15, 5, 0x1c, 0xa3, 0, 28, 0x19, 4, 0xc6, 0, 23, 0x19, 4, 0x2d, 0xa6, 0, 4,
    0xb1, 0x19, 4, 0xb6, 0, 81, 0x3a, 4, 0x84, 5, 1, 0xa7, 255, 228, 0x2b, 0x12, 14, 0x2d, 0xb6, 0,
    22, 0xb6, 0, 45, 0xb6, 0, 84, 0x84, 2, 1, 0x2d, 0xb6, 0, 81, 0x4e, 0xa7, 255, 194, 0xb1,
];

/// The code of `fillInStackTrace()Ljava/lang/Throwable;`.
const FILL_IN_STACK_TRACE: [u8; 2] = [0x2a, 0xb0];

/// The code of `addSuppressed(Ljava/lang/Throwable;)V`.
const ADD_SUPPRESSED: [u8; 90] = [
    0x2b, 0x2a, 0xa6, 0, 14, 0xbb, 0, 48, 0x59, 0x12, 16, 0x2b, 0xb7, 0, 49, 0xbf, 0x2b, 0xc7, 0,
    13, 0xbb, 0, 86, 0x59, 0x12, 18, 0xb7, 0, 88, 0xbf, 0x2a, 0xb4, 0, 92, 0xc7, 0, 7, 0x03, 0xa7,
    0, 8, 0x2a, 0xb4, 0, 92, 0xbe, 0x3d, 0x1c, 0x04, 0x60, 0xbd, 0, 2, 0x4e, 0x03, 0x36, 4, 0x15,
    4, 0x1c, 0xa2, 0, 20, 0x2d, 0x15, 4, 0x2a, 0xb4, 0, 92, 0x15, 4, 0x32, 0x53, 0x84, 4, 1, 0xa7,
    255, 236, 0x2d, 0x1c, 0x2b, 0x53, 0x2a, 0x2d, 0xb5, 0, 92, 0xb1,
];

/// The code of `getSuppressed()[Ljava/lang/Throwable;`.
const GET_SUPPRESSED: [u8; 46] = [
    0x2a, 0xb4, 0, 92, 0xc7, 0, 7, 0x03, 0xa7, 0, 8, 0x2a, 0xb4, 0, 92, 0xbe, 0x3c, 0x1b, 0xbd, 0,
    2, 0x4d, 0x03, 0x3e, 0x1d, 0x1b, 0xa2, 0, 18, 0x2c, 0x1d, 0x2a, 0xb4, 0, 92, 0x1d, 0x32, 0x53,
    0x84, 3, 1, 0xa7, 255, 239, 0x2c, 0xb0,
];

pub(crate) const THROWABLE: BuiltInClass = BuiltInClass {
    flags: 0x0021,
    name: b"java/lang/Throwable",
    superclass: Some(b"java/lang/Object"),
    interfaces: &[],
    operands: &[
        Operand::Utf8(b"a null"),
        Operand::String(5),
        Operand::Utf8(b"Can't overwrite cause with "),
        Operand::String(7),
        Operand::Utf8(b"Self-causation not permitted"),
        Operand::String(9),
        Operand::Utf8(b": "),
        Operand::String(11),
        Operand::Utf8(b"Caused by: "),
        Operand::String(13),
        Operand::Utf8(b"Self-suppression not permitted"),
        Operand::String(15),
        Operand::Utf8(b"Cannot suppress a null exception."),
        Operand::String(17),
        Operand::Utf8(b"toString"),
        Operand::Utf8(b"()Ljava/lang/String;"),
        Operand::NameAndType(19, 20),
        Operand::Method(2, 21),
        Operand::Utf8(b"<init>"),
        Operand::Utf8(b"(Ljava/lang/String;Ljava/lang/Throwable;)V"),
        Operand::NameAndType(23, 24),
        Operand::Method(2, 25),
        Operand::Utf8(b"message"),
        Operand::Utf8(b"Ljava/lang/String;"),
        Operand::NameAndType(27, 28),
        Operand::Field(2, 29),
        Operand::Utf8(b"getMessage"),
        Operand::NameAndType(31, 20),
        Operand::Method(2, 32),
        Operand::Utf8(b"cause"),
        Operand::Utf8(b"Ljava/lang/Throwable;"),
        Operand::NameAndType(34, 35),
        Operand::Field(2, 36),
        Operand::Utf8(b"java/lang/IllegalStateException"),
        Operand::Class(38),
        Operand::Utf8(b"java/lang/String"),
        Operand::Class(40),
        Operand::Utf8(b"concat"),
        Operand::Utf8(b"(Ljava/lang/String;)Ljava/lang/String;"),
        Operand::NameAndType(42, 43),
        Operand::Method(41, 44),
        Operand::Method(39, 25),
        Operand::Utf8(b"java/lang/IllegalArgumentException"),
        Operand::Class(47),
        Operand::Method(48, 25),
        Operand::Utf8(b"getClass"),
        Operand::Utf8(b"()Ljava/lang/Class;"),
        Operand::NameAndType(50, 51),
        Operand::Method(4, 52),
        Operand::Utf8(b"java/lang/Class"),
        Operand::Class(54),
        Operand::Utf8(b"getName"),
        Operand::NameAndType(56, 20),
        Operand::Method(55, 57),
        Operand::Utf8(b"getLocalizedMessage"),
        Operand::NameAndType(59, 20),
        Operand::Method(2, 60),
        Operand::Utf8(b"java/lang/System"),
        Operand::Class(62),
        Operand::Utf8(b"err"),
        Operand::Utf8(b"Ljava/io/PrintStream;"),
        Operand::NameAndType(64, 65),
        Operand::Field(63, 66),
        Operand::Utf8(b"printStackTrace"),
        Operand::Utf8(b"(Ljava/io/PrintStream;)V"),
        Operand::NameAndType(68, 69),
        Operand::Method(2, 70),
        Operand::Utf8(b"java/io/PrintStream"),
        Operand::Class(72),
        Operand::Utf8(b"println"),
        Operand::Utf8(b"(Ljava/lang/Object;)V"),
        Operand::NameAndType(74, 75),
        Operand::Method(73, 76),
        Operand::Utf8(b"getCause"),
        Operand::Utf8(b"()Ljava/lang/Throwable;"),
        Operand::NameAndType(78, 79),
        Operand::Method(2, 80),
        Operand::Utf8(b"(Ljava/lang/String;)V"),
        Operand::NameAndType(74, 82),
        Operand::Method(73, 83),
        Operand::Utf8(b"java/lang/NullPointerException"),
        Operand::Class(85),
        Operand::NameAndType(23, 82),
        Operand::Method(86, 87),
        Operand::Utf8(b"suppressed"),
        Operand::Utf8(b"[Ljava/lang/Throwable;"),
        Operand::NameAndType(89, 90),
        Operand::Field(2, 91),
        Operand::Utf8(b"(Ljava/lang/Throwable;)V"),
        Operand::Utf8(b"initCause"),
        Operand::Utf8(b"(Ljava/lang/Throwable;)Ljava/lang/Throwable;"),
        Operand::Utf8(b"()V"),
        Operand::Utf8(b"fillInStackTrace"),
        Operand::Utf8(b"addSuppressed"),
        Operand::Utf8(b"getSuppressed"),
        Operand::Utf8(b"()[Ljava/lang/Throwable;"),
        Operand::Utf8(b"Code"),
    ],
    fields: &[
        Stored(0x0002, 27, 28),
        Stored(0x0002, 34, 35),
        Stored(0x0002, 89, 90),
    ],
    coded: &[
        Coded(0x0001, 23, 93, 3, 2, &INIT),
        Coded(0x0001, 31, 20, 1, 1, &GET_MESSAGE),
        Coded(0x0001, 59, 20, 1, 1, &GET_LOCALIZED_MESSAGE),
        Coded(0x0001, 78, 79, 1, 1, &GET_CAUSE),
        Coded(0x0021, 94, 95, 4, 3, &INIT_CAUSE),
        Coded(0x0001, 19, 20, 2, 3, &TO_STRING),
        Coded(0x0001, 68, 96, 2, 1, &PRINT_STACK_TRACE),
        Coded(0x0001, 68, 69, 3, 6, &PRINT_STACK_TRACE_2),
        Coded(0x0001, 97, 79, 1, 1, &FILL_IN_STACK_TRACE),
        Coded(0x0031, 98, 93, 4, 5, &ADD_SUPPRESSED),
        Coded(0x0031, 99, 100, 4, 4, &GET_SUPPRESSED),
    ],
    natives: &[
        Declared(0x0101, b"<init>", b"()V"),
        Declared(0x0101, b"<init>", b"(Ljava/lang/String;)V"),
        Declared(
            0x0101,
            b"<init>",
            b"(Ljava/lang/String;Ljava/lang/Throwable;)V",
        ),
    ],
};

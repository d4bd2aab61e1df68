//! The class java/lang/AssertionError.
//!
//! Made by `tools/build-built-in` of the class files of builtin/classes. Not to be edited.

use crate::builtin::form::{BuiltInClass, Coded, Declared, Operand};

/// The code of `<init>(Ljava/lang/Object;)V`.
const INIT: [u8; 25] = [
    0x2a, 0x2b, 0xb8, 0, 10, 0xb7, 0, 14, 0x2b, 0xc1, 0, 16, 0x99, 0, 12, 0x2a, 0x2b, 0xc0, 0, 16,
    0xb6, 0, 20, 0x57, 0xb1,
];

/// The code of `<init>(Z)V`.
const INIT_2: [u8; 9] = [0x2a, 0x1b, 0xb8, 0, 23, 0xb7, 0, 14, 0xb1];

/// The code of `<init>(C)V`.
const INIT_3: [u8; 9] = [0x2a, 0x1b, 0xb8, 0, 26, 0xb7, 0, 14, 0xb1];

/// The code of `<init>(I)V`.
const INIT_4: [u8; 9] = [0x2a, 0x1b, 0xb8, 0, 29, 0xb7, 0, 14, 0xb1];

pub(crate) const ASSERTION_ERROR: BuiltInClass = BuiltInClass {
    flags: 0x0021,
    name: b"java/lang/AssertionError",
    superclass: Some(b"java/lang/Error"),
    interfaces: &[],
    operands: &[
        Operand::Utf8(b"java/lang/String"),
        Operand::Class(5),
        Operand::Utf8(b"valueOf"),
        Operand::Utf8(b"(Ljava/lang/Object;)Ljava/lang/String;"),
        Operand::NameAndType(7, 8),
        Operand::Method(6, 9),
        Operand::Utf8(b"<init>"),
        Operand::Utf8(b"(Ljava/lang/String;)V"),
        Operand::NameAndType(11, 12),
        Operand::Method(4, 13),
        Operand::Utf8(b"java/lang/Throwable"),
        Operand::Class(15),
        Operand::Utf8(b"initCause"),
        Operand::Utf8(b"(Ljava/lang/Throwable;)Ljava/lang/Throwable;"),
        Operand::NameAndType(17, 18),
        Operand::Method(2, 19),
        Operand::Utf8(b"(Z)Ljava/lang/String;"),
        Operand::NameAndType(7, 21),
        Operand::Method(6, 22),
        Operand::Utf8(b"(C)Ljava/lang/String;"),
        Operand::NameAndType(7, 24),
        Operand::Method(6, 25),
        Operand::Utf8(b"(I)Ljava/lang/String;"),
        Operand::NameAndType(7, 27),
        Operand::Method(6, 28),
        Operand::Utf8(b"(Ljava/lang/Object;)V"),
        Operand::Utf8(b"(Z)V"),
        Operand::Utf8(b"(C)V"),
        Operand::Utf8(b"(I)V"),
        Operand::Utf8(b"Code"),
    ],
    fields: &[],
    coded: &[
        Coded(0x0001, 11, 30, 2, 2, &INIT),
        Coded(0x0001, 11, 31, 2, 2, &INIT_2),
        Coded(0x0001, 11, 32, 2, 2, &INIT_3),
        Coded(0x0001, 11, 33, 2, 2, &INIT_4),
    ],
    natives: &[
        Declared(0x0101, b"<init>", b"()V"),
        Declared(
            0x0101,
            b"<init>",
            b"(Ljava/lang/String;Ljava/lang/Throwable;)V",
        ),
    ],
};

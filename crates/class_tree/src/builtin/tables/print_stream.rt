//! The class java/io/PrintStream.
//!
//! Made by `tools/build-built-in` of the class files of builtin/classes. Not to be edited.

use crate::builtin::form::{BuiltInClass, Coded, Declared, Operand};

/// The code of `println(Z)V`.
const PRINTLN: [u8; 9] = [0x2a, 0x1b, 0xb8, 0, 10, 0xb6, 0, 14, 0xb1];

/// The code of `println([C)V`.
const PRINTLN_2: [u8; 9] = [0x2a, 0x2b, 0xb8, 0, 17, 0xb6, 0, 14, 0xb1];

/// The code of `println(Ljava/lang/Object;)V`.
const PRINTLN_3: [u8; 9] = [0x2a, 0x2b, 0xb8, 0, 20, 0xb6, 0, 14, 0xb1];

/// The code of `print(Z)V`.
const PRINT: [u8; 9] = [0x2a, 0x1b, 0xb8, 0, 10, 0xb6, 0, 23, 0xb1];

/// The code of `print([C)V`.
const PRINT_2: [u8; 9] = [0x2a, 0x2b, 0xb8, 0, 17, 0xb6, 0, 23, 0xb1];

/// The code of `print(Ljava/lang/Object;)V`.
const PRINT_3: [u8; 9] = [0x2a, 0x2b, 0xb8, 0, 20, 0xb6, 0, 23, 0xb1];

/// The code of `flush()V`.
const FLUSH: [u8; 1] = [0xb1];

pub(crate) const PRINT_STREAM: BuiltInClass = BuiltInClass {
    flags: 0x0021,
    name: b"java/io/PrintStream",
    superclass: Some(b"java/lang/Object"),
    interfaces: &[],
    operands: &[
        Operand::Utf8(b"java/lang/String"),
        Operand::Class(5),
        Operand::Utf8(b"valueOf"),
        Operand::Utf8(b"(Z)Ljava/lang/String;"),
        Operand::NameAndType(7, 8),
        Operand::Method(6, 9),
        Operand::Utf8(b"println"),
        Operand::Utf8(b"(Ljava/lang/String;)V"),
        Operand::NameAndType(11, 12),
        Operand::Method(2, 13),
        Operand::Utf8(b"([C)Ljava/lang/String;"),
        Operand::NameAndType(7, 15),
        Operand::Method(6, 16),
        Operand::Utf8(b"(Ljava/lang/Object;)Ljava/lang/String;"),
        Operand::NameAndType(7, 18),
        Operand::Method(6, 19),
        Operand::Utf8(b"print"),
        Operand::NameAndType(21, 12),
        Operand::Method(2, 22),
        Operand::Utf8(b"(Z)V"),
        Operand::Utf8(b"([C)V"),
        Operand::Utf8(b"(Ljava/lang/Object;)V"),
        Operand::Utf8(b"flush"),
        Operand::Utf8(b"()V"),
        Operand::Utf8(b"Code"),
    ],
    fields: &[],
    coded: &[
        Coded(0x0001, 11, 24, 2, 2, &PRINTLN),
        Coded(0x0001, 11, 25, 2, 2, &PRINTLN_2),
        Coded(0x0001, 11, 26, 2, 2, &PRINTLN_3),
        Coded(0x0001, 21, 24, 2, 2, &PRINT),
        Coded(0x0001, 21, 25, 2, 2, &PRINT_2),
        Coded(0x0001, 21, 26, 2, 2, &PRINT_3),
        Coded(0x0001, 27, 28, 0, 1, &FLUSH),
    ],
    natives: &[
        Declared(0x0101, b"println", b"()V"),
        Declared(0x0101, b"println", b"(C)V"),
        Declared(0x0101, b"println", b"(I)V"),
        Declared(0x0101, b"println", b"(Ljava/lang/String;)V"),
        Declared(0x0101, b"print", b"(C)V"),
        Declared(0x0101, b"print", b"(I)V"),
        Declared(0x0101, b"print", b"(Ljava/lang/String;)V"),
    ],
};

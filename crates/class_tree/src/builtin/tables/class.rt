//! The class java/lang/Class.
//!
//! Made by `tools/build-built-in` of the class files of builtin/classes. Not to be edited.

use crate::builtin::form::{BuiltInClass, Coded, Declared, Operand};

/// The code of `getSimpleName()Ljava/lang/String;`.
const GET_SIMPLE_NAME: [u8; 79] = [
    0x2a, 0xb6, 0, 10, 0x4c, 0x2b, 0x10, 46, 0xb6, 0, 16, 0x3d, 0x2b, 0x10, 36, 0xb6, 0, 16, 0x3e,
    0x1c, 0x1d, 0xa2, 0, 9, 0x1d, 0x04, 0x60, 0xa7, 0, 6, 0x1c, 0x04, 0x60, 0x36, 4, 0x15, 4, 0x2b,
    0xb6, 0, 20, 0xa2, 0, 31, 0x2b, 0x15, 4, 0xb6, 0, 24, 0x10, 48, 0xa1, 0, 20, 0x2b, 0x15, 4,
    0xb6, 0, 24, 0x10, 57, 0xa3, 0, 9, 0x84, 4, 1, 0xa7, 255, 222, 0x2b, 0x15, 4, 0xb6, 0, 28,
    0xb0,
];

/// The code of `toString()Ljava/lang/String;`.
const TO_STRING: [u8; 10] = [0x12, 6, 0x2a, 0xb6, 0, 10, 0xb6, 0, 32, 0xb0];

/// The code of `desiredAssertionStatus()Z`.
const DESIRED_ASSERTION_STATUS: [u8; 2] = [0x04, 0xac];

pub(crate) const CLASS: BuiltInClass = BuiltInClass {
    flags: 0x0031,
    name: b"java/lang/Class",
    superclass: Some(b"java/lang/Object"),
    interfaces: &[],
    operands: &[
        Operand::Utf8(b"class "),
        Operand::String(5),
        Operand::Utf8(b"getName"),
        Operand::Utf8(b"()Ljava/lang/String;"),
        Operand::NameAndType(7, 8),
        Operand::Method(2, 9),
        Operand::Utf8(b"java/lang/String"),
        Operand::Class(11),
        Operand::Utf8(b"lastIndexOf"),
        Operand::Utf8(b"(I)I"),
        Operand::NameAndType(13, 14),
        Operand::Method(12, 15),
        Operand::Utf8(b"length"),
        Operand::Utf8(b"()I"),
        Operand::NameAndType(17, 18),
        Operand::Method(12, 19),
        Operand::Utf8(b"charAt"),
        Operand::Utf8(b"(I)C"),
        Operand::NameAndType(21, 22),
        Operand::Method(12, 23),
        Operand::Utf8(b"substring"),
        Operand::Utf8(b"(I)Ljava/lang/String;"),
        Operand::NameAndType(25, 26),
        Operand::Method(12, 27),
        Operand::Utf8(b"concat"),
        Operand::Utf8(b"(Ljava/lang/String;)Ljava/lang/String;"),
        Operand::NameAndType(29, 30),
        Operand::Method(12, 31),
        Operand::Utf8(b"getSimpleName"),
        Operand::Utf8(b"toString"),
        Operand::Utf8(b"desiredAssertionStatus"),
        Operand::Utf8(b"()Z"),
        Operand::Utf8(b"Code"),
    ],
    fields: &[],
    coded: &[
        Coded(0x0001, 33, 8, 2, 5, &GET_SIMPLE_NAME),
        Coded(0x0001, 34, 8, 2, 1, &TO_STRING),
        Coded(0x0001, 35, 36, 1, 1, &DESIRED_ASSERTION_STATUS),
    ],
    natives: &[Declared(0x0101, b"getName", b"()Ljava/lang/String;")],
};

//! The class java/lang/StringIndexOutOfBoundsException.
//!
//! Made by `tools/build-built-in` of the class files of builtin/classes. Not to be edited.

use crate::builtin::form::{BuiltInClass, Coded, Declared, Operand};

/// The code of `<init>(I)V`.
const INIT: [u8; 14] = [
    0x2a, 0x12, 6, 0x1b, 0xb8, 0, 12, 0xb6, 0, 16, 0xb7, 0, 20, 0xb1,
];

pub(crate) const STRING_INDEX_OUT_OF_BOUNDS_EXCEPTION: BuiltInClass = BuiltInClass {
    flags: 0x0021,
    name: b"java/lang/StringIndexOutOfBoundsException",
    superclass: Some(b"java/lang/IndexOutOfBoundsException"),
    interfaces: &[],
    operands: &[
        Operand::Utf8(b"String index out of range: "),
        Operand::String(5),
        Operand::Utf8(b"java/lang/String"),
        Operand::Class(7),
        Operand::Utf8(b"valueOf"),
        Operand::Utf8(b"(I)Ljava/lang/String;"),
        Operand::NameAndType(9, 10),
        Operand::Method(8, 11),
        Operand::Utf8(b"concat"),
        Operand::Utf8(b"(Ljava/lang/String;)Ljava/lang/String;"),
        Operand::NameAndType(13, 14),
        Operand::Method(8, 15),
        Operand::Utf8(b"<init>"),
        Operand::Utf8(b"(Ljava/lang/String;)V"),
        Operand::NameAndType(17, 18),
        Operand::Method(4, 19),
        Operand::Utf8(b"(I)V"),
        Operand::Utf8(b"Code"),
    ],
    fields: &[],
    coded: &[Coded(0x0001, 17, 21, 3, 2, &INIT)],
    natives: &[
        Declared(0x0101, b"<init>", b"()V"),
        Declared(0x0101, b"<init>", b"(Ljava/lang/String;)V"),
    ],
};

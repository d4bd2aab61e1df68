//! The class java/lang/Object.
//!
//! Made by `tools/build-built-in` of the class files of builtin/classes. Not to be edited.

use crate::builtin::form::{BuiltInClass, Coded, Declared, Operand};

/// The code of `equals(Ljava/lang/Object;)Z`.
const EQUALS: [u8; 11] = [0x2a, 0x2b, 0xa6, 0, 7, 0x04, 0xa7, 0, 4, 0x03, 0xac];

/// The code of `toString()Ljava/lang/String;`.
const TO_STRING: [u8; 9] = [0x2a, 0x2a, 0xb6, 0, 6, 0xb8, 0, 12, 0xb0];

pub(crate) const OBJECT: BuiltInClass = BuiltInClass {
    flags: 0x0021,
    name: b"java/lang/Object",
    superclass: None,
    interfaces: &[],
    operands: &[
        Operand::Utf8(b"hashCode"),
        Operand::Utf8(b"()I"),
        Operand::NameAndType(3, 4),
        Operand::Method(2, 5),
        Operand::Utf8(b"java/lang/String"),
        Operand::Class(7),
        Operand::Utf8(b"described"),
        Operand::Utf8(b"(Ljava/lang/Object;I)Ljava/lang/String;"),
        Operand::NameAndType(9, 10),
        Operand::Method(8, 11),
        Operand::Utf8(b"equals"),
        Operand::Utf8(b"(Ljava/lang/Object;)Z"),
        Operand::Utf8(b"toString"),
        Operand::Utf8(b"()Ljava/lang/String;"),
        Operand::Utf8(b"Code"),
    ],
    fields: &[],
    coded: &[
        Coded(0x0001, 13, 14, 2, 2, &EQUALS),
        Coded(0x0001, 15, 16, 2, 1, &TO_STRING),
    ],
    natives: &[
        Declared(0x0101, b"<init>", b"()V"),
        Declared(0x0101, b"hashCode", b"()I"),
        Declared(0x0111, b"getClass", b"()Ljava/lang/Class;"),
        Declared(0x0104, b"clone", b"()Ljava/lang/Object;"),
        Declared(0x0111, b"wait", b"()V"),
        Declared(0x0111, b"notify", b"()V"),
        Declared(0x0111, b"notifyAll", b"()V"),
    ],
};

//! The class java/lang/ExceptionInInitializerError.
//!
//! Made by `tools/build-built-in` of the class files of builtin/classes. Not to be edited.

use crate::builtin::form::{BuiltInClass, Coded, Declared, Operand};

/// The code of `<init>(Ljava/lang/Throwable;)V`.
const INIT: [u8; 7] = [0x2a, 0x01, 0x2b, 0xb7, 0, 8, 0xb1];

/// The code of `getException()Ljava/lang/Throwable;`.
const GET_EXCEPTION: [u8; 5] = [0x2a, 0xb7, 0, 12, 0xb0];

pub(crate) const EXCEPTION_IN_INITIALIZER_ERROR: BuiltInClass = BuiltInClass {
    flags: 0x0021,
    name: b"java/lang/ExceptionInInitializerError",
    superclass: Some(b"java/lang/LinkageError"),
    interfaces: &[],
    operands: &[
        Operand::Utf8(b"<init>"),
        Operand::Utf8(b"(Ljava/lang/String;Ljava/lang/Throwable;)V"),
        Operand::NameAndType(5, 6),
        Operand::Method(4, 7),
        Operand::Utf8(b"getCause"),
        Operand::Utf8(b"()Ljava/lang/Throwable;"),
        Operand::NameAndType(9, 10),
        Operand::Method(4, 11),
        Operand::Utf8(b"(Ljava/lang/Throwable;)V"),
        Operand::Utf8(b"getException"),
        Operand::Utf8(b"Code"),
    ],
    fields: &[],
    coded: &[
        Coded(0x0001, 5, 13, 3, 2, &INIT),
        Coded(0x0001, 14, 10, 1, 1, &GET_EXCEPTION),
    ],
    natives: &[
        Declared(0x0101, b"<init>", b"()V"),
        Declared(0x0101, b"<init>", b"(Ljava/lang/String;)V"),
    ],
};

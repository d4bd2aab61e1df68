//! The class java/lang/RuntimeException.
//!
//! Made by `tools/build-built-in` of the class files of builtin/classes. Not to be edited.

use crate::builtin::form::{BuiltInClass, Coded, Declared, Operand};

/// The code of `<init>(Ljava/lang/Throwable;)V`.
const INIT: [u8; 6] = [0x2a, 0x2b, 0xb7, 0, 8, 0xb1];

pub(crate) const RUNTIME_EXCEPTION: BuiltInClass = BuiltInClass {
    flags: 0x0021,
    name: b"java/lang/RuntimeException",
    superclass: Some(b"java/lang/Exception"),
    interfaces: &[],
    operands: &[
        Operand::Utf8(b"<init>"),
        Operand::Utf8(b"(Ljava/lang/Throwable;)V"),
        Operand::NameAndType(5, 6),
        Operand::Method(4, 7),
        Operand::Utf8(b"Code"),
    ],
    fields: &[],
    coded: &[Coded(0x0001, 5, 6, 2, 2, &INIT)],
    natives: &[
        Declared(0x0101, b"<init>", b"()V"),
        Declared(0x0101, b"<init>", b"(Ljava/lang/String;)V"),
        Declared(
            0x0101,
            b"<init>",
            b"(Ljava/lang/String;Ljava/lang/Throwable;)V",
        ),
    ],
};

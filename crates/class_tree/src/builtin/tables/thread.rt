//! The class java/lang/Thread.
//!
//! Made by `tools/build-built-in` of the class files of builtin/classes. Not to be edited.

use crate::builtin::form::{BuiltInClass, Coded, Declared, Operand, Stored};

/// The code of `run()V`.
const RUN: [u8; 17] = [
    0x2a, 0xb4, 0, 16, 0xc6, 0, 12, 0x2a, 0xb4, 0, 16, 0xb9, 0, 20, 1, 0, 0xb1,
];

/// The code of `getPriority()I`.
const GET_PRIORITY: [u8; 16] = [
    0x2a, 0xb4, 0, 24, 0x9a, 0, 7, 0x08, 0xa7, 0, 7, 0x2a, 0xb4, 0, 24, 0xac,
];

/// The code of `setPriority(I)V`.
const SET_PRIORITY: [u8; 25] = [
    0x1b, 0x04, 0xa1, 0, 9, 0x1b, 0x10, 10, 0xa4, 0, 11, 0xbb, 0, 26, 0x59, 0xb7, 0, 29, 0xbf,
    0x2a, 0x1b, 0xb5, 0, 24, 0xb1,
];

/// The code of `toString()Ljava/lang/String;`.
const TO_STRING: [u8; 32] = [
    0x12, 8, 0x2a, 0xb6, 0, 33, 0xb6, 0, 39, 0x12, 10, 0xb6, 0, 39, 0x4c, 0x2b, 0x2a, 0xb6, 0, 43,
    0xb8, 0, 47, 0xb6, 0, 39, 0x12, 12, 0xb6, 0, 39, 0xb0,
];

pub(crate) const THREAD: BuiltInClass = BuiltInClass {
    flags: 0x0021,
    name: b"java/lang/Thread",
    superclass: Some(b"java/lang/Object"),
    interfaces: &[b"java/lang/Runnable"],
    operands: &[
        Operand::Utf8(b"Thread["),
        Operand::String(7),
        Operand::Utf8(b","),
        Operand::String(9),
        Operand::Utf8(b",main]"),
        Operand::String(11),
        Operand::Utf8(b"target"),
        Operand::Utf8(b"Ljava/lang/Runnable;"),
        Operand::NameAndType(13, 14),
        Operand::Field(2, 15),
        Operand::Utf8(b"run"),
        Operand::Utf8(b"()V"),
        Operand::NameAndType(17, 18),
        Operand::InterfaceMethod(6, 19),
        Operand::Utf8(b"priority"),
        Operand::Utf8(b"I"),
        Operand::NameAndType(21, 22),
        Operand::Field(2, 23),
        Operand::Utf8(b"java/lang/IllegalArgumentException"),
        Operand::Class(25),
        Operand::Utf8(b"<init>"),
        Operand::NameAndType(27, 18),
        Operand::Method(26, 28),
        Operand::Utf8(b"getName"),
        Operand::Utf8(b"()Ljava/lang/String;"),
        Operand::NameAndType(30, 31),
        Operand::Method(2, 32),
        Operand::Utf8(b"java/lang/String"),
        Operand::Class(34),
        Operand::Utf8(b"concat"),
        Operand::Utf8(b"(Ljava/lang/String;)Ljava/lang/String;"),
        Operand::NameAndType(36, 37),
        Operand::Method(35, 38),
        Operand::Utf8(b"getPriority"),
        Operand::Utf8(b"()I"),
        Operand::NameAndType(40, 41),
        Operand::Method(2, 42),
        Operand::Utf8(b"valueOf"),
        Operand::Utf8(b"(I)Ljava/lang/String;"),
        Operand::NameAndType(44, 45),
        Operand::Method(35, 46),
        Operand::Utf8(b"name"),
        Operand::Utf8(b"Ljava/lang/String;"),
        Operand::Utf8(b"number"),
        Operand::Utf8(b"setPriority"),
        Operand::Utf8(b"(I)V"),
        Operand::Utf8(b"toString"),
        Operand::Utf8(b"Code"),
    ],
    fields: &[
        Stored(0x0002, 13, 14),
        Stored(0x0002, 48, 49),
        Stored(0x0002, 50, 22),
        Stored(0x0002, 21, 22),
    ],
    coded: &[
        Coded(0x0001, 17, 18, 1, 1, &RUN),
        Coded(0x0011, 40, 41, 1, 1, &GET_PRIORITY),
        Coded(0x0011, 51, 52, 2, 2, &SET_PRIORITY),
        Coded(0x0001, 53, 31, 2, 2, &TO_STRING),
    ],
    natives: &[
        Declared(0x0101, b"<init>", b"()V"),
        Declared(0x0101, b"<init>", b"(Ljava/lang/Runnable;)V"),
        Declared(0x0101, b"<init>", b"(Ljava/lang/String;)V"),
        Declared(
            0x0101,
            b"<init>",
            b"(Ljava/lang/Runnable;Ljava/lang/String;)V",
        ),
        Declared(0x0111, b"getName", b"()Ljava/lang/String;"),
        Declared(0x0111, b"setName", b"(Ljava/lang/String;)V"),
        Declared(0x0101, b"start", b"()V"),
        Declared(0x0101, b"interrupt", b"()V"),
        Declared(0x0101, b"isInterrupted", b"()Z"),
        Declared(0x0109, b"interrupted", b"()Z"),
        Declared(0x0109, b"yield", b"()V"),
        Declared(0x0109, b"currentThread", b"()Ljava/lang/Thread;"),
        Declared(0x0111, b"join", b"()V"),
        Declared(0x0111, b"isAlive", b"()Z"),
    ],
};

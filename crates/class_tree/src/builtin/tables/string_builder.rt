//! The class java/lang/StringBuilder.
//!
//! Made by `tools/build-built-in` of the class files of builtin/classes. Not to be edited.

use crate::builtin::form::{BuiltInClass, Coded, Declared, Operand, Stored};

/// The code of `<init>(I)V`.
const INIT: [u8; 17] = [
    0x2a, 0xb7, 0, 17, 0x1b, 0x9c, 0, 11, 0xbb, 0, 19, 0x59, 0xb7, 0, 20, 0xbf, 0xb1,
];

/// The code of `<init>(Ljava/lang/CharSequence;)V`.
const INIT_2: [u8; 11] = [0x2a, 0x2b, 0xb9, 0, 24, 1, 0, 0xb7, 0, 27, 0xb1];

/// The code of `append(Ljava/lang/Object;)Ljava/lang/StringBuilder;`.
const APPEND: [u8; 9] = [0x2a, 0x2b, 0xb8, 0, 33, 0xb6, 0, 37, 0xb0];

/// The code of `append(Z)Ljava/lang/StringBuilder;`.
const APPEND_2: [u8; 9] = [0x2a, 0x1b, 0xb8, 0, 40, 0xb6, 0, 37, 0xb0];

/// The code of `append([C)Ljava/lang/StringBuilder;`.
const APPEND_3: [u8; 9] = [0x2a, 0x2b, 0xb8, 0, 43, 0xb6, 0, 37, 0xb0];

/// The code of `append([CII)Ljava/lang/StringBuilder;`.
const APPEND_4: [u8; 11] = [0x2a, 0x2b, 0x1c, 0x1d, 0xb8, 0, 46, 0xb6, 0, 37, 0xb0];

/// The code of `append(Ljava/lang/CharSequence;)Ljava/lang/StringBuilder;`.
const APPEND_5: [u8; 20] = [
    0x2a, 0x2b, 0xc7, 0, 8, 0x12, 8, 0xa7, 0, 9, 0x2b, 0xb9, 0, 24, 1, 0, 0xb6, 0, 37, 0xb0,
];

/// The code of `append(Ljava/lang/CharSequence;II)Ljava/lang/StringBuilder;`.
const APPEND_6: [u8; 55] = [
    0x2b, 0xc7, 0, 8, 0x12, 8, 0xa7, 0, 9, 0x2b, 0xb9, 0, 24, 1, 0, 0x3a, 4, 0x1c, 0x9b, 0, 17,
    0x1c, 0x1d, 0xa3, 0, 12, 0x1d, 0x19, 4, 0xb6, 0, 50, 0xa4, 0, 11, 0xbb, 0, 52, 0x59, 0xb7, 0,
    53, 0xbf, 0x2a, 0x19, 4, 0x1c, 0x1d, 0xb6, 0, 57, 0xb6, 0, 37, 0xb0,
];

/// The code of `length()I`.
const LENGTH: [u8; 8] = [0x2a, 0xb4, 0, 61, 0xb6, 0, 50, 0xac];

/// The code of `charAt(I)C`.
const CHAR_AT: [u8; 9] = [0x2a, 0xb4, 0, 61, 0x1b, 0xb6, 0, 65, 0xac];

/// The code of `capacity()I`.
const CAPACITY: [u8; 11] = [0x2a, 0xb4, 0, 61, 0xb6, 0, 50, 0x10, 16, 0x60, 0xac];

/// The code of `ensureCapacity(I)V`.
const ENSURE_CAPACITY: [u8; 1] = [0xb1];

/// The code of `trimToSize()V`.
const TRIM_TO_SIZE: [u8; 1] = [0xb1];

/// The code of `setLength(I)V`.
const SET_LENGTH: [u8; 57] = [
    0x1b, 0x9c, 0, 11, 0xbb, 0, 67, 0x59, 0xb7, 0, 68, 0xbf, 0x1b, 0x2a, 0xb4, 0, 61, 0xb6, 0, 50,
    0xa2, 0, 16, 0x2a, 0x2a, 0xb4, 0, 61, 0x03, 0x1b, 0xb6, 0, 57, 0xb5, 0, 61, 0x2a, 0xb4, 0, 61,
    0xb6, 0, 50, 0x1b, 0xa2, 0, 12, 0x2a, 0x03, 0xb6, 0, 71, 0x57, 0xa7, 255, 239, 0xb1,
];

/// The code of `getChars(II[CI)V`.
const GET_CHARS: [u8; 13] = [
    0x2a, 0xb4, 0, 61, 0x1b, 0x1c, 0x2d, 0x15, 4, 0xb6, 0, 75, 0xb1,
];

/// The code of `setCharAt(IC)V`.
const SET_CHAR_AT: [u8; 37] = [
    0x1b, 0x9b, 0, 14, 0x1b, 0x2a, 0xb4, 0, 61, 0xb6, 0, 50, 0xa1, 0, 11, 0xbb, 0, 67, 0x59, 0xb7,
    0, 68, 0xbf, 0x2a, 0x1b, 0x1b, 0x04, 0x60, 0x1c, 0xb8, 0, 78, 0xb6, 0, 82, 0x57, 0xb1,
];

/// The code of `deleteCharAt(I)Ljava/lang/StringBuilder;`.
const DELETE_CHAR_AT: [u8; 34] = [
    0x1b, 0x9b, 0, 14, 0x1b, 0x2a, 0xb4, 0, 61, 0xb6, 0, 50, 0xa1, 0, 11, 0xbb, 0, 67, 0x59, 0xb7,
    0, 68, 0xbf, 0x2a, 0x1b, 0x1b, 0x04, 0x60, 0x12, 10, 0xb6, 0, 82, 0xb0,
];

/// The code of `delete(II)Ljava/lang/StringBuilder;`.
const DELETE: [u8; 9] = [0x2a, 0x1b, 0x1c, 0x12, 10, 0xb6, 0, 82, 0xb0];

/// The code of `replace(IILjava/lang/String;)Ljava/lang/StringBuilder;`.
const REPLACE: [u8; 84] = [
    0x1c, 0x2a, 0xb4, 0, 61, 0xb6, 0, 50, 0xa2, 0, 7, 0x1c, 0xa7, 0, 10, 0x2a, 0xb4, 0, 61, 0xb6,
    0, 50, 0x36, 4, 0x1b, 0x9b, 0, 20, 0x1b, 0x2a, 0xb4, 0, 61, 0xb6, 0, 50, 0xa3, 0, 9, 0x1b,
    0x15, 4, 0xa4, 0, 11, 0xbb, 0, 67, 0x59, 0xb7, 0, 68, 0xbf, 0x2a, 0x2a, 0xb4, 0, 61, 0x03,
    0x1b, 0xb6, 0, 57, 0x2d, 0xb6, 0, 86, 0x2a, 0xb4, 0, 61, 0x15, 4, 0xb6, 0, 89, 0xb6, 0, 86,
    0xb5, 0, 61, 0x2a, 0xb0,
];

/// The code of `insert(ILjava/lang/String;)Ljava/lang/StringBuilder;`.
const INSERT: [u8; 17] = [
    0x2a, 0x1b, 0x1b, 0x2c, 0xc7, 0, 8, 0x12, 8, 0xa7, 0, 4, 0x2c, 0xb6, 0, 82, 0xb0,
];

/// The code of `insert(ILjava/lang/Object;)Ljava/lang/StringBuilder;`.
const INSERT_2: [u8; 10] = [0x2a, 0x1b, 0x2c, 0xb8, 0, 33, 0xb6, 0, 93, 0xb0];

/// The code of `insert(I[C)Ljava/lang/StringBuilder;`.
const INSERT_3: [u8; 11] = [0x2a, 0x1b, 0x1b, 0x2c, 0xb8, 0, 43, 0xb6, 0, 82, 0xb0];

/// The code of `insert(I[CII)Ljava/lang/StringBuilder;`.
const INSERT_4: [u8; 14] = [
    0x2a, 0x1b, 0x1b, 0x2c, 0x1d, 0x15, 4, 0xb8, 0, 46, 0xb6, 0, 82, 0xb0,
];

/// The code of `insert(ILjava/lang/CharSequence;)Ljava/lang/StringBuilder;`.
const INSERT_5: [u8; 22] = [
    0x2a, 0x1b, 0x1b, 0x2c, 0xc7, 0, 8, 0x12, 8, 0xa7, 0, 9, 0x2c, 0xb9, 0, 24, 1, 0, 0xb6, 0, 82,
    0xb0,
];

/// The code of `insert(ILjava/lang/CharSequence;II)Ljava/lang/StringBuilder;`.
const INSERT_6: [u8; 75] = [
    0x2c, 0xc7, 0, 8, 0x12, 8, 0xa7, 0, 9, 0x2c, 0xb9, 0, 24, 1, 0, 0x3a, 5, 0x1b, 0x9b, 0, 34,
    0x1b, 0x2a, 0xb4, 0, 61, 0xb6, 0, 50, 0xa3, 0, 23, 0x1d, 0x9b, 0, 19, 0x1d, 0x15, 4, 0xa3, 0,
    13, 0x15, 4, 0x19, 5, 0xb6, 0, 50, 0xa4, 0, 11, 0xbb, 0, 52, 0x59, 0xb7, 0, 53, 0xbf, 0x2a,
    0x1b, 0x1b, 0x19, 5, 0x1d, 0x15, 4, 0xb6, 0, 57, 0xb6, 0, 82, 0xb0,
];

/// The code of `insert(IC)Ljava/lang/StringBuilder;`.
const INSERT_7: [u8; 11] = [0x2a, 0x1b, 0x1b, 0x1c, 0xb8, 0, 78, 0xb6, 0, 82, 0xb0];

/// The code of `insert(II)Ljava/lang/StringBuilder;`.
const INSERT_8: [u8; 11] = [0x2a, 0x1b, 0x1b, 0x1c, 0xb8, 0, 95, 0xb6, 0, 82, 0xb0];

/// The code of `insert(IZ)Ljava/lang/StringBuilder;`.
const INSERT_9: [u8; 11] = [0x2a, 0x1b, 0x1b, 0x1c, 0xb8, 0, 40, 0xb6, 0, 82, 0xb0];

/// The code of `indexOf(Ljava/lang/String;)I`.
const INDEX_OF: [u8; 9] = [0x2a, 0xb4, 0, 61, 0x2b, 0xb6, 0, 99, 0xac];

/// The code of `indexOf(Ljava/lang/String;I)I`.
const INDEX_OF_2: [u8; 10] = [0x2a, 0xb4, 0, 61, 0x2b, 0x1c, 0xb6, 0, 102, 0xac];

/// The code of `lastIndexOf(Ljava/lang/String;)I`.
const LAST_INDEX_OF: [u8; 9] = [0x2a, 0xb4, 0, 61, 0x2b, 0xb6, 0, 105, 0xac];

/// The code of `lastIndexOf(Ljava/lang/String;I)I`.
const LAST_INDEX_OF_2: [u8; 10] = [0x2a, 0xb4, 0, 61, 0x2b, 0x1c, 0xb6, 0, 107, 0xac];

/// The code of `reverse()Ljava/lang/StringBuilder;`.
const REVERSE: [u8; 105] = [
    0xbb, 0, 2, 0x59, 0xb7, 0, 17, 0x4c, 0x2a, 0xb4, 0, 61, 0xb6, 0, 50, 0x04, 0x64, 0x3d, 0x1c,
    0x9b, 0, 76, 0x2a, 0xb4, 0, 61, 0x1c, 0xb6, 0, 65, 0x3e, 0x1d, 0x12, 11, 0xa1, 0, 49, 0x1d,
    0x12, 12, 0xa2, 0, 43, 0x1c, 0x9e, 0, 39, 0x2a, 0xb4, 0, 61, 0x1c, 0x04, 0x64, 0xb6, 0, 65,
    0x36, 4, 0x15, 4, 0x12, 13, 0xa1, 0, 20, 0x15, 4, 0x12, 11, 0xa2, 0, 13, 0x2b, 0x15, 4, 0xb6,
    0, 71, 0x57, 0x84, 2, 255, 0x2b, 0x1d, 0xb6, 0, 71, 0x57, 0x84, 2, 255, 0xa7, 255, 182, 0x2a,
    0x2b, 0xb4, 0, 61, 0xb5, 0, 61, 0x2a, 0xb0,
];

/// The code of `substring(I)Ljava/lang/String;`.
const SUBSTRING: [u8; 9] = [0x2a, 0xb4, 0, 61, 0x1b, 0xb6, 0, 89, 0xb0];

/// The code of `substring(II)Ljava/lang/String;`.
const SUBSTRING_2: [u8; 10] = [0x2a, 0xb4, 0, 61, 0x1b, 0x1c, 0xb6, 0, 57, 0xb0];

/// The code of `subSequence(II)Ljava/lang/CharSequence;`.
const SUB_SEQUENCE: [u8; 10] = [0x2a, 0xb4, 0, 61, 0x1b, 0x1c, 0xb6, 0, 57, 0xb0];

pub(crate) const STRING_BUILDER: BuiltInClass = BuiltInClass {
    flags: 0x0031,
    name: b"java/lang/StringBuilder",
    superclass: Some(b"java/lang/Object"),
    interfaces: &[b"java/lang/CharSequence"],
    operands: &[
        Operand::Utf8(b"null"),
        Operand::String(7),
        Operand::Utf8(b""),
        Operand::String(9),
        Operand::Integer(56320),
        Operand::Integer(57344),
        Operand::Integer(55296),
        Operand::Utf8(b"<init>"),
        Operand::Utf8(b"()V"),
        Operand::NameAndType(14, 15),
        Operand::Method(2, 16),
        Operand::Utf8(b"java/lang/NegativeArraySizeException"),
        Operand::Class(18),
        Operand::Method(19, 16),
        Operand::Utf8(b"toString"),
        Operand::Utf8(b"()Ljava/lang/String;"),
        Operand::NameAndType(21, 22),
        Operand::InterfaceMethod(6, 23),
        Operand::Utf8(b"(Ljava/lang/String;)V"),
        Operand::NameAndType(14, 25),
        Operand::Method(2, 26),
        Operand::Utf8(b"java/lang/String"),
        Operand::Class(28),
        Operand::Utf8(b"valueOf"),
        Operand::Utf8(b"(Ljava/lang/Object;)Ljava/lang/String;"),
        Operand::NameAndType(30, 31),
        Operand::Method(29, 32),
        Operand::Utf8(b"append"),
        Operand::Utf8(b"(Ljava/lang/String;)Ljava/lang/StringBuilder;"),
        Operand::NameAndType(34, 35),
        Operand::Method(2, 36),
        Operand::Utf8(b"(Z)Ljava/lang/String;"),
        Operand::NameAndType(30, 38),
        Operand::Method(29, 39),
        Operand::Utf8(b"([C)Ljava/lang/String;"),
        Operand::NameAndType(30, 41),
        Operand::Method(29, 42),
        Operand::Utf8(b"([CII)Ljava/lang/String;"),
        Operand::NameAndType(30, 44),
        Operand::Method(29, 45),
        Operand::Utf8(b"length"),
        Operand::Utf8(b"()I"),
        Operand::NameAndType(47, 48),
        Operand::Method(29, 49),
        Operand::Utf8(b"java/lang/IndexOutOfBoundsException"),
        Operand::Class(51),
        Operand::Method(52, 16),
        Operand::Utf8(b"substring"),
        Operand::Utf8(b"(II)Ljava/lang/String;"),
        Operand::NameAndType(54, 55),
        Operand::Method(29, 56),
        Operand::Utf8(b"text"),
        Operand::Utf8(b"Ljava/lang/String;"),
        Operand::NameAndType(58, 59),
        Operand::Field(2, 60),
        Operand::Utf8(b"charAt"),
        Operand::Utf8(b"(I)C"),
        Operand::NameAndType(62, 63),
        Operand::Method(29, 64),
        Operand::Utf8(b"java/lang/StringIndexOutOfBoundsException"),
        Operand::Class(66),
        Operand::Method(67, 16),
        Operand::Utf8(b"(C)Ljava/lang/StringBuilder;"),
        Operand::NameAndType(34, 69),
        Operand::Method(2, 70),
        Operand::Utf8(b"getChars"),
        Operand::Utf8(b"(II[CI)V"),
        Operand::NameAndType(72, 73),
        Operand::Method(29, 74),
        Operand::Utf8(b"(C)Ljava/lang/String;"),
        Operand::NameAndType(30, 76),
        Operand::Method(29, 77),
        Operand::Utf8(b"replace"),
        Operand::Utf8(b"(IILjava/lang/String;)Ljava/lang/StringBuilder;"),
        Operand::NameAndType(79, 80),
        Operand::Method(2, 81),
        Operand::Utf8(b"concat"),
        Operand::Utf8(b"(Ljava/lang/String;)Ljava/lang/String;"),
        Operand::NameAndType(83, 84),
        Operand::Method(29, 85),
        Operand::Utf8(b"(I)Ljava/lang/String;"),
        Operand::NameAndType(54, 87),
        Operand::Method(29, 88),
        Operand::Utf8(b"insert"),
        Operand::Utf8(b"(ILjava/lang/String;)Ljava/lang/StringBuilder;"),
        Operand::NameAndType(90, 91),
        Operand::Method(2, 92),
        Operand::NameAndType(30, 87),
        Operand::Method(29, 94),
        Operand::Utf8(b"indexOf"),
        Operand::Utf8(b"(Ljava/lang/String;)I"),
        Operand::NameAndType(96, 97),
        Operand::Method(29, 98),
        Operand::Utf8(b"(Ljava/lang/String;I)I"),
        Operand::NameAndType(96, 100),
        Operand::Method(29, 101),
        Operand::Utf8(b"lastIndexOf"),
        Operand::NameAndType(103, 97),
        Operand::Method(29, 104),
        Operand::NameAndType(103, 100),
        Operand::Method(29, 106),
        Operand::Utf8(b"(I)V"),
        Operand::Utf8(b"(Ljava/lang/CharSequence;)V"),
        Operand::Utf8(b"(Ljava/lang/Object;)Ljava/lang/StringBuilder;"),
        Operand::Utf8(b"(Z)Ljava/lang/StringBuilder;"),
        Operand::Utf8(b"([C)Ljava/lang/StringBuilder;"),
        Operand::Utf8(b"([CII)Ljava/lang/StringBuilder;"),
        Operand::Utf8(b"(Ljava/lang/CharSequence;)Ljava/lang/StringBuilder;"),
        Operand::Utf8(b"(Ljava/lang/CharSequence;II)Ljava/lang/StringBuilder;"),
        Operand::Utf8(b"capacity"),
        Operand::Utf8(b"ensureCapacity"),
        Operand::Utf8(b"trimToSize"),
        Operand::Utf8(b"setLength"),
        Operand::Utf8(b"setCharAt"),
        Operand::Utf8(b"(IC)V"),
        Operand::Utf8(b"deleteCharAt"),
        Operand::Utf8(b"(I)Ljava/lang/StringBuilder;"),
        Operand::Utf8(b"delete"),
        Operand::Utf8(b"(II)Ljava/lang/StringBuilder;"),
        Operand::Utf8(b"(ILjava/lang/Object;)Ljava/lang/StringBuilder;"),
        Operand::Utf8(b"(I[C)Ljava/lang/StringBuilder;"),
        Operand::Utf8(b"(I[CII)Ljava/lang/StringBuilder;"),
        Operand::Utf8(b"(ILjava/lang/CharSequence;)Ljava/lang/StringBuilder;"),
        Operand::Utf8(b"(ILjava/lang/CharSequence;II)Ljava/lang/StringBuilder;"),
        Operand::Utf8(b"(IC)Ljava/lang/StringBuilder;"),
        Operand::Utf8(b"(IZ)Ljava/lang/StringBuilder;"),
        Operand::Utf8(b"reverse"),
        Operand::Utf8(b"()Ljava/lang/StringBuilder;"),
        Operand::Utf8(b"subSequence"),
        Operand::Utf8(b"(II)Ljava/lang/CharSequence;"),
        Operand::Utf8(b"Code"),
    ],
    fields: &[Stored(0x0002, 58, 59)],
    coded: &[
        Coded(0x0001, 14, 108, 2, 2, &INIT),
        Coded(0x0001, 14, 109, 2, 2, &INIT_2),
        Coded(0x0001, 34, 110, 2, 2, &APPEND),
        Coded(0x0001, 34, 111, 2, 2, &APPEND_2),
        Coded(0x0001, 34, 112, 2, 2, &APPEND_3),
        Coded(0x0001, 34, 113, 4, 4, &APPEND_4),
        Coded(0x0001, 34, 114, 2, 2, &APPEND_5),
        Coded(0x0001, 34, 115, 4, 5, &APPEND_6),
        Coded(0x0001, 47, 48, 1, 1, &LENGTH),
        Coded(0x0001, 62, 63, 2, 2, &CHAR_AT),
        Coded(0x0001, 116, 48, 2, 1, &CAPACITY),
        Coded(0x0001, 117, 108, 0, 2, &ENSURE_CAPACITY),
        Coded(0x0001, 118, 15, 0, 1, &TRIM_TO_SIZE),
        Coded(0x0001, 119, 108, 4, 2, &SET_LENGTH),
        Coded(0x0001, 72, 73, 5, 5, &GET_CHARS),
        Coded(0x0001, 120, 121, 4, 3, &SET_CHAR_AT),
        Coded(0x0001, 122, 123, 4, 2, &DELETE_CHAR_AT),
        Coded(0x0001, 124, 125, 4, 3, &DELETE),
        Coded(0x0001, 79, 80, 4, 5, &REPLACE),
        Coded(0x0001, 90, 91, 4, 3, &INSERT),
        Coded(0x0001, 90, 126, 3, 3, &INSERT_2),
        Coded(0x0001, 90, 127, 4, 3, &INSERT_3),
        Coded(0x0001, 90, 128, 6, 5, &INSERT_4),
        Coded(0x0001, 90, 129, 4, 3, &INSERT_5),
        Coded(0x0001, 90, 130, 6, 6, &INSERT_6),
        Coded(0x0001, 90, 131, 4, 3, &INSERT_7),
        Coded(0x0001, 90, 125, 4, 3, &INSERT_8),
        Coded(0x0001, 90, 132, 4, 3, &INSERT_9),
        Coded(0x0001, 96, 97, 2, 2, &INDEX_OF),
        Coded(0x0001, 96, 100, 3, 3, &INDEX_OF_2),
        Coded(0x0001, 103, 97, 2, 2, &LAST_INDEX_OF),
        Coded(0x0001, 103, 100, 3, 3, &LAST_INDEX_OF_2),
        Coded(0x0001, 133, 134, 3, 5, &REVERSE),
        Coded(0x0001, 54, 87, 2, 2, &SUBSTRING),
        Coded(0x0001, 54, 55, 3, 3, &SUBSTRING_2),
        Coded(0x0001, 135, 136, 3, 3, &SUB_SEQUENCE),
    ],
    natives: &[
        Declared(0x0101, b"<init>", b"()V"),
        Declared(0x0101, b"<init>", b"(Ljava/lang/String;)V"),
        Declared(
            0x0101,
            b"append",
            b"(Ljava/lang/String;)Ljava/lang/StringBuilder;",
        ),
        Declared(0x0101, b"append", b"(I)Ljava/lang/StringBuilder;"),
        Declared(0x0101, b"append", b"(C)Ljava/lang/StringBuilder;"),
        Declared(
            0x0101,
            b"append",
            b"(Ljava/lang/StringBuilder;)Ljava/lang/StringBuilder;",
        ),
        Declared(0x0101, b"toString", b"()Ljava/lang/String;"),
    ],
};

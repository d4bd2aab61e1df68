//! The class java/lang/String.
//!
//! Made by `tools/build-built-in` of the class files of builtin/classes. Not to be edited.

use crate::builtin::form::{BuiltInClass, Coded, Declared, Operand};

/// The code of `<init>([C)V`.
const INIT: [u8; 9] = [0x2a, 0x2b, 0x03, 0x2b, 0xbe, 0xb7, 0, 18, 0xb1];

/// The code of `valueOf(Ljava/lang/Object;)Ljava/lang/String;`.
const VALUE_OF: [u8; 14] = [
    0x2a, 0xc7, 0, 8, 0x12, 10, 0xa7, 0, 7, 0x2a, 0xb6, 0, 22, 0xb0,
];

/// The code of `valueOf(Z)Ljava/lang/String;`.
const VALUE_OF_2: [u8; 12] = [0x1a, 0x99, 0, 8, 0x12, 12, 0xa7, 0, 5, 0x12, 14, 0xb0];

/// The code of `valueOf([C)Ljava/lang/String;`.
const VALUE_OF_3: [u8; 12] = [0xbb, 0, 2, 0x59, 0x2a, 0x03, 0x2a, 0xbe, 0xb7, 0, 18, 0xb0];

/// The code of `valueOf([CII)Ljava/lang/String;`.
const VALUE_OF_4: [u8; 11] = [0xbb, 0, 2, 0x59, 0x2a, 0x1b, 0x1c, 0xb7, 0, 18, 0xb0];

/// The code of `copyValueOf([C)Ljava/lang/String;`.
const COPY_VALUE_OF: [u8; 12] = [0xbb, 0, 2, 0x59, 0x2a, 0x03, 0x2a, 0xbe, 0xb7, 0, 18, 0xb0];

/// The code of `copyValueOf([CII)Ljava/lang/String;`.
const COPY_VALUE_OF_2: [u8; 11] = [0xbb, 0, 2, 0x59, 0x2a, 0x1b, 0x1c, 0xb7, 0, 18, 0xb0];

/// The code of `join(Ljava/lang/CharSequence;[Ljava/lang/CharSequence;)Ljava/lang/String;`.
const JOIN: [u8; 56] = [
    0x2a, 0xb9, 0, 23, 1, 0, 0x4d, 0xbb, 0, 25, 0x59, 0xb7, 0, 28, 0x4e, 0x03, 0x36, 4, 0x15, 4,
    0x2b, 0xbe, 0xa2, 0, 29, 0x15, 4, 0x9e, 0, 9, 0x2d, 0x2c, 0xb6, 0, 32, 0x57, 0x2d, 0x2b, 0x15,
    4, 0x32, 0xb6, 0, 35, 0x57, 0x84, 4, 1, 0xa7, 255, 226, 0x2d, 0xb6, 0, 36, 0xb0,
];

/// The code of `isEmpty()Z`.
const IS_EMPTY: [u8; 13] = [0x2a, 0xb6, 0, 40, 0x9a, 0, 7, 0x04, 0xa7, 0, 4, 0x03, 0xac];

/// The code of `toString()Ljava/lang/String;`.
const TO_STRING: [u8; 2] = [0x2a, 0xb0];

/// The code of `substring(I)Ljava/lang/String;`.
const SUBSTRING: [u8; 10] = [0x2a, 0x1b, 0x2a, 0xb6, 0, 40, 0xb6, 0, 44, 0xb0];

/// The code of `subSequence(II)Ljava/lang/CharSequence;`.
const SUB_SEQUENCE: [u8; 7] = [0x2a, 0x1b, 0x1c, 0xb6, 0, 44, 0xb0];

/// The code of `compareTo(Ljava/lang/Object;)I`.
const COMPARE_TO: [u8; 9] = [0x2a, 0x2b, 0xc0, 0, 2, 0xb6, 0, 48, 0xac];

/// The code of `indexOf(I)I`.
const INDEX_OF: [u8; 7] = [0x2a, 0x1b, 0x03, 0xb6, 0, 52, 0xac];

/// The code of `indexOf(Ljava/lang/String;)I`.
const INDEX_OF_2: [u8; 7] = [0x2a, 0x2b, 0x03, 0xb6, 0, 55, 0xac];

/// The code of `indexOf(Ljava/lang/String;I)I`.
const INDEX_OF_3: [u8; 65] = [
    0x2b, 0xb6, 0, 40, 0x3e, 0x2a, 0xb6, 0, 40, 0x1d, 0x64, 0x36, 4, 0x1c, 0x9c, 0, 7, 0x03, 0xa7,
    0, 4, 0x1c, 0x36, 5, 0x15, 5, 0x15, 4, 0xa3, 0, 24, 0x2a, 0x15, 5, 0x2b, 0x03, 0x1d, 0xb6, 0,
    59, 0x99, 0, 6, 0x15, 5, 0xac, 0x84, 5, 1, 0xa7, 255, 231, 0x1d, 0x9a, 0, 10, 0x2a, 0xb6, 0,
    40, 0xa7, 0, 4, 0x02, 0xac,
];

/// The code of `lastIndexOf(I)I`.
const LAST_INDEX_OF: [u8; 12] = [0x2a, 0x1b, 0x2a, 0xb6, 0, 40, 0x04, 0x64, 0xb6, 0, 62, 0xac];

/// The code of `lastIndexOf(II)I`.
const LAST_INDEX_OF_2: [u8; 45] = [
    0x2a, 0xb6, 0, 40, 0x04, 0x64, 0x3e, 0x1c, 0x1d, 0xa2, 0, 7, 0x1c, 0xa7, 0, 4, 0x1d, 0x36, 4,
    0x15, 4, 0x9b, 0, 22, 0x2a, 0x15, 4, 0xb6, 0, 66, 0x1b, 0xa0, 0, 6, 0x15, 4, 0xac, 0x84, 4,
    255, 0xa7, 255, 235, 0x02, 0xac,
];

/// The code of `lastIndexOf(Ljava/lang/String;)I`.
const LAST_INDEX_OF_3: [u8; 10] = [0x2a, 0x2b, 0x2a, 0xb6, 0, 40, 0xb6, 0, 68, 0xac];

/// The code of `lastIndexOf(Ljava/lang/String;I)I`.
const LAST_INDEX_OF_4: [u8; 55] = [
    0x2b, 0xb6, 0, 40, 0x3e, 0x2a, 0xb6, 0, 40, 0x1d, 0x64, 0x36, 4, 0x1c, 0x15, 4, 0xa2, 0, 7,
    0x1c, 0xa7, 0, 5, 0x15, 4, 0x36, 5, 0x15, 5, 0x9b, 0, 24, 0x2a, 0x15, 5, 0x2b, 0x03, 0x1d,
    0xb6, 0, 59, 0x99, 0, 6, 0x15, 5, 0xac, 0x84, 5, 255, 0xa7, 255, 233, 0x02, 0xac,
];

/// The code of `startsWith(Ljava/lang/String;)Z`.
const STARTS_WITH: [u8; 12] = [0x2a, 0x03, 0x2b, 0x03, 0x2b, 0xb6, 0, 40, 0xb6, 0, 59, 0xac];

/// The code of `startsWith(Ljava/lang/String;I)Z`.
const STARTS_WITH_2: [u8; 12] = [0x2a, 0x1c, 0x2b, 0x03, 0x2b, 0xb6, 0, 40, 0xb6, 0, 59, 0xac];

/// The code of `endsWith(Ljava/lang/String;)Z`.
const ENDS_WITH: [u8; 20] = [
    0x2a, 0x2a, 0xb6, 0, 40, 0x2b, 0xb6, 0, 40, 0x64, 0x2b, 0x03, 0x2b, 0xb6, 0, 40, 0xb6, 0, 59,
    0xac,
];

/// The code of `contains(Ljava/lang/CharSequence;)Z`.
const CONTAINS: [u8; 20] = [
    0x2a, 0x2b, 0xb9, 0, 23, 1, 0, 0x03, 0xb6, 0, 55, 0x9b, 0, 7, 0x04, 0xa7, 0, 4, 0x03, 0xac,
];

/// The code of `contentEquals(Ljava/lang/CharSequence;)Z`.
const CONTENT_EQUALS: [u8; 11] = [0x2a, 0x2b, 0xb9, 0, 23, 1, 0, 0xb6, 0, 72, 0xac];

/// The code of `trim()Ljava/lang/String;`.
const TRIM: [u8; 58] = [
    0x03, 0x3c, 0x2a, 0xb6, 0, 40, 0x3d, 0x1b, 0x1c, 0xa2, 0, 19, 0x2a, 0x1b, 0xb6, 0, 66, 0x10,
    32, 0xa3, 0, 9, 0x84, 1, 1, 0xa7, 255, 238, 0x1b, 0x1c, 0xa2, 0, 21, 0x2a, 0x1c, 0x04, 0x64,
    0xb6, 0, 66, 0x10, 32, 0xa3, 0, 9, 0x84, 2, 255, 0xa7, 255, 236, 0x2a, 0x1b, 0x1c, 0xb6, 0, 44,
    0xb0,
];

/// The code of `toCharArray()[C`.
const TO_CHAR_ARRAY: [u8; 18] = [
    0x2a, 0xb6, 0, 40, 0xbc, 5, 0x4c, 0x2a, 0x03, 0x2b, 0xbe, 0x2b, 0x03, 0xb6, 0, 76, 0x2b, 0xb0,
];

/// The code of `replace(CC)Ljava/lang/String;`.
const REPLACE: [u8; 62] = [
    0x1b, 0x1c, 0x9f, 0, 12, 0x2a, 0x1b, 0x03, 0xb6, 0, 52, 0x9c, 0, 5, 0x2a, 0xb0, 0x2a, 0xb6, 0,
    80, 0x4e, 0x03, 0x36, 4, 0x15, 4, 0x2d, 0xbe, 0xa2, 0, 22, 0x2d, 0x15, 4, 0x34, 0x1b, 0xa0, 0,
    8, 0x2d, 0x15, 4, 0x1c, 0x55, 0x84, 4, 1, 0xa7, 255, 233, 0xbb, 0, 2, 0x59, 0x2d, 0x03, 0x2d,
    0xbe, 0xb7, 0, 18, 0xb0,
];

/// The code of `replace(Ljava/lang/CharSequence;Ljava/lang/CharSequence;)Ljava/lang/String;`.
const REPLACE_2: [u8; 142] = [
    0x2b, 0xb9, 0, 23, 1, 0, 0x4e, 0x2c, 0xb9, 0, 23, 1, 0, 0x3a, 4, 0x2a, 0x2d, 0x03, 0xb6, 0, 55,
    0x36, 5, 0x15, 5, 0x9c, 0, 5, 0x2a, 0xb0, 0xbb, 0, 25, 0x59, 0xb7, 0, 28, 0x3a, 6, 0x03, 0x36,
    7, 0x2d, 0xb6, 0, 84, 0x99, 0, 7, 0x04, 0xa7, 0, 7, 0x2d, 0xb6, 0, 40, 0x36, 8, 0x15, 5, 0x9b,
    0, 62, 0x19, 6, 0x2a, 0x15, 7, 0x15, 5, 0xb6, 0, 44, 0xb6, 0, 32, 0x19, 4, 0xb6, 0, 32, 0x57,
    0x15, 5, 0x2d, 0xb6, 0, 40, 0x60, 0x36, 7, 0x15, 5, 0x15, 8, 0x60, 0x2a, 0xb6, 0, 40, 0xa4, 0,
    7, 0x02, 0xa7, 0, 13, 0x2a, 0x2d, 0x15, 5, 0x15, 8, 0x60, 0xb6, 0, 55, 0x36, 5, 0xa7, 255, 195,
    0x19, 6, 0x2a, 0x15, 7, 0x2a, 0xb6, 0, 40, 0xb6, 0, 44, 0xb6, 0, 32, 0xb6, 0, 36, 0xb0,
];

/// The code of `toLowerCase()Ljava/lang/String;`.
const TO_LOWER_CASE: [u8; 54] = [
    0x2a, 0xb6, 0, 80, 0x4c, 0x03, 0x3d, 0x1c, 0x2b, 0xbe, 0xa2, 0, 18, 0x2b, 0x1c, 0x2b, 0x1c,
    0x34, 0xb8, 0, 88, 0x55, 0x84, 2, 1, 0xa7, 255, 238, 0xbb, 0, 2, 0x59, 0x2b, 0x03, 0x2b, 0xbe,
    0xb7, 0, 18, 0x4d, 0x2a, 0x2c, 0xb6, 0, 72, 0x99, 0, 7, 0x2a, 0xa7, 0, 4, 0x2c, 0xb0,
];

/// The code of `toUpperCase()Ljava/lang/String;`.
const TO_UPPER_CASE: [u8; 69] = [
    0x2a, 0xb6, 0, 80, 0x4c, 0x03, 0x3d, 0x1c, 0x2b, 0xbe, 0xa2, 0, 33, 0x2b, 0x1c, 0x34, 0x3e,
    0x1d, 0x10, 97, 0xa1, 0, 17, 0x1d, 0x10, 122, 0xa3, 0, 11, 0x2b, 0x1c, 0x1d, 0x10, 32, 0x64,
    0x92, 0x55, 0x84, 2, 1, 0xa7, 255, 223, 0xbb, 0, 2, 0x59, 0x2b, 0x03, 0x2b, 0xbe, 0xb7, 0, 18,
    0x4d, 0x2a, 0x2c, 0xb6, 0, 72, 0x99, 0, 7, 0x2a, 0xa7, 0, 4, 0x2c, 0xb0,
];

/// The code of `equalsIgnoreCase(Ljava/lang/String;)Z`.
const EQUALS_IGNORE_CASE: [u8; 29] = [
    0x2b, 0xc6, 0, 26, 0x2a, 0xb6, 0, 40, 0x2b, 0xb6, 0, 40, 0xa0, 0, 15, 0x2a, 0x2b, 0xb6, 0, 91,
    0x9a, 0, 7, 0x04, 0xa7, 0, 4, 0x03, 0xac,
];

/// The code of `compareToIgnoreCase(Ljava/lang/String;)I`.
const COMPARE_TO_IGNORE_CASE: [u8; 73] = [
    0x2a, 0xb6, 0, 40, 0x2b, 0xb6, 0, 40, 0xa2, 0, 10, 0x2a, 0xb6, 0, 40, 0xa7, 0, 7, 0x2b, 0xb6,
    0, 40, 0x3d, 0x03, 0x3e, 0x1d, 0x1c, 0xa2, 0, 36, 0x2a, 0x1d, 0xb6, 0, 66, 0xb8, 0, 88, 0x2b,
    0x1d, 0xb6, 0, 66, 0xb8, 0, 88, 0x64, 0x36, 4, 0x15, 4, 0x99, 0, 6, 0x15, 4, 0xac, 0x84, 3, 1,
    0xa7, 255, 221, 0x2a, 0xb6, 0, 40, 0x2b, 0xb6, 0, 40, 0x64, 0xac,
];

/// The code of `lower(C)C`.
const LOWER: [u8; 22] = [
    0x1a, 0x10, 65, 0xa1, 0, 17, 0x1a, 0x10, 90, 0xa3, 0, 11, 0x1a, 0x10, 32, 0x60, 0x92, 0xa7, 0,
    4, 0x1a, 0xac,
];

pub(crate) const STRING: BuiltInClass = BuiltInClass {
    flags: 0x0031,
    name: b"java/lang/String",
    superclass: Some(b"java/lang/Object"),
    interfaces: &[b"java/lang/Comparable", b"java/lang/CharSequence"],
    operands: &[
        Operand::Utf8(b"null"),
        Operand::String(9),
        Operand::Utf8(b"true"),
        Operand::String(11),
        Operand::Utf8(b"false"),
        Operand::String(13),
        Operand::Utf8(b"<init>"),
        Operand::Utf8(b"([CII)V"),
        Operand::NameAndType(15, 16),
        Operand::Method(2, 17),
        Operand::Utf8(b"toString"),
        Operand::Utf8(b"()Ljava/lang/String;"),
        Operand::NameAndType(19, 20),
        Operand::Method(4, 21),
        Operand::InterfaceMethod(8, 21),
        Operand::Utf8(b"java/lang/StringBuilder"),
        Operand::Class(24),
        Operand::Utf8(b"()V"),
        Operand::NameAndType(15, 26),
        Operand::Method(25, 27),
        Operand::Utf8(b"append"),
        Operand::Utf8(b"(Ljava/lang/String;)Ljava/lang/StringBuilder;"),
        Operand::NameAndType(29, 30),
        Operand::Method(25, 31),
        Operand::Utf8(b"(Ljava/lang/CharSequence;)Ljava/lang/StringBuilder;"),
        Operand::NameAndType(29, 33),
        Operand::Method(25, 34),
        Operand::Method(25, 21),
        Operand::Utf8(b"length"),
        Operand::Utf8(b"()I"),
        Operand::NameAndType(37, 38),
        Operand::Method(2, 39),
        Operand::Utf8(b"substring"),
        Operand::Utf8(b"(II)Ljava/lang/String;"),
        Operand::NameAndType(41, 42),
        Operand::Method(2, 43),
        Operand::Utf8(b"compareTo"),
        Operand::Utf8(b"(Ljava/lang/String;)I"),
        Operand::NameAndType(45, 46),
        Operand::Method(2, 47),
        Operand::Utf8(b"indexOf"),
        Operand::Utf8(b"(II)I"),
        Operand::NameAndType(49, 50),
        Operand::Method(2, 51),
        Operand::Utf8(b"(Ljava/lang/String;I)I"),
        Operand::NameAndType(49, 53),
        Operand::Method(2, 54),
        Operand::Utf8(b"regionMatches"),
        Operand::Utf8(b"(ILjava/lang/String;II)Z"),
        Operand::NameAndType(56, 57),
        Operand::Method(2, 58),
        Operand::Utf8(b"lastIndexOf"),
        Operand::NameAndType(60, 50),
        Operand::Method(2, 61),
        Operand::Utf8(b"charAt"),
        Operand::Utf8(b"(I)C"),
        Operand::NameAndType(63, 64),
        Operand::Method(2, 65),
        Operand::NameAndType(60, 53),
        Operand::Method(2, 67),
        Operand::Utf8(b"equals"),
        Operand::Utf8(b"(Ljava/lang/Object;)Z"),
        Operand::NameAndType(69, 70),
        Operand::Method(2, 71),
        Operand::Utf8(b"getChars"),
        Operand::Utf8(b"(II[CI)V"),
        Operand::NameAndType(73, 74),
        Operand::Method(2, 75),
        Operand::Utf8(b"toCharArray"),
        Operand::Utf8(b"()[C"),
        Operand::NameAndType(77, 78),
        Operand::Method(2, 79),
        Operand::Utf8(b"isEmpty"),
        Operand::Utf8(b"()Z"),
        Operand::NameAndType(81, 82),
        Operand::Method(2, 83),
        Operand::Utf8(b"lower"),
        Operand::Utf8(b"(C)C"),
        Operand::NameAndType(85, 86),
        Operand::Method(2, 87),
        Operand::Utf8(b"compareToIgnoreCase"),
        Operand::NameAndType(89, 46),
        Operand::Method(2, 90),
        Operand::Utf8(b"([C)V"),
        Operand::Utf8(b"valueOf"),
        Operand::Utf8(b"(Ljava/lang/Object;)Ljava/lang/String;"),
        Operand::Utf8(b"(Z)Ljava/lang/String;"),
        Operand::Utf8(b"([C)Ljava/lang/String;"),
        Operand::Utf8(b"([CII)Ljava/lang/String;"),
        Operand::Utf8(b"copyValueOf"),
        Operand::Utf8(b"join"),
        Operand::Utf8(b"(Ljava/lang/CharSequence;[Ljava/lang/CharSequence;)Ljava/lang/String;"),
        Operand::Utf8(b"(I)Ljava/lang/String;"),
        Operand::Utf8(b"subSequence"),
        Operand::Utf8(b"(II)Ljava/lang/CharSequence;"),
        Operand::Utf8(b"(Ljava/lang/Object;)I"),
        Operand::Utf8(b"(I)I"),
        Operand::Utf8(b"startsWith"),
        Operand::Utf8(b"(Ljava/lang/String;)Z"),
        Operand::Utf8(b"(Ljava/lang/String;I)Z"),
        Operand::Utf8(b"endsWith"),
        Operand::Utf8(b"contains"),
        Operand::Utf8(b"(Ljava/lang/CharSequence;)Z"),
        Operand::Utf8(b"contentEquals"),
        Operand::Utf8(b"trim"),
        Operand::Utf8(b"replace"),
        Operand::Utf8(b"(CC)Ljava/lang/String;"),
        Operand::Utf8(b"(Ljava/lang/CharSequence;Ljava/lang/CharSequence;)Ljava/lang/String;"),
        Operand::Utf8(b"toLowerCase"),
        Operand::Utf8(b"toUpperCase"),
        Operand::Utf8(b"equalsIgnoreCase"),
        Operand::Utf8(b"Code"),
    ],
    fields: &[],
    coded: &[
        Coded(0x0001, 15, 92, 4, 2, &INIT),
        Coded(0x0009, 93, 94, 1, 1, &VALUE_OF),
        Coded(0x0009, 93, 95, 1, 1, &VALUE_OF_2),
        Coded(0x0009, 93, 96, 5, 1, &VALUE_OF_3),
        Coded(0x0009, 93, 97, 5, 3, &VALUE_OF_4),
        Coded(0x0009, 98, 96, 5, 1, &COPY_VALUE_OF),
        Coded(0x0009, 98, 97, 5, 3, &COPY_VALUE_OF_2),
        Coded(0x0009, 99, 100, 3, 5, &JOIN),
        Coded(0x0001, 81, 82, 1, 1, &IS_EMPTY),
        Coded(0x0001, 19, 20, 1, 1, &TO_STRING),
        Coded(0x0001, 41, 101, 3, 2, &SUBSTRING),
        Coded(0x0001, 102, 103, 3, 3, &SUB_SEQUENCE),
        Coded(0x0001, 45, 104, 2, 2, &COMPARE_TO),
        Coded(0x0001, 49, 105, 3, 2, &INDEX_OF),
        Coded(0x0001, 49, 46, 3, 2, &INDEX_OF_2),
        Coded(0x0001, 49, 53, 5, 6, &INDEX_OF_3),
        Coded(0x0001, 60, 105, 4, 2, &LAST_INDEX_OF),
        Coded(0x0001, 60, 50, 2, 5, &LAST_INDEX_OF_2),
        Coded(0x0001, 60, 46, 3, 2, &LAST_INDEX_OF_3),
        Coded(0x0001, 60, 53, 5, 6, &LAST_INDEX_OF_4),
        Coded(0x0001, 106, 107, 5, 2, &STARTS_WITH),
        Coded(0x0001, 106, 108, 5, 3, &STARTS_WITH_2),
        Coded(0x0001, 109, 107, 5, 2, &ENDS_WITH),
        Coded(0x0001, 110, 111, 3, 2, &CONTAINS),
        Coded(0x0001, 112, 111, 2, 2, &CONTENT_EQUALS),
        Coded(0x0001, 113, 20, 3, 3, &TRIM),
        Coded(0x0001, 77, 78, 5, 2, &TO_CHAR_ARRAY),
        Coded(0x0001, 114, 115, 5, 5, &REPLACE),
        Coded(0x0001, 114, 116, 4, 9, &REPLACE_2),
        Coded(0x0001, 117, 20, 5, 3, &TO_LOWER_CASE),
        Coded(0x0001, 118, 20, 5, 4, &TO_UPPER_CASE),
        Coded(0x0001, 119, 107, 2, 2, &EQUALS_IGNORE_CASE),
        Coded(0x0001, 89, 46, 3, 5, &COMPARE_TO_IGNORE_CASE),
        Coded(0x000a, 85, 86, 2, 1, &LOWER),
    ],
    natives: &[
        Declared(0x0101, b"<init>", b"()V"),
        Declared(0x0101, b"<init>", b"(Ljava/lang/String;)V"),
        Declared(0x0101, b"<init>", b"([CII)V"),
        Declared(0x0101, b"length", b"()I"),
        Declared(0x0101, b"charAt", b"(I)C"),
        Declared(0x0101, b"equals", b"(Ljava/lang/Object;)Z"),
        Declared(0x0101, b"hashCode", b"()I"),
        Declared(0x0101, b"compareTo", b"(Ljava/lang/String;)I"),
        Declared(0x0101, b"concat", b"(Ljava/lang/String;)Ljava/lang/String;"),
        Declared(0x0101, b"substring", b"(II)Ljava/lang/String;"),
        Declared(0x0101, b"indexOf", b"(II)I"),
        Declared(0x0101, b"regionMatches", b"(ILjava/lang/String;II)Z"),
        Declared(0x0101, b"getChars", b"(II[CI)V"),
        Declared(0x0101, b"intern", b"()Ljava/lang/String;"),
        Declared(0x0109, b"valueOf", b"(I)Ljava/lang/String;"),
        Declared(0x0109, b"valueOf", b"(C)Ljava/lang/String;"),
        Declared(
            0x010a,
            b"described",
            b"(Ljava/lang/Object;I)Ljava/lang/String;",
        ),
    ],
};

//! The built-in classes as tables, in the order of the definitions.
//!
//! Made by `tools/build-built-in` of the class files of builtin/classes. Not to be edited.

mod array_index_out_of_bounds_exception;
mod assertion_error;
mod class;
mod error;
mod exception;
mod exception_in_initializer_error;
mod illegal_argument_exception;
mod illegal_state_exception;
mod object;
mod print_stream;
mod runtime_exception;
mod string;
mod string_builder;
mod string_index_out_of_bounds_exception;
mod system;
mod thread;
mod throwable;
mod virtual_machine_error;

use crate::builtin::form::{BuiltInClass, Declared};
use crate::builtin::tables::array_index_out_of_bounds_exception::ARRAY_INDEX_OUT_OF_BOUNDS_EXCEPTION;
use crate::builtin::tables::assertion_error::ASSERTION_ERROR;
use crate::builtin::tables::class::CLASS;
use crate::builtin::tables::error::ERROR;
use crate::builtin::tables::exception::EXCEPTION;
use crate::builtin::tables::exception_in_initializer_error::EXCEPTION_IN_INITIALIZER_ERROR;
use crate::builtin::tables::illegal_argument_exception::ILLEGAL_ARGUMENT_EXCEPTION;
use crate::builtin::tables::illegal_state_exception::ILLEGAL_STATE_EXCEPTION;
use crate::builtin::tables::object::OBJECT;
use crate::builtin::tables::print_stream::PRINT_STREAM;
use crate::builtin::tables::runtime_exception::RUNTIME_EXCEPTION;
use crate::builtin::tables::string::STRING;
use crate::builtin::tables::string_builder::STRING_BUILDER;
use crate::builtin::tables::string_index_out_of_bounds_exception::STRING_INDEX_OUT_OF_BOUNDS_EXCEPTION;
use crate::builtin::tables::system::SYSTEM;
use crate::builtin::tables::thread::THREAD;
use crate::builtin::tables::throwable::THROWABLE;
use crate::builtin::tables::virtual_machine_error::VIRTUAL_MACHINE_ERROR;

/// The built-in classes by their numbers: 0 to 1.
pub(crate) static FROM_OBJECT: [BuiltInClass; 2] = [
    OBJECT,
    BuiltInClass {
        flags: 0x0601,
        name: b"java/lang/Runnable",
        superclass: Some(b"java/lang/Object"),
        interfaces: &[],
        operands: &[],
        fields: &[],
        coded: &[],
        natives: &[Declared(0x0401, b"run", b"()V")],
    },
];

/// The built-in classes by their numbers: 2.
pub(crate) static FROM_THREAD: [BuiltInClass; 1] = [THREAD];

/// The built-in classes by their numbers: 3.
pub(crate) static FROM_STRING: [BuiltInClass; 1] = [STRING];

/// The built-in classes by their numbers: 4.
pub(crate) static FROM_CLASS: [BuiltInClass; 1] = [CLASS];

/// The built-in classes by their numbers: 5 to 6.
pub(crate) static FROM_SYSTEM: [BuiltInClass; 2] = [SYSTEM, PRINT_STREAM];

/// The built-in classes by their numbers: 7 to 14.
pub(crate) static FROM_THROWABLE: [BuiltInClass; 8] = [
    THROWABLE,
    ERROR,
    EXCEPTION,
    BuiltInClass {
        flags: 0x0021,
        name: b"java/lang/LinkageError",
        superclass: Some(b"java/lang/Error"),
        interfaces: &[],
        operands: &[],
        fields: &[],
        coded: &[],
        natives: &[
            Declared(0x0101, b"<init>", b"()V"),
            Declared(0x0101, b"<init>", b"(Ljava/lang/String;)V"),
            Declared(
                0x0101,
                b"<init>",
                b"(Ljava/lang/String;Ljava/lang/Throwable;)V",
            ),
        ],
    },
    VIRTUAL_MACHINE_ERROR,
    BuiltInClass {
        flags: 0x0021,
        name: b"java/lang/IncompatibleClassChangeError",
        superclass: Some(b"java/lang/LinkageError"),
        interfaces: &[],
        operands: &[],
        fields: &[],
        coded: &[],
        natives: &[
            Declared(0x0101, b"<init>", b"()V"),
            Declared(0x0101, b"<init>", b"(Ljava/lang/String;)V"),
        ],
    },
    BuiltInClass {
        flags: 0x0021,
        name: b"java/lang/NoClassDefFoundError",
        superclass: Some(b"java/lang/LinkageError"),
        interfaces: &[],
        operands: &[],
        fields: &[],
        coded: &[],
        natives: &[
            Declared(0x0101, b"<init>", b"()V"),
            Declared(0x0101, b"<init>", b"(Ljava/lang/String;)V"),
        ],
    },
    EXCEPTION_IN_INITIALIZER_ERROR,
];

/// The built-in classes by their numbers: 15 to 22.
pub(crate) static FROM_ABSTRACT_METHOD_ERROR: [BuiltInClass; 8] = [
    BuiltInClass {
        flags: 0x0021,
        name: b"java/lang/AbstractMethodError",
        superclass: Some(b"java/lang/IncompatibleClassChangeError"),
        interfaces: &[],
        operands: &[],
        fields: &[],
        coded: &[],
        natives: &[
            Declared(0x0101, b"<init>", b"()V"),
            Declared(0x0101, b"<init>", b"(Ljava/lang/String;)V"),
        ],
    },
    BuiltInClass {
        flags: 0x0021,
        name: b"java/lang/StackOverflowError",
        superclass: Some(b"java/lang/VirtualMachineError"),
        interfaces: &[],
        operands: &[],
        fields: &[],
        coded: &[],
        natives: &[
            Declared(0x0101, b"<init>", b"()V"),
            Declared(0x0101, b"<init>", b"(Ljava/lang/String;)V"),
        ],
    },
    RUNTIME_EXCEPTION,
    BuiltInClass {
        flags: 0x0021,
        name: b"java/lang/InterruptedException",
        superclass: Some(b"java/lang/Exception"),
        interfaces: &[],
        operands: &[],
        fields: &[],
        coded: &[],
        natives: &[
            Declared(0x0101, b"<init>", b"()V"),
            Declared(0x0101, b"<init>", b"(Ljava/lang/String;)V"),
        ],
    },
    BuiltInClass {
        flags: 0x0021,
        name: b"java/lang/ArithmeticException",
        superclass: Some(b"java/lang/RuntimeException"),
        interfaces: &[],
        operands: &[],
        fields: &[],
        coded: &[],
        natives: &[
            Declared(0x0101, b"<init>", b"()V"),
            Declared(0x0101, b"<init>", b"(Ljava/lang/String;)V"),
        ],
    },
    BuiltInClass {
        flags: 0x0021,
        name: b"java/lang/ArrayStoreException",
        superclass: Some(b"java/lang/RuntimeException"),
        interfaces: &[],
        operands: &[],
        fields: &[],
        coded: &[],
        natives: &[
            Declared(0x0101, b"<init>", b"()V"),
            Declared(0x0101, b"<init>", b"(Ljava/lang/String;)V"),
        ],
    },
    BuiltInClass {
        flags: 0x0021,
        name: b"java/lang/ClassCastException",
        superclass: Some(b"java/lang/RuntimeException"),
        interfaces: &[],
        operands: &[],
        fields: &[],
        coded: &[],
        natives: &[
            Declared(0x0101, b"<init>", b"()V"),
            Declared(0x0101, b"<init>", b"(Ljava/lang/String;)V"),
        ],
    },
    BuiltInClass {
        flags: 0x0021,
        name: b"java/lang/IllegalMonitorStateException",
        superclass: Some(b"java/lang/RuntimeException"),
        interfaces: &[],
        operands: &[],
        fields: &[],
        coded: &[],
        natives: &[
            Declared(0x0101, b"<init>", b"()V"),
            Declared(0x0101, b"<init>", b"(Ljava/lang/String;)V"),
        ],
    },
];

/// The built-in classes by their numbers: 23 to 30.
pub(crate) static FROM_ILLEGAL_ARGUMENT_EXCEPTION: [BuiltInClass; 8] = [
    ILLEGAL_ARGUMENT_EXCEPTION,
    ILLEGAL_STATE_EXCEPTION,
    BuiltInClass {
        flags: 0x0021,
        name: b"java/lang/IndexOutOfBoundsException",
        superclass: Some(b"java/lang/RuntimeException"),
        interfaces: &[],
        operands: &[],
        fields: &[],
        coded: &[],
        natives: &[
            Declared(0x0101, b"<init>", b"()V"),
            Declared(0x0101, b"<init>", b"(Ljava/lang/String;)V"),
        ],
    },
    BuiltInClass {
        flags: 0x0021,
        name: b"java/lang/NegativeArraySizeException",
        superclass: Some(b"java/lang/RuntimeException"),
        interfaces: &[],
        operands: &[],
        fields: &[],
        coded: &[],
        natives: &[
            Declared(0x0101, b"<init>", b"()V"),
            Declared(0x0101, b"<init>", b"(Ljava/lang/String;)V"),
        ],
    },
    BuiltInClass {
        flags: 0x0021,
        name: b"java/lang/NullPointerException",
        superclass: Some(b"java/lang/RuntimeException"),
        interfaces: &[],
        operands: &[],
        fields: &[],
        coded: &[],
        natives: &[
            Declared(0x0101, b"<init>", b"()V"),
            Declared(0x0101, b"<init>", b"(Ljava/lang/String;)V"),
        ],
    },
    BuiltInClass {
        flags: 0x0021,
        name: b"java/lang/IllegalThreadStateException",
        superclass: Some(b"java/lang/IllegalArgumentException"),
        interfaces: &[],
        operands: &[],
        fields: &[],
        coded: &[],
        natives: &[
            Declared(0x0101, b"<init>", b"()V"),
            Declared(0x0101, b"<init>", b"(Ljava/lang/String;)V"),
        ],
    },
    ARRAY_INDEX_OUT_OF_BOUNDS_EXCEPTION,
    BuiltInClass {
        flags: 0x0601,
        name: b"java/lang/Comparable",
        superclass: Some(b"java/lang/Object"),
        interfaces: &[],
        operands: &[],
        fields: &[],
        coded: &[],
        natives: &[Declared(0x0401, b"compareTo", b"(Ljava/lang/Object;)I")],
    },
];

/// The built-in classes by their numbers: 31 to 35.
pub(crate) static FROM_CHAR_SEQUENCE: [BuiltInClass; 5] = [
    BuiltInClass {
        flags: 0x0601,
        name: b"java/lang/CharSequence",
        superclass: Some(b"java/lang/Object"),
        interfaces: &[],
        operands: &[],
        fields: &[],
        coded: &[],
        natives: &[
            Declared(0x0401, b"length", b"()I"),
            Declared(0x0401, b"charAt", b"(I)C"),
            Declared(0x0401, b"subSequence", b"(II)Ljava/lang/CharSequence;"),
            Declared(0x0401, b"toString", b"()Ljava/lang/String;"),
        ],
    },
    STRING_INDEX_OUT_OF_BOUNDS_EXCEPTION,
    BuiltInClass {
        flags: 0x0601,
        name: b"java/lang/Cloneable",
        superclass: Some(b"java/lang/Object"),
        interfaces: &[],
        operands: &[],
        fields: &[],
        coded: &[],
        natives: &[],
    },
    BuiltInClass {
        flags: 0x0021,
        name: b"java/lang/CloneNotSupportedException",
        superclass: Some(b"java/lang/Exception"),
        interfaces: &[],
        operands: &[],
        fields: &[],
        coded: &[],
        natives: &[
            Declared(0x0101, b"<init>", b"()V"),
            Declared(0x0101, b"<init>", b"(Ljava/lang/String;)V"),
        ],
    },
    ASSERTION_ERROR,
];

/// The built-in classes by their numbers: 36.
pub(crate) static FROM_STRING_BUILDER: [BuiltInClass; 1] = [STRING_BUILDER];

//! What is built in, by number: classes come first among those of each program, and a run opens with objects of theirs.

/// How many classes are built in. Among the classes of a program they come first, and those of its files behind them.
pub const BUILT_IN_CLASSES: usize = 37;

/// The number of java/lang/Object: its place among the classes of each program.
pub const OBJECT: usize = 0;

/// The number of java/lang/Thread.
pub const THREAD: usize = 2;

/// The number of java/lang/String.
pub const STRING: usize = 3;

/// The number of java/lang/Class.
pub const CLASS: usize = 4;

/// The number of java/io/PrintStream.
pub const PRINT_STREAM: usize = 6;

/// The number of java/lang/StringBuilder, the last of the built-in classes.
pub const STRING_BUILDER: usize = 36;

/// The number of java/lang/Throwable.
pub const THROWABLE: usize = 7;

/// The number of java/lang/Error.
pub const ERROR: usize = 8;

/// The number of java/lang/IncompatibleClassChangeError.
pub const INCOMPATIBLE_CLASS_CHANGE_ERROR: usize = 12;

/// The number of java/lang/NoClassDefFoundError.
pub const NO_CLASS_DEF_FOUND_ERROR: usize = 13;

/// The number of java/lang/ExceptionInInitializerError.
pub const EXCEPTION_IN_INITIALIZER_ERROR: usize = 14;

/// The number of java/lang/AbstractMethodError.
pub const ABSTRACT_METHOD_ERROR: usize = 15;

/// The number of java/lang/StackOverflowError.
pub const STACK_OVERFLOW_ERROR: usize = 16;

/// The number of java/lang/InterruptedException.
pub const INTERRUPTED_EXCEPTION: usize = 18;

/// The number of java/lang/ArithmeticException.
pub const ARITHMETIC_EXCEPTION: usize = 19;

/// The number of java/lang/ArrayStoreException.
pub const ARRAY_STORE_EXCEPTION: usize = 20;

/// The number of java/lang/ClassCastException.
pub const CLASS_CAST_EXCEPTION: usize = 21;

/// The number of java/lang/IllegalMonitorStateException.
pub const ILLEGAL_MONITOR_STATE_EXCEPTION: usize = 22;

/// The number of java/lang/NegativeArraySizeException.
pub const NEGATIVE_ARRAY_SIZE_EXCEPTION: usize = 26;

/// The number of java/lang/NullPointerException.
pub const NULL_POINTER_EXCEPTION: usize = 27;

/// The number of java/lang/IllegalThreadStateException.
pub const ILLEGAL_THREAD_STATE_EXCEPTION: usize = 28;

/// The number of java/lang/ArrayIndexOutOfBoundsException.
pub const ARRAY_INDEX_OUT_OF_BOUNDS_EXCEPTION: usize = 29;

/// The number of java/lang/StringIndexOutOfBoundsException.
pub const STRING_INDEX_OUT_OF_BOUNDS_EXCEPTION: usize = 32;

/// The number of java/lang/Cloneable.
pub const CLONEABLE: usize = 33;

/// The number of java/lang/CloneNotSupportedException.
pub const CLONE_NOT_SUPPORTED_EXCEPTION: usize = 34;

/// The number of `Runnable.run`, which is abstract, among the methods of each program.
pub const RUNNABLE_RUN: usize = 9;

/// The number of `Thread.run` among the methods of each program.
pub const THREAD_RUN: usize = 10;

/// The PrintStream of System.out, the first object of a run.
pub const SYSTEM_OUT: u32 = 0;

/// The empty array that `main` gets.
pub const MAIN_ARGUMENTS: u32 = 1;

/// The object of the thread that runs `main`.
pub const MAIN_THREAD_OBJECT: u32 = 2;

/// The first of the Class objects, which stand in the order of the classes.
pub const FIRST_CLASS_OBJECT: u32 = 3;

/// The thread that runs `main`.
pub const MAIN_THREAD: u16 = 0;

/// How many threads there may be at most.
pub const MOST_THREADS: u16 = 32767;

/// No offset in code: code has at most 65535 bytes (JVMS 4.7.3).
pub const NO_OFFSET: u16 = 65535;

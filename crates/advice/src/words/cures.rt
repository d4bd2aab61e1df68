//! What to write in the place of a class that is not there, by its name.

/// A class of the Java library, or all whose names begin so, and what is told behind the name: what in Java needs it,
/// and what to write instead.
type Cure = (&'static str, &'static str);

const BOXED: &str =
    ", of boxing, or of a method of it: take int, char or boolean, or a class of your own";

const CLOSED: &str = ", of a try with resources: write try and finally";

const LEFT: &str = ": leave it out";

const MARKER: &str = ": it does nothing here; leave it out";

/// Classes by their whole names.
static CLASSES: [Cure; 35] = [
    ("java/lang/StringBuffer", ": take StringBuilder"),
    ("java/lang/Enum", ENUM),
    (
        "java/lang/NoSuchFieldError",
        ", of a switch on an enum: write if and else if, and compare by ==",
    ),
    ("java/lang/AutoCloseable", CLOSED),
    ("java/io/Closeable", CLOSED),
    ("java/lang/Integer", BOXED),
    ("java/lang/Short", BOXED),
    ("java/lang/Byte", BOXED),
    ("java/lang/Character", BOXED),
    ("java/lang/Boolean", BOXED),
    ("java/lang/Long", BOXED),
    ("java/lang/Float", BOXED),
    ("java/lang/Double", BOXED),
    ("java/lang/Number", BOXED),
    ("java/lang/Void", BOXED),
    ("java/lang/Math", ": write the method yourself, on ints"),
    (
        "java/lang/StrictMath",
        ": write the method yourself, on ints",
    ),
    (
        "java/lang/Iterable",
        ", of a for over objects: write a loop over an array, or by methods of your own",
    ),
    (
        "java/util/Iterator",
        ", of a for over objects: write a loop over an array, or by methods of your own",
    ),
    ("java/util/Comparator", ": write an interface of your own"),
    ("java/io/Serializable", MARKER),
    (
        "java/lang/ThreadLocal",
        ": keep it in a field of your class of threads",
    ),
    (
        "java/lang/ThreadGroup",
        ": there are no groups of threads; leave it out",
    ),
    (
        "java/lang/Thread$State",
        ": there is no getState; ask isAlive()",
    ),
    (
        "java/lang/Thread$UncaughtExceptionHandler",
        ": catch the exception in run()",
    ),
    (
        "java/lang/Runtime",
        ": nothing outside of the run is reached; leave it out",
    ),
    (
        "java/lang/Process",
        ": nothing outside of the run is reached; leave it out",
    ),
    (
        "java/lang/ClassLoader",
        ": no class is loaded in a run; leave it out",
    ),
    ("java/lang/Record", ", of a record: write a class"),
    (
        "java/lang/annotation/Annotation",
        ", of an annotation type: leave the annotation out",
    ),
    (
        "java/util/Objects",
        ", of a null check that javac writes: write an anonymous class for a method reference, \
         call new Inner() in the class around it, make a constant field static",
    ),
    ("java/util/Random", ": reckon the numbers yourself, on ints"),
    (
        "java/util/Scanner",
        ": nothing is read in a run; write the input into the program",
    ),
    (
        "java/util/Timer",
        ": there is no clock; write a thread that waits to be notified",
    ),
    (
        "java/util/TimerTask",
        ": there is no clock; write a thread that waits to be notified",
    ),
];

/// What an enum is told by.
pub(crate) const ENUM: &str =
    ", of an enum: write a final class, with a static final object for each constant";

/// Classes by what their names begin with, the longer ones first.
static PACKAGES: [Cure; 15] = [
    (
        "java/util/concurrent/atomic/",
        ": write a class with synchronized methods",
    ),
    (
        "java/util/concurrent/locks/",
        ": take synchronized, wait() and notifyAll()",
    ),
    (
        "java/util/concurrent/",
        ": build it of threads, synchronized, wait() and notifyAll()",
    ),
    ("java/util/function/", ": write an interface of your own"),
    ("java/util/stream/", ": write a loop"),
    ("java/util/", ": write a class of your own, over arrays"),
    (
        "java/lang/reflect/",
        ": there is no reflection; leave it out",
    ),
    (
        "java/lang/invoke/",
        ": there is no reflection; leave it out",
    ),
    ("java/lang/annotation/", LEFT),
    (
        "java/io/",
        ": there are no files and no streams; leave it out",
    ),
    (
        "java/nio/",
        ": there are no files and no streams; leave it out",
    ),
    ("java/net/", ": there is no network; leave it out"),
    ("java/time/", ": there is no clock; leave it out"),
    ("java/", ": it is not built in; write a class of your own"),
    ("javax/", ": it is not built in; write a class of your own"),
];

/// Whether the name is that of an exception class of the Java library.
fn is_exception(name: &[u8]) -> bool {
    name.starts_with(b"java/") && (name.ends_with(b"Exception") || name.ends_with(b"Error"))
}

/// What is told behind the name of a class that is not there.
pub(crate) fn words_of_class(name: &[u8]) -> &'static str {
    for cure in &CLASSES {
        if cure.0.as_bytes() == name {
            return cure.1;
        }
    }
    if is_exception(name) {
        return ": it is not built in; take one that is, as RuntimeException, or a class of your own";
    }
    for cure in &PACKAGES {
        if name.starts_with(cure.0.as_bytes()) {
            return cure.1;
        }
    }
    ": its class file is not among those that are given; give it, too"
}

//! What to write in the place of a field or a method that a built-in class has not.

use hierarchy::ClassSet;

/// A class, a member of it and of those below it, by its name, which they have not here, and what is told behind it.
/// With no name it is each other member.
type Cure = (&'static str, &'static str, &'static str);

const STRING: &str = "java/lang/String";

const BUILDER: &str = "java/lang/StringBuilder";

const SYSTEM: &str = "java/lang/System";

const THREAD: &str = "java/lang/Thread";

const THROWABLE: &str = "java/lang/Throwable";

const CLASS: &str = "java/lang/Class";

const OBJECT: &str = "java/lang/Object";

const NO_CLOCK: &str = ": there is no clock; leave it out";

const NO_DAEMONS: &str = ": there are no daemon threads; end it by a flag or an interrupt";

const NO_STOP: &str = ": end it by a flag or an interrupt";

const NO_REFLECTION: &str = ": there is no reflection; leave it out";

const CATCH: &str = ": catch the exception in run()";

const APPENDED: &str = ": add a String, an int, a char, a boolean or an object";

/// The cures of a class stand together, and those of all other members last.
static MEMBERS: [Cure; 33] = [
    (STRING, "<init>", ": take a StringBuilder"),
    (
        STRING,
        "valueOf",
        ": take valueOf of an int, a char, a boolean or an object",
    ),
    (STRING, "", ": write it by charAt, substring and concat"),
    (BUILDER, "append", APPENDED),
    (BUILDER, "insert", APPENDED),
    (BUILDER, "", ": write it by charAt, substring and append"),
    (
        "java/io/PrintStream",
        "",
        ": System.out prints ints, chars, booleans, arrays of chars and objects, and nothing else; print these",
    ),
    (
        SYSTEM,
        "in",
        ": nothing is read in a run; write the input into the program",
    ),
    (
        SYSTEM,
        "exit",
        ": a run ends with its threads; return from main",
    ),
    (SYSTEM, "currentTimeMillis", NO_CLOCK),
    (SYSTEM, "nanoTime", NO_CLOCK),
    (
        SYSTEM,
        "",
        ": System has out, err, arraycopy, identityHashCode and lineSeparator; leave it out",
    ),
    (
        THREAD,
        "sleep",
        ": there is no clock, the schedule says who goes on; leave it out, or wait() to be notified",
    ),
    (THREAD, "join", ": there is no clock; take join()"),
    (
        THREAD,
        "<init>",
        ": take new Thread() or new Thread(Runnable), with a name or without",
    ),
    (
        THREAD,
        "getId",
        ": threads have names, and no numbers; take getName()",
    ),
    (THREAD, "setDaemon", NO_DAEMONS),
    (THREAD, "isDaemon", NO_DAEMONS),
    (THREAD, "getState", ": ask isAlive()"),
    (
        THREAD,
        "getThreadGroup",
        ": there are no groups of threads; leave it out",
    ),
    (THREAD, "stop", NO_STOP),
    (THREAD, "suspend", NO_STOP),
    (THREAD, "resume", NO_STOP),
    (THREAD, "setUncaughtExceptionHandler", CATCH),
    (THREAD, "setDefaultUncaughtExceptionHandler", CATCH),
    (THREAD, "getUncaughtExceptionHandler", CATCH),
    (
        THREAD,
        "getStackTrace",
        ": jvm --explain tells where a thread stands; leave it out",
    ),
    (
        THREAD,
        "holdsLock",
        ": jvm trace tells who owns a monitor; leave it out",
    ),
    (
        THROWABLE,
        "<init>",
        ": take the constructor with a message, or with a message and a cause",
    ),
    (
        THROWABLE,
        "",
        ": an exception has no stack trace, and jvm --explain tells where it was thrown; leave it out",
    ),
    (CLASS, "", NO_REFLECTION),
    (OBJECT, "wait", ": there is no clock; take wait()"),
    (OBJECT, "finalize", ": nothing calls it; leave it out"),
];

/// What is told behind a member of a class that the class and those above it have not, where it is known.
pub(crate) fn words_of_member(set: &ClassSet, class: &[u8], name: &[u8]) -> Option<&'static str> {
    for (above, member, words) in &MEMBERS {
        let is_named = member.is_empty() || member.as_bytes() == name;
        if is_named && set.is_subclass(class, above.as_bytes()) {
            return Some(words);
        }
    }
    None
}

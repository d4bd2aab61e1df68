//! The private members of built-in classes, which no file may name (own).

use classfile::Reference;

/// The field of a Thread that keeps what it was given to run.
pub(crate) const THREAD_TARGET: Reference<'static> = Reference {
    class: b"java/lang/Thread",
    name: b"target",
    descriptor: b"Ljava/lang/Runnable;",
};

/// The fields, in the order of the definitions.
pub(crate) const HIDDEN_FIELDS: [Reference<'static>; 8] = [
    THREAD_TARGET,
    Reference {
        class: b"java/lang/Thread",
        name: b"name",
        descriptor: b"Ljava/lang/String;",
    },
    Reference {
        class: b"java/lang/Thread",
        name: b"number",
        descriptor: b"I",
    },
    Reference {
        class: b"java/lang/Thread",
        name: b"priority",
        descriptor: b"I",
    },
    Reference {
        class: b"java/lang/StringBuilder",
        name: b"text",
        descriptor: b"Ljava/lang/String;",
    },
    Reference {
        class: b"java/lang/Throwable",
        name: b"message",
        descriptor: b"Ljava/lang/String;",
    },
    Reference {
        class: b"java/lang/Throwable",
        name: b"cause",
        descriptor: b"Ljava/lang/Throwable;",
    },
    Reference {
        class: b"java/lang/Throwable",
        name: b"suppressed",
        descriptor: b"[Ljava/lang/Throwable;",
    },
];

/// The methods, in the order of the definitions.
pub(crate) const HIDDEN_METHODS: [Reference<'static>; 3] = [
    Reference {
        class: b"java/lang/String",
        name: b"described",
        descriptor: b"(Ljava/lang/Object;I)Ljava/lang/String;",
    },
    Reference {
        class: b"java/lang/String",
        name: b"lower",
        descriptor: b"(C)C",
    },
    Reference {
        class: b"java/lang/System",
        name: b"check",
        descriptor: b"(IIIII)V",
    },
];

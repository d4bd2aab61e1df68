//! Which fields are variables (JLS 17.4.1).

ghost use Rattle.std.specs.Prelude.{◌≡◌, map};
ghost use Rattle.std.specs.List.{list_any};
ghost use Rattle.model.specs.HiddenMembers.{is_hidden};
ghost use Rattle.model.specs.Names.{member_eq};
ghost use Rattle.data_races.specs.EventActions.{is_variable};
ghost use Rattle.constant_pool.specs.View.{reference_of};
ghost use Rattle.hierarchy.specs.Places.{member_in};

use class_tree::Reference;
use hierarchy::{ClassSet, MemberPlace};

/// The field of a StringBuilder that keeps its text.
const TEXT: Reference<'static> = Reference {
    class: b"java/lang/StringBuilder",
    name: b"text",
    descriptor: b"Ljava/lang/String;",
};

/// The hidden fields, in the order of the definitions.
const HIDDEN_FIELDS: [Reference<'static>; 8] = [
    Reference {
        class: b"java/lang/Thread",
        name: b"target",
        descriptor: b"Ljava/lang/Runnable;",
    },
    Reference {
        class: b"java/lang/Thread",
        name: b"name",
        descriptor: b"Ljava/lang/String;",
    },
    Reference {
        class: b"java/lang/Thread",
        name: b"number",
        descriptor: b"I",
    },
    Reference {
        class: b"java/lang/Thread",
        name: b"priority",
        descriptor: b"I",
    },
    TEXT,
    Reference {
        class: b"java/lang/Throwable",
        name: b"message",
        descriptor: b"Ljava/lang/String;",
    },
    Reference {
        class: b"java/lang/Throwable",
        name: b"cause",
        descriptor: b"Ljava/lang/Throwable;",
    },
    Reference {
        class: b"java/lang/Throwable",
        name: b"suppressed",
        descriptor: b"[Ljava/lang/Throwable;",
    },
];

/// Whether the field that is found at a place is another one.
fn is_found(set: &ClassSet, field: Reference<'_>, place: MemberPlace, other: Reference<'_>) -> bool
    ensures { result ≡ member_eq (member_in set.now (reference_of field.entry) place) (reference_of other.entry) }
{
    set.name_at(place.class) == other.class
        && field.name == other.name
        && field.descriptor == other.descriptor
}

/// Whether one of some fields is the one that is found at a place.
fn is_among(
    set: &ClassSet,
    field: Reference<'_>,
    place: MemberPlace,
    all: &[Reference<'static>],
) -> bool
    ensures { result ≡ list_any (member_eq (member_in set.now (reference_of field.entry) place))
        (map reference_of all.now) }
{
    for other in all {
        if is_found(set, field, place, *other) {
            return true;
        }
    }
    false
}

/// Whether the field that is found at a place is hidden.
fn is_hidden(set: &ClassSet, field: Reference<'_>, place: MemberPlace) -> bool
    ensures { result ≡ is_hidden (member_in set.now (reference_of field.entry) place) }
{
    is_among(set, field, place, &HIDDEN_FIELDS)
}

/// Whether the field that is found at a place is a variable. Of the hidden fields a StringBuilder's text alone is one
/// (own).
pub(crate) fn is_variable(set: &ClassSet, field: Reference<'_>, place: MemberPlace) -> bool
    ensures { result ≡ is_variable (member_in set.now (reference_of field.entry) place) }
{
    !is_hidden(set, field, place) || is_found(set, field, place, TEXT)
}

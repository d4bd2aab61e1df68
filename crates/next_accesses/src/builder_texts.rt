//! What a method of StringBuilder without code reads and writes (JLS 17.4.1; own: a text is a variable).
//!
//! # Proved
//!
//! - `texts_accessed`: by the words of a frame, what the method reads and writes of texts, in its order: an `append`
//!   reads that of its receiver, and of a StringBuilder which it adds, and writes that of its receiver; a constructor
//!   writes it, and `toString` reads it. Of null there is none.
//! - `throws`: whether it is a constructor of a String which is null.
//!
//! # Not proved
//!
//! - That the instruction of the frame runs the method is for whoever calls; that these are the accesses of the
//!   definitions, too.
//!
//! # Wrong bodies
//!
//! - `builder_texts-append-only-reads`: an `append` writes nothing; refused by `appending`.
//! - `builder_texts-to-string-writes`: `toString` is told as a write; refused by `texts_accessed`.
//! - `builder_texts-added-text-is-left-out`: `append` of a StringBuilder doesn't read its text; refused by
//!   `texts_accessed`.
//! - `builder_texts-null-string-throws-nothing`: a constructor of null goes on; refused by `throws`.

ghost use Rattle.std.specs.Prelude.{◌≡◌};
ghost use Rattle.thread_stacks.specs.Stacks.{shown_frame};
ghost use Rattle.next_accesses.specs.builder_texts.Texts.{appending as appended_in, one_access, text_of};
ghost use Rattle.next_accesses.specs.builder_texts.Texts.{texts_accessed as accessed_in, texts_on as on_frame};
ghost use Rattle.next_accesses.specs.builder_texts.Texts.{throws_on};

use crate::accesses::{object_at, read, write};
use model::BuilderMethod;
use model::built_in::STRING_BUILDER;
use race_places::run_actions::{Action, Variable};
use thread_stacks::Frame;

/// What a method reads and writes of texts, in its order.
#[derive(Clone, Copy, PartialEq, Eq)]
pub(crate) struct TextAccesses {
    pub(crate) first: Option<Action>,
    pub(crate) second: Option<Action>,
    pub(crate) third: Option<Action>,
}

/// One access, if there is one.
fn one_access_of(access: Option<Action>) -> TextAccesses
    ensures { result ≡ one_access access }
{
    TextAccesses {
        first: access,
        second: None,
        third: None,
    }
}

/// The text of a StringBuilder, if that is not null: the first field of its class.
fn text(object: Option<u32>) -> Option<Variable>
    ensures { result ≡ text_of object }
{
    match object {
        Some(object) => Some(Variable::InstanceField {
            object,
            class: STRING_BUILDER as u16,
            field: 0,
        }),
        None => None,
    }
}

/// What an `append` reads and writes, if it adds another StringBuilder the text of that, too.
fn appending(frame: &Frame<'_>, added: Option<Variable>) -> TextAccesses
    ensures { result ≡ appended_in (shown_frame frame.now).operands added }
{
    let text = text(object_at(frame, 1));
    TextAccesses {
        first: read(text, false),
        second: read(added, false),
        third: write(text, false),
    }
}

/// What a method reads and writes of texts, by the operands of its call.
fn texts_accessed(frame: &Frame<'_>, method: BuilderMethod) -> TextAccesses
    ensures { result ≡ accessed_in (shown_frame frame.now).operands method }
{
    match method {
        BuilderMethod::ConstructEmpty => one_access_of(write(text(object_at(frame, 0)), false)),
        BuilderMethod::ConstructOfString => one_access_of(write(text(object_at(frame, 1)), false)),
        BuilderMethod::AppendString | BuilderMethod::AppendInt | BuilderMethod::AppendChar => {
            appending(frame, None)
        }
        BuilderMethod::AppendBuilder => appending(frame, text(object_at(frame, 0))),
        BuilderMethod::ToString => one_access_of(read(text(object_at(frame, 0)), false)),
    }
}

/// Whether a method throws: a constructor, where its String is null.
fn throws(frame: &Frame<'_>, method: BuilderMethod) -> bool
    ensures { result ≡ throws_on (shown_frame frame.now).operands method }
{
    match method {
        BuilderMethod::ConstructOfString => frame.operand(0) == 0,
        _ => false,
    }
}

/// What the call of a method reads and writes of texts, unless it throws.
pub(crate) fn texts_on(frame: &Frame<'_>, method: BuilderMethod) -> TextAccesses
    ensures { result ≡ on_frame (shown_frame frame.now).operands method }
{
    if throws(frame, method) {
        one_access_of(None)
    } else {
        texts_accessed(frame, method)
    }
}

//! The text of what is told.

ghost use Rattle.std.specs.Prelude.{◌≡◌, ◌++◌, ℕ, List, [], IfOk, OnOk, codes, map, vec_items};
ghost use Rattle.model.specs.Report.{line};
ghost use Rattle.link_conditions.specs.limits_of_linking.Texts.{with_text, with_texts};
ghost use Rattle.listings.specs.printed_names.Printed.{printed};
ghost use Rattle.advice.specs.Advice.{Shows, head, indented, text_of, words_of};
ghost use Rattle.advice.specs.declared.told.Told.{Told};

use crate::told::Told;
use link_conditions::limits_of_linking::TextSet;
use listings::printed_names::push_printed;
use std::alloc::{AllocError, Global};

/// The line that stands before all others.
const HEAD: &[u8] =
    b"what is wrong with each file, and what to write instead (advice, by a pass of its own):";

/// Adds a line that is indented, without control characters.
fn push_line(text: &mut Vec<u8>, by: &[u8], words: &[u8]) -> Result<(), AllocError>
    ensures { OnOk result (text.new.items ≡ text.old.items ++ line (by.now ++ printed words.now)) }
{
    text.extend_from_slice(by)?;
    push_printed(text, words)?;
    text.push(b'\n')?;
    Ok(())
}

/// Adds a line, unless it is one of those that stand there.
fn push_once(
    alloc: Global,
    text: &mut Vec<u8>,
    lines: &mut TextSet,
    words: &[u8],
) -> Result<(), AllocError>
    ensures lines { OnOk result (lines.new ≡ with_text lines.old words.now) }
    ensures text { OnOk result (Shows text.old.items lines.old text.new.items lines.new) }
{
    if !lines.contains(words) {
        push_line(text, b"    ", words)?;
    }
    lines.add(alloc, words)
}

/// Adds the lines of all that is told, each once.
fn push_lines(
    alloc: Global,
    text: &mut Vec<u8>,
    lines: &mut TextSet,
    told: &[Told],
) -> Result<(), AllocError>
    requires { lines.old ≡ [] }
    ensures lines { OnOk result (lines.new ≡ with_texts lines.old (map words_of told.now)) }
    ensures text { OnOk result (text.new.items ≡ text.old.items ++ indented (codes "    ") lines.new) }
{
    for one in told {
        push_once(alloc, text, lines, &one.words)?;
    }
    Ok(())
}

/// The text of what is told: the head, and below it each line once; nothing where nothing is told.
pub(crate) fn text_of(alloc: Global, told: &[Told]) -> Result<Vec<u8>, AllocError>
    ensures { IfOk result (λ text. text.items ≡ text_of told.now (with_texts [] (map words_of told.now))) }
{
    let mut text = Vec::new(alloc);
    if told.is_empty() {
        return Ok(text);
    }
    push_line(&mut text, b"  ", HEAD)?;
    let mut lines = TextSet::new(alloc);
    push_lines(alloc, &mut text, &mut lines, told)?;
    Ok(text)
}

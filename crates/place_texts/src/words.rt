//! The words of a text, each with its line.

ghost use Rattle.std.specs.Prelude.{◌≡◌, ◌++◌, ◌||◌, ◌+◌, ◌<◌, ◌≤◌, [], drop, false, get_or, length, IfOk, IfSome};
ghost use Rattle.std.specs.Prelude.{None, OnOk};
ghost use Rattle.schedule.specs.schedule_text.Text.{begins_comment as comment_begins};
ghost use Rattle.schedule.specs.schedule_text.Text.{begins_slashes as slashes_begin, behind_comments};
ghost use Rattle.schedule.specs.schedule_text.Text.{is_blank as blank, text_words, with_word, words_from};
ghost use Rattle.place_texts.specs.Reading.{texts};

use std::alloc::{AllocError, Global};

/// A word of a text, and the line in which it ends, counted from 1.
#[derive(Drop)]
pub(crate) struct TextWord {
    pub(crate) bytes: Vec<u8>,
    pub(crate) line: u64,
}

fn is_blank(byte: u8) -> bool
    ensures { result ≡ blank byte }
{
    byte == b'\t' || byte == b'\n' || byte == b'\r' || byte == b' '
}

fn begins_comment(bytes: &[u8]) -> bool
    ensures { result ≡ comment_begins bytes.now }
{
    match bytes {
        [b'#', next, ..] => *next < b'a' || b'z' < *next,
        [b'#'] => true,
        _ => false,
    }
}

/// Whether a comment of the front, of either kind, stands first.
fn begins_front_comment(bytes: &[u8]) -> bool
    ensures { result ≡ (comment_begins bytes.now || slashes_begin bytes.now) }
{
    begins_comment(bytes) || matches!(bytes, [b'/', b'/', ..])
}

/// Whether such a comment goes on behind the first of these bytes, and `None` where the front ends.
fn front_after(comment: bool, bytes: &[u8]) -> Option<bool>
    requires { 0 < length bytes.now }
    ensures goes_on { IfSome result (λ next.
        behind_comments next (drop 1 bytes.now) ≡ behind_comments comment bytes.now) }
    ensures ends { result ≡ None → behind_comments comment bytes.now ≡ bytes.now }
{
    if comment {
        return Some(bytes[0] != b'\n');
    }
    if is_blank(bytes[0]) {
        return Some(false);
    }
    if begins_front_comment(bytes) {
        return Some(true);
    }
    None
}

/// How many bytes the comments take with which a text may begin, and the white space between them.
fn front(bytes: &[u8]) -> usize
    ensures within { result ≤ length bytes.now }
    ensures behind { drop result bytes.now ≡ behind_comments false bytes.now }
{
    let mut comment = false;
    'front: for at in 0..bytes.len() {
        match front_after(comment, &bytes[at..]) {
            Some(next) => comment = next,
            None => return at,
        }
    }
    bytes.len()
}

/// The line, counted from 1, in which so many bytes of a text end.
fn line_at(bytes: &[u8]) -> u64
    ensures { result ≤ length bytes.now + 1 }
{
    let mut line = 1u64;
    'bytes: for byte in bytes {
        if *byte == b'\n' {
            line += 1;
        }
    }
    line
}

/// Ends a word, if one has begun.
fn end_word(
    alloc: Global,
    words: &mut Vec<TextWord>,
    word: &mut Vec<u8>,
    line: u64,
) -> Result<(), AllocError>
    ensures ended { OnOk result (texts words.new.items ≡ texts words.old.items ++ with_word word.old.items []) }
    ensures none { OnOk result (word.new.items ≡ []) }
{
    let read = word.as_slice();
    if read.is_empty() {
        return Ok(());
    }
    let bytes = Vec::from_slice(alloc, read)?;
    words.push(TextWord { bytes, line })?;
    word.clear();
    Ok(())
}

/// Reads the first of these bytes, behind the beginning of a word or within a comment. Tells whether a comment goes on
/// behind it.
fn read_byte(
    alloc: Global,
    words: &mut Vec<TextWord>,
    word: &mut Vec<u8>,
    comment: bool,
    bytes: &[u8],
    line: u64,
) -> Result<bool, AllocError>
    requires { 0 < length bytes.now }
    ensures { IfOk result (λ next. texts words.new.items ++ words_from next word.new.items (drop 1 bytes.now)
        ≡ texts words.old.items ++ words_from comment word.old.items bytes.now) }
{
    if comment {
        return Ok(bytes[0] != b'\n');
    }
    if is_blank(bytes[0]) {
        end_word(alloc, words, word, line)?;
        return Ok(false);
    }
    if begins_comment(bytes) {
        end_word(alloc, words, word, line)?;
        return Ok(true);
    }
    word.push(bytes[0])?;
    Ok(false)
}

/// The words of a text. The only error is a want of memory.
pub(crate) fn words_of(alloc: Global, text: &[u8]) -> Result<Vec<TextWord>, AllocError>
    ensures { IfOk result (λ words. texts words.items ≡ text_words text.now) }
{
    let mut words = Vec::new(alloc);
    let mut word = Vec::new(alloc);
    let mut comment = false;
    let start = front(text);
    let mut line = line_at(&text[..start]);
    'bytes: for at in start..text.len() {
        comment = read_byte(alloc, &mut words, &mut word, comment, &text[at..], line)?;
        if text[at] == b'\n' {
            line += 1;
        }
    }
    end_word(alloc, &mut words, &mut word, line)?;
    Ok(words)
}

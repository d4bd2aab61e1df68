//! The words of a text, from left to right.

ghost use Rattle.std.specs.Prelude.{◌≡◌, ◌∷◌, ◌≤◌, ◌<◌, ◌||◌, ℕ, List, [], length, drop, take, get_or, true, false, None, IsTrue, IfSome};
ghost use Rattle.schedule.specs.schedule_text.Text.{begins_comment as comment_begins, begins_slashes as slashes_begin, behind_comments, is_blank as blank, schedule_words as words_of_schedule, text_words, up_to_blank as whole, words_from, words_of};

use std::marker::Model;

fn is_blank(byte: u8) -> bool
    ensures { result ≡ blank byte }
{
    byte == b'\t' || byte == b'\n' || byte == b'\r' || byte == b' '
}

fn begins_comment(bytes: &[u8]) -> bool
    ensures { result ≡ comment_begins bytes.now }
{
    match bytes {
        [b'#', next, ..] => *next < b'a' || b'z' < *next,
        [b'#'] => true,
        _ => false,
    }
}

/// Whether a comment of the front, of either kind, stands first.
fn begins_front_comment(bytes: &[u8]) -> bool
    ensures { result ≡ (comment_begins bytes.now || slashes_begin bytes.now) }
{
    begins_comment(bytes) || matches!(bytes, [b'/', b'/', ..])
}

/// Whether such a comment goes on behind the first of these bytes, and `None` where the front ends.
fn front_after(comment: bool, bytes: &[u8]) -> Option<bool>
    requires { 0 < length bytes.now }
    ensures goes_on { IfSome result (λ next.
        behind_comments next (drop 1 bytes.now) ≡ behind_comments comment bytes.now) }
    ensures ends { result ≡ None → behind_comments comment bytes.now ≡ bytes.now }
{
    if comment {
        return Some(bytes[0] != b'\n');
    }
    if is_blank(bytes[0]) {
        return Some(false);
    }
    if begins_front_comment(bytes) {
        return Some(true);
    }
    None
}

/// How many bytes the comments take with which a text may begin, and the white space between them.
fn front(bytes: &[u8]) -> usize
    ensures within { result ≤ length bytes.now }
    ensures behind { drop result bytes.now ≡ behind_comments false bytes.now }
{
    let mut comment = false;
    'front: for at in 0..bytes.len() {
        match front_after(comment, &bytes[at..]) {
            Some(next) => comment = next,
            None => return at,
        }
    }
    bytes.len()
}

/// Whether a word ends before these bytes: white space or a comment stands first.
fn ends_word(bytes: &[u8]) -> bool
    requires { 0 < length bytes.now }
    ensures { result ≡ (blank (get_or bytes.now 0 0) || comment_begins bytes.now) }
{
    is_blank(bytes[0]) || begins_comment(bytes)
}

/// Whether a comment goes on behind the first of these bytes, and `None` where that begins a word.
fn comment_after(comment: bool, bytes: &[u8]) -> Option<bool>
    requires { 0 < length bytes.now }
    ensures goes_on { IfSome result (λ next. words_from next [] (drop 1 bytes.now) ≡ words_from comment [] bytes.now) }
    ensures begins { result ≡ None → (comment ≡ false)
        × ((blank (get_or bytes.now 0 0) || comment_begins bytes.now) ≡ false) }
{
    if comment {
        return Some(bytes[0] != b'\n');
    }
    if is_blank(bytes[0]) {
        return Some(false);
    }
    if begins_comment(bytes) {
        return Some(true);
    }
    None
}

/// How many bytes stand before the first word, or how many there are where no word follows.
fn gap(bytes: &[u8]) -> usize
    ensures within { result ≤ length bytes.now }
    ensures same { words_of (drop result bytes.now) ≡ words_of bytes.now }
    ensures begins { result < length bytes.now
        → (blank (get_or bytes.now result 0) || comment_begins (drop result bytes.now)) ≡ false }
{
    let mut comment = false;
    'gap: for at in 0..bytes.len() {
        match comment_after(comment, &bytes[at..]) {
            Some(next) => comment = next,
            None => return at,
        }
    }
    bytes.len()
}

/// How long the word is that the bytes begin with.
fn word_length(bytes: &[u8]) -> usize
    requires some { 0 < length bytes.now }
    requires begins { (blank (get_or bytes.now 0 0) || comment_begins bytes.now) ≡ false }
    ensures within { result ≤ length bytes.now }
    ensures parts { words_of bytes.now ≡ take result bytes.now ∷ words_of (drop result bytes.now) }
{
    'word: for at in 0..bytes.len() {
        if ends_word(&bytes[at..]) {
            return at;
        }
    }
    bytes.len()
}

/// The bytes up to the last white space.
fn up_to_blank(bytes: &[u8]) -> &[u8]
    ensures { result.now ≡ whole bytes.now }
{
    'bytes: for at in (0..bytes.len()).rev() {
        if is_blank(bytes[at]) {
            return &bytes[..=at];
        }
    }
    &[]
}

/// The words of a text that spell a schedule. A text whose first word is `#growing` may end in a part of a word: the
/// last one is none of them, unless white space stands behind it.
pub(crate) fn schedule_words(text: &[u8]) -> Words<'_>
    ensures { result ≡ words_of_schedule text.now }
{
    let words = Words::new(text);
    if !words.begins_with(b"#growing") {
        return words;
    }
    let mut words = Words::new(up_to_blank(text));
    let _ = words.next();
    words
}

/// A text, and how many bytes of it are read. What is seen of it is the words that are left.
#[derive(Drop)]
pub(crate) struct Words<'a> {
    text: &'a [u8],
    at: usize,
}

impl<'a> Model for Words<'a> {
    ghost use Rattle.std.specs.Prelude.{◌≤◌, ℕ, List, drop, length};
    ghost use Rattle.schedule.specs.schedule_text.Text.{words_of};

    ghost Value = { List (List ℕ) };

    ghost view = { λ w. words_of (drop w.at w.text.now) };

    ghost invariant = { λ w. w.at ≤ length w.text.now };
}

impl<'a> Words<'a> {
    pub(crate) fn new(text: &'a [u8]) -> Words<'a>
        ensures { result ≡ text_words text.now }
    {
        Words {
            text,
            at: front(text),
        }
    }

    /// The next word, or `None` where no more comes.
    pub(crate) fn next(&mut self) -> Option<&'a [u8]>
        ensures some { IfSome result (λ word. self.old ≡ word.now ∷ self.new) }
        ensures none { result ≡ None → (self.old ≡ []) × (self.new ≡ []) }
    {
        let start = self.at + gap(&self.text[self.at..]);
        self.at = start;
        if start == self.text.len() {
            return None;
        }
        let end = start + word_length(&self.text[start..]);
        self.at = end;
        Some(&self.text[start..end])
    }

    /// Whether this word comes next.
    pub(crate) fn begins_with(&self, word: &[u8]) -> bool
        ensures is { IsTrue result → (rest : List (List ℕ)) × (self.now ≡ word.now ∷ rest) }
        ensures not { (rest : List (List ℕ)) → self.now ≡ word.now ∷ rest → result ≡ true }
    {
        let mut ahead = Words {
            text: self.text,
            at: self.at,
        };
        match ahead.next() {
            Some(next) => next == word,
            None => false,
        }
    }

    /// The line, counted from 1, of the word that was read last.
    pub(crate) fn line(&self) -> u64 {
        let mut line = 1u64;
        'bytes: for byte in &self.text[..self.at] {
            if *byte == b'\n' {
                line += 1;
            }
        }
        line
    }
}

//! The order of printed texts, by their lines.

ghost use Rattle.std.specs.Prelude.{◌≡◌, ◌⊎◌, ◌<◌, [], ◌∷◌, length};
ghost use Rattle.std.specs.Cmp.Lexicographic.{slice_cmp};
ghost use Rattle.std.specs.Ordering.{nat_cmp};
ghost use Rattle.search.specs.run_outcomes.Lines.{AreInOrderOfInts, line_cmp, lines_of, text_cmp};
ghost use Rattle.search.specs.run_outcomes.Lines.{below_negative, below_positive, ints_below, is_short, number_of};

use std::cmp::Ordering;

/// A line feed.
const LINE_FEED: u16 = 10;

/// How many ints are less than 0.
const NEGATIVE_INTS: u64 = 0x8000_0000;

/// How many ints there are.
const ALL_INTS: u64 = 0x1_0000_0000;

fn is_short(digits: &[u16]) -> bool
    ensures { result ≡ is_short digits.now }
{
    let count = digits.len();
    count > 0 && (count <= 10 && (count < 2 || digits[0] != 48))
}

/// The number of which these are the decimal, if they are that of one of at most ten digits.
fn number_of(digits: &[u16]) -> Option<u64>
    ensures { result ≡ number_of digits.now }
{
    if !is_short(digits) {
        return None;
    }
    let mut number = 0;
    'digits: for digit in digits {
        if *digit < 48 || *digit > 57 {
            return None;
        }
        number = number * 10 + u64::from(*digit - 48);
    }
    Some(number)
}

fn below_positive(number: Option<u64>) -> u64
    ensures { result ≡ below_positive number }
{
    match number {
        Some(number) if number < NEGATIVE_INTS => NEGATIVE_INTS + number,
        _ => ALL_INTS,
    }
}

fn below_negative(number: Option<u64>) -> u64
    ensures { result ≡ below_negative number }
{
    match number {
        Some(number) if 0 < number && number <= NEGATIVE_INTS => NEGATIVE_INTS - number,
        _ => ALL_INTS,
    }
}

/// How many ints are less than the one of which a line is the decimal; where it is that of none, all.
fn ints_below(line: &[u16]) -> u64
    ensures { result ≡ ints_below line.now }
{
    if line.is_empty() {
        return ALL_INTS;
    }
    if line[0] == 45 {
        below_negative(number_of(&line[1..]))
    } else {
        below_positive(number_of(line))
    }
}

fn compare_units(one: &[u16], other: &[u16]) -> Ordering
    ensures { result ≡ slice_cmp nat_cmp one.now other.now }
{
    one.cmp(other)
}

/// Which of two lines comes first.
fn compare_lines(one: &[u16], other: &[u16]) -> Ordering
    ensures { result ≡ line_cmp one.now other.now }
{
    match ints_below(one).cmp(&ints_below(other)) {
        Ordering::Equal => compare_units(one, other),
        Ordering::Less => Ordering::Less,
        Ordering::Greater => Ordering::Greater,
    }
}

/// The first line of a text, and what comes behind its line feed.
fn split_line(text: &[u16]) -> (&[u16], &[u16])
    requires { 0 < length text.now }
    ensures lines { lines_of text.now ≡ result.0.now ∷ lines_of result.1.now }
    ensures shorter { length result.1.now < length text.now }
{
    'units: for at in 0..text.len() {
        if text[at] == LINE_FEED {
            return (&text[..at], &text[at + 1..]);
        }
    }
    (text, &text[text.len()..])
}

/// The same of two texts of which one has no lines.
fn compare_ended(one: &[u16], other: &[u16]) -> Ordering
    requires { (one.now ≡ []) ⊎ (other.now ≡ []) }
    ensures { result ≡ slice_cmp line_cmp (lines_of one.now) (lines_of other.now) }
{
    match (one.is_empty(), other.is_empty()) {
        (true, true) => Ordering::Equal,
        (true, false) => Ordering::Less,
        (false, _) => Ordering::Greater,
    }
}

/// Which of two texts comes first by their lines. Those whose lines are the same are equal.
fn compare_each_line(one: &[u16], other: &[u16]) -> Ordering
    ensures { result ≡ slice_cmp line_cmp (lines_of one.now) (lines_of other.now) }
{
    let mut left = one;
    let mut right = other;
    'lines: while !left.is_empty() && !right.is_empty() {
        let (first, behind_first) = split_line(left);
        let (second, behind_second) = split_line(right);
        match compare_lines(first, second) {
            Ordering::Equal => {}
            Ordering::Less => return Ordering::Less,
            Ordering::Greater => return Ordering::Greater,
        }
        left = behind_first;
        right = behind_second;
    }
    compare_ended(left, right)
}

/// Which of two printed texts comes first: by the first lines that differ, and else the one that ends first.
pub(crate) fn compare_printed(one: &[u16], other: &[u16]) -> Ordering
    ensures { result ≡ text_cmp one.now other.now }
{
    match compare_each_line(one, other) {
        Ordering::Equal => compare_units(one, other),
        Ordering::Less => Ordering::Less,
        Ordering::Greater => Ordering::Greater,
    }
}

/// Texts in which each line is an int are in the order of the ints. The function is a theorem, and does nothing.
pub fn texts_of_ints_are_in_order()
    ensures holds { AreInOrderOfInts }
{}

//! What the methods of PrintStream print.

ghost use Rattle.std.specs.Prelude.{◌≡◌, ◌+◌, ◌≤◌, ◌<◌, ◌^◌, ◌++◌, ℕ, length, map};
ghost use Rattle.std.specs.Fmt.{signed_decimal};
ghost use Rattle.std.specs.Vec.{vec_len, vec_capacity};
ghost use Rattle.linked_code.specs.declared.method.BuiltInMethod.TheVariants as method;
ghost use Rattle.machine_instructions.specs.thread_methods.Called.{DoesUnpicked};
ghost use Rattle.machine_instructions.specs.thread_methods.Printed.{units_at, unit_in, string_by, printed_of, IsRoomFor};

use crate::thread_methods::growth::{spare, take_room};
use crate::thread_methods::moves::{go_on, operand};
use crate::thread_methods::texts;
use heap::Heap;
use itoa::Buffer;
use machine_state::{Effect, EventRefusal, Shared};
use model::PrintMethod;
use thread_stacks::ThreadStack;

/// The most units that an int or a char has with a line feed: a sign, ten digits and it.
const MOST_UNITS: usize = 12;

const LINE_FEED: u16 = 10;

/// The text of null.
const NULL: &[u8] = b"null";

/// The units of a String, each a word; none of another object.
fn units(heap: &Heap, object: u32) -> &[u32]
    ensures { result.now ≡ units_at heap.now.objects object }
{
    match texts::units(heap, object) {
        Some(units) => units,
        None => &[],
    }
}

/// How many units the text of a String has to which a word refers.
fn string_length(heap: &Heap, word: u32) -> usize
    ensures units { result ≡ length (string_by heap.now.objects word) }
    ensures fits { result < 2 ^ 63 }
{
    if word == 0 {
        return NULL.len();
    }
    units(heap, word - 1).len()
}

/// How many units a method prints of a word, at most.
fn room_for(heap: &Heap, print: PrintMethod, word: u32) -> usize
    ensures room { IsRoomFor result (printed_of print heap.now.objects word) }
    ensures fits { result ≤ 2 ^ 63 }
{
    match print {
        PrintMethod::PrintString => string_length(heap, word),
        PrintMethod::PrintlnString => string_length(heap, word) + 1,
        PrintMethod::Println
        | PrintMethod::PrintlnChar
        | PrintMethod::PrintlnInt
        | PrintMethod::PrintChar
        | PrintMethod::PrintInt => MOST_UNITS,
    }
}

/// Adds letters or digits.
fn push_bytes(printed: &mut Vec<u16>, bytes: &[u8])
    requires { vec_len printed.old + length bytes.now ≤ vec_capacity printed.old }
    ensures items { printed.new.items ≡ printed.old.items ++ bytes.now }
    ensures len { vec_len printed.new ≡ vec_len printed.old + length bytes.now }
    ensures capacity { vec_capacity printed.new ≡ vec_capacity printed.old }
{
    for byte in bytes {
        printed.push_reserved(u16::from(*byte));
    }
}

/// Adds units, each the low bits of a word.
fn push_units(printed: &mut Vec<u16>, units: &[u32])
    requires { vec_len printed.old + length units.now ≤ vec_capacity printed.old }
    ensures items { printed.new.items ≡ printed.old.items ++ map unit_in units.now }
    ensures len { vec_len printed.new ≡ vec_len printed.old + length units.now }
    ensures capacity { vec_capacity printed.new ≡ vec_capacity printed.old }
{
    for unit in units {
        printed.push_reserved((*unit % 0x1_0000) as u16);
    }
}

/// Adds a number in decimal.
fn push_number(printed: &mut Vec<u16>, number: i32)
    requires { vec_len printed.old + length (signed_decimal number) ≤ vec_capacity printed.old }
    ensures items { printed.new.items ≡ printed.old.items ++ signed_decimal number }
    ensures len { vec_len printed.new ≡ vec_len printed.old + length (signed_decimal number) }
    ensures capacity { vec_capacity printed.new ≡ vec_capacity printed.old }
{
    let mut buffer = Buffer::new();
    push_bytes(printed, buffer.format(number).as_bytes());
}

/// Adds the text of the String to which a word refers.
fn push_string(printed: &mut Vec<u16>, heap: &Heap, word: u32)
    requires { vec_len printed.old + length (string_by heap.now.objects word) ≤ vec_capacity printed.old }
    ensures items { printed.new.items ≡ printed.old.items ++ string_by heap.now.objects word }
    ensures len { vec_len printed.new ≡ vec_len printed.old + length (string_by heap.now.objects word) }
    ensures capacity { vec_capacity printed.new ≡ vec_capacity printed.old }
{
    if word == 0 {
        push_bytes(printed, NULL);
    } else {
        push_units(printed, units(heap, word - 1));
    }
}

/// Adds what a method prints of a word.
fn push_printed(printed: &mut Vec<u16>, heap: &Heap, print: PrintMethod, word: u32)
    requires { vec_len printed.old + length (printed_of print heap.now.objects word) ≤ vec_capacity printed.old }
    ensures { printed.new.items ≡ printed.old.items ++ printed_of print heap.now.objects word }
{
    let unit = (word % 0x1_0000) as u16;
    match print {
        PrintMethod::Println => {
            printed.push_reserved(LINE_FEED);
        }
        PrintMethod::PrintlnChar => {
            printed.push_reserved(unit);
            printed.push_reserved(LINE_FEED);
        }
        PrintMethod::PrintlnInt => {
            push_number(printed, word.cast_signed());
            printed.push_reserved(LINE_FEED);
        }
        PrintMethod::PrintlnString => {
            push_string(printed, heap, word);
            printed.push_reserved(LINE_FEED);
        }
        PrintMethod::PrintChar => {
            printed.push_reserved(unit);
        }
        PrintMethod::PrintInt => {
            push_number(printed, word.cast_signed());
        }
        PrintMethod::PrintString => {
            push_string(printed, heap, word);
        }
    }
}

/// A method of PrintStream prints the operand on top; `println()` has none but its receiver, and prints a line feed.
pub(crate) fn print(
    shared: &mut Shared,
    stack: &mut ThreadStack,
    print: PrintMethod,
    operands: usize,
    next: usize,
) -> Result<Effect, EventRefusal>
    ensures { (t : ℕ) → DoesUnpicked (method.PrintStreamPrints print) operands next t result shared.old shared.new
        stack.old stack.new }
{
    let word = operand(stack, 0);
    let room = room_for(&shared.heap, print, word);
    let spare = spare(&shared.printed, room)?;
    take_room(&mut shared.printed, spare);
    push_printed(&mut shared.printed, &shared.heap, print, word);
    go_on(stack, operands, next);
    Ok(Effect::Done)
}

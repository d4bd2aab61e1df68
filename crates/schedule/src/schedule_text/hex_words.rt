//! Numbers of 64 bits in sixteen hexadecimal digits.

ghost use Rattle.std.specs.Prelude.{◌≡◌, ◌<◌, ◌^◌, ◌++◌, ℕ, Some, IfSome, OnOk};
ghost use Rattle.schedule.specs.schedule_text.Text.{hex_word as word_of};

use byteorder::{BigEndian, ByteOrder};
use std::alloc::AllocError;

/// The digits of a number, the letters small.
fn hex_word(number: u64) -> [u8; 16]
    ensures { result ≡ word_of number }
{
    let mut bytes = [0u8; 8];
    BigEndian::write_u64(&mut bytes, number);
    let mut word = [0u8; 16];
    let _ = hex::encode_to_slice(bytes.as_slice(), &mut word);
    word
}

/// The number that a word spells so.
pub(crate) fn hex_number(word: &[u8]) -> Option<u64>
    ensures found { IfSome result (λ n. word.now ≡ word_of n) }
    ensures only { (n : ℕ) → n < 2 ^ 64 → word.now ≡ word_of n → result ≡ Some n }
{
    let mut bytes = [0u8; 8];
    match hex::decode_to_slice(word, &mut bytes) {
        Ok(()) => {}
        Err(_) => return None,
    }
    let number = BigEndian::read_u64(&bytes);
    if hex_word(number).as_slice() == word {
        Some(number)
    } else {
        None
    }
}

pub(crate) fn push_hex_word(text: &mut Vec<u8>, number: u64) -> Result<(), AllocError>
    ensures { OnOk result (text.new.items ≡ text.old.items ++ word_of number) }
{
    text.extend_from_slice(&hex_word(number))
}

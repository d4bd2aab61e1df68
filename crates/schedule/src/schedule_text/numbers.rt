//! Numbers in decimal digits, without a sign and without zeros in front.

ghost use Rattle.std.specs.Prelude.{◌≡◌, ◌≤◌, ◌<◌, ◌^◌, ◌++◌, ℕ, Some, IfSome, OnOk, decimal};

use itoa::Buffer;
use std::alloc::AllocError;
use std::str;

/// The number that the bytes spell.
fn number(bytes: &[u8]) -> Option<u64>
    ensures found { IfSome result (λ n. bytes.now ≡ decimal n) }
    ensures only { (n : ℕ) → n < 2 ^ 64 → bytes.now ≡ decimal n → result ≡ Some n }
{
    let Ok(text) = str::from_utf8(bytes) else {
        return None;
    };
    let Ok(number) = text.parse::<u64>() else {
        return None;
    };
    let mut buffer = Buffer::new();
    if buffer.format(number).as_bytes() == bytes {
        Some(number)
    } else {
        None
    }
}

/// The number between these two that the bytes spell.
pub(crate) fn number_within(bytes: &[u8], least: u64, most: u64) -> Option<u64>
    ensures found { IfSome result (λ n. (bytes.now ≡ decimal n) × (least ≤ n) × (n ≤ most)) }
    ensures only { (n : ℕ) → least ≤ n → n ≤ most → bytes.now ≡ decimal n → result ≡ Some n }
{
    let number = number(bytes)?;
    if least <= number && number <= most {
        Some(number)
    } else {
        None
    }
}

pub(crate) fn push_number(text: &mut Vec<u8>, number: u64) -> Result<(), AllocError>
    ensures { OnOk result (text.new.items ≡ text.old.items ++ decimal number) }
{
    let mut buffer = Buffer::new();
    text.extend_from_slice(buffer.format(number).as_bytes())
}

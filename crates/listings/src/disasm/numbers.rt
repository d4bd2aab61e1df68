//! Numbers in hexadecimal and in decimal.

ghost use Rattle.std.specs.Prelude.{◌≡◌, ◌<◌, ◌++◌, OnOk};
ghost use Rattle.std.specs.List.{flat_map};
ghost use Rattle.model.specs.Report.{number, signed_number};
ghost use Rattle.model.specs.Listing.{hex_digit, hex_byte, hex_short, offset_digits, target};

use itoa::Buffer;
use std::alloc::AllocError;

fn hex_digit(n: u8) -> u8
    requires { n < 16 }
    ensures { result ≡ hex_digit n }
{
    if n < 10 { b'0' + n } else { b'a' - 10 + n }
}

/// A byte in two hexadecimal digits.
pub(crate) fn push_hex_byte(text: &mut Vec<u8>, byte: u8) -> Result<(), AllocError>
    ensures { OnOk result (text.new.items ≡ text.old.items ++ hex_byte byte) }
{
    text.extend_from_slice(&[hex_digit(byte / 16), hex_digit(byte % 16)])?;
    Ok(())
}

/// Each byte in two hexadecimal digits.
pub(crate) fn push_hex_bytes(text: &mut Vec<u8>, bytes: &[u8]) -> Result<(), AllocError>
    ensures { OnOk result (text.new.items ≡ text.old.items ++ flat_map hex_byte bytes.now) }
{
    'bytes: for byte in bytes {
        push_hex_byte(text, *byte)?;
    }
    Ok(())
}

/// 16 bits in four hexadecimal digits.
pub(crate) fn push_hex_short(text: &mut Vec<u8>, n: u16) -> Result<(), AllocError>
    ensures { OnOk result (text.new.items ≡ text.old.items ++ hex_short n) }
{
    push_hex_byte(text, (n / 256) as u8)?;
    push_hex_byte(text, (n % 256) as u8)
}

pub(crate) fn push_number(text: &mut Vec<u8>, n: u16) -> Result<(), AllocError>
    ensures { OnOk result (text.new.items ≡ text.old.items ++ number n) }
{
    let mut buffer = Buffer::new();
    text.extend_from_slice(buffer.format(n).as_bytes())?;
    Ok(())
}

pub(crate) fn push_signed(text: &mut Vec<u8>, n: i64) -> Result<(), AllocError>
    ensures { OnOk result (text.new.items ≡ text.old.items ++ signed_number n) }
{
    let mut buffer = Buffer::new();
    text.extend_from_slice(buffer.format(n).as_bytes())?;
    Ok(())
}

/// An offset in five digits or more.
pub(crate) fn push_offset(text: &mut Vec<u8>, pc: usize) -> Result<(), AllocError>
    ensures { OnOk result (text.new.items ≡ text.old.items ++ offset_digits pc) }
{
    let mut buffer = Buffer::new();
    let digits = buffer.format(pc).as_bytes();
    'zeros: for _ in 0..5usize.saturating_sub(digits.len()) {
        text.push(b'0')?;
    }
    text.extend_from_slice(digits)?;
    Ok(())
}

/// The offset to which the instruction at `pc` jumps.
pub(crate) fn push_target(text: &mut Vec<u8>, pc: usize, by: i32) -> Result<(), AllocError>
    ensures { OnOk result (text.new.items ≡ text.old.items ++ target pc by) }
{
    let mut buffer = Buffer::new();
    text.extend_from_slice(buffer.format(pc as i128 + i128::from(by)).as_bytes())?;
    Ok(())
}

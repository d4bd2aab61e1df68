//! Names without control characters.

ghost use Rattle.std.specs.Prelude.{◌≡◌, ◌++◌, OnOk};
ghost use Rattle.listings.specs.printed_names.Printed.{printed, printed_byte};

use crate::disasm::push_hex_byte;
use std::alloc::AllocError;

fn push_printed_byte(text: &mut Vec<u8>, byte: u8) -> Result<(), AllocError>
    ensures { OnOk result (text.new.items ≡ text.old.items ++ printed_byte byte) }
{
    if byte == b'\\' {
        return Ok(text.extend_from_slice(b"\\\\")?);
    }
    if byte < 0x20 || byte == 0x7f {
        text.extend_from_slice(b"\\x")?;
        return push_hex_byte(text, byte);
    }
    text.push(byte)?;
    Ok(())
}

/// Writes a name, or another text of a class file, behind a text: byte by byte, but that a backslash is doubled, and
/// a control character of ASCII is `\x` and its two hexadecimal digits. So no line feed of a file parts a line. The
/// only error is a want of memory.
pub fn push_printed(text: &mut Vec<u8>, name: &[u8]) -> Result<(), AllocError>
    ensures { OnOk result (text.new.items ≡ text.old.items ++ printed name.now) }
{
    'bytes: for byte in name {
        push_printed_byte(text, *byte)?;
    }
    Ok(())
}

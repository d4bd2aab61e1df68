//! Numbers in the bytes of attributes.

/// The two bytes from an offset on as a number.
pub(crate) fn u2_at(bytes: &[u8], at: usize) -> Option<u16> {
    let high = bytes.get(at).copied()?;
    let low = bytes.get(at.saturating_add(1)).copied()?;
    Some(u16::from_be_bytes([high, low]))
}

//! Class files of other versions, made readable.

/// The two bytes from an offset on as a number.
fn u2_at(bytes: &[u8], at: usize) -> Option<u16> {
    let high = bytes.get(at).copied()?;
    let low = bytes.get(at.saturating_add(1)).copied()?;
    Some(u16::from_be_bytes([high, low]))
}

/// Puts a byte in the place of another one.
fn put(bytes: &mut [u8], at: usize, byte: u8) {
    if let Some(place) = bytes.get_mut(at) {
        *place = byte;
    }
}

/// What stands at an offset of the constant pool.
#[derive(Clone, Copy)]
struct Entry {
    /// How many bytes it has.
    length: usize,
    /// Whether the entry takes two places.
    is_wide: bool,
}

fn entry_at(bytes: &[u8], at: usize) -> Option<Entry> {
    let length = match bytes.get(at).copied()? {
        1 => usize::from(u2_at(bytes, at.saturating_add(1))?) + 3,
        3 | 4 | 9..=12 | 17 | 18 => 5,
        5 | 6 => {
            return Some(Entry {
                length: 9,
                is_wide: true,
            });
        }
        7 | 8 | 16 | 19 | 20 => 3,
        15 => 4,
        _ => return None,
    };
    Some(Entry {
        length,
        is_wide: false,
    })
}

/// Puts an entry that version 49.0 has in the place of one that it has not, and that has as many bytes: a String for
/// a MethodType, a Module or a Package, an Integer of the same bits for a Dynamic or an InvokeDynamic, and a Utf8 of
/// one letter for a MethodHandle.
fn mend_entry(bytes: &mut [u8], at: usize) {
    match bytes.get(at).copied() {
        Some(16 | 19 | 20) => put(bytes, at, 8),
        Some(17 | 18) => put(bytes, at, 3),
        Some(15) => {
            put(bytes, at, 1);
            put(bytes, at.saturating_add(1), 0);
            put(bytes, at.saturating_add(2), 1);
            put(bytes, at.saturating_add(3), b'h');
        }
        _ => {}
    }
}

/// Mends the entries of the constant pool, as far as they are such as any version has.
fn mend_pool(bytes: &mut [u8]) {
    let Some(count) = u2_at(bytes, 8) else {
        return;
    };
    let mut at = 10usize;
    let mut is_second = false;
    for _ in 1..count {
        if is_second {
            is_second = false;
            continue;
        }
        let Some(entry) = entry_at(bytes, at) else {
            return;
        };
        mend_entry(bytes, at);
        is_second = entry.is_wide;
        at = at.saturating_add(entry.length);
    }
}

/// Makes of a class file of any version one of version 49.0, as far as that goes: each entry of its constant pool of
/// a kind that came later (JVMS table 4.4-B of its later editions) is another one, so that all stands where it stood.
pub(crate) fn mend(bytes: &mut [u8]) {
    for (at, byte) in [(4usize, 0u8), (5, 0), (6, 0), (7, 49)] {
        put(bytes, at, byte);
    }
    mend_pool(bytes);
}

//! The hash of a list of words, of which nothing is claimed.

/// The hash once a number is mixed in.
#[inline]
fn with_number(hash: u64, number: u64) -> u64 {
    let next = (hash ^ number).wrapping_mul(0x9e37_79b9_7f4a_7c15);
    next ^ (next >> 29)
}

/// The hash of a list of words.
pub(crate) fn hash_of(words: &[u32]) -> u64 {
    let mut hash = with_number(0, words.len() as u64);
    'words: for word in words {
        hash = with_number(hash, u64::from(*word));
    }
    hash
}

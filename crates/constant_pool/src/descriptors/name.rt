//! Names of classes, fields and methods (JVMS 4.2).

ghost use Rattle.std.specs.Prelude.{◌≡◌, List, false};
ghost use Rattle.std.specs.List.{list_all};
ghost use Rattle.model.specs.Descriptors.{is_name_byte, is_unqualified, is_class_name};
ghost use Rattle.constant_pool.specs.descriptors.Scan.{joined};

fn is_name_byte(byte: u8) -> bool
    ensures { result ≡ is_name_byte byte }
{
    !matches!(byte, b'.' | b';' | b'[' | b'/')
}

fn are_name_bytes(name: &[u8]) -> bool
    ensures { result ≡ list_all is_name_byte name.now }
{
    name.iter().all(|&byte| is_name_byte(byte))
}

/// Whether the bytes are an unqualified name: some, and none of `.` `;` `[` `/` (JVMS 4.2.2).
pub fn is_unqualified_name(name: &[u8]) -> bool
    ensures { result ≡ is_unqualified name.now }
{
    !name.is_empty() && are_name_bytes(name)
}

#[tactic(auto, unfolding(crate::specs::descriptors::Scan::joined))]
fn are_joined(text: &[u8]) -> bool
    ensures { result ≡ joined false text.now }
{
    let mut rest = text;
    let mut is_begun = false;
    'bytes: while let [byte, after @ ..] = rest {
        if *byte == b'/' {
            if !is_begun {
                return false;
            }
            is_begun = false;
        } else {
            if !is_name_byte(*byte) {
                return false;
            }
            is_begun = true;
        }
        rest = after;
    }
    is_begun
}

/// Whether the bytes are the name of a class: unqualified names with a `/` between each two (JVMS 4.2.1).
pub fn is_class_name(text: &[u8]) -> bool
    ensures { result ≡ is_class_name text.now }
{
    are_joined(text)
}

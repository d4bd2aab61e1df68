//! Regions of texts.

ghost use Rattle.std.specs.Prelude.{◌≡◌, if◌then◌else◌, Some, None};
ghost use Rattle.std.specs.Option.{option_map};
ghost use Rattle.model.specs.StringMethods as model;

/// So many units from a place on, where they lie in the text; none where the count is negative.
fn region(text: &[u32], at: i32, count: i32) -> Option<&[u32]>
    ensures { option_map (λ r. r.now) result
        ≡ (if model.is_region text.now at count then Some (model.region text.now at count) else None) }
{
    if at < 0 || i64::from(at) + i64::from(count) > text.len() as i64 {
        return None;
    }
    if count <= 0 {
        return Some(&[]);
    }
    let first = at as usize;
    Some(&text[first..first + count as usize])
}

/// Whether so many units from a place on in one text are those from a place on in another: `regionMatches`. They
/// aren't where they don't lie in both texts.
pub fn regions_match(text: &[u32], at: i32, other: &[u32], from: i32, count: i32) -> bool
    ensures { result ≡ model.regions_match text.now at other.now from count }
{
    match (region(text, at, count), region(other, from, count)) {
        (Some(one), Some(two)) => one == two,
        _ => false,
    }
}

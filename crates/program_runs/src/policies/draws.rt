//! Numbers that are drawn.

ghost use Rattle.std.specs.Prelude.{◌≡◌, ◌≤◌, ◌<◌, ◌^◌};
ghost use Rattle.program_runs.specs.policies.Draws.{below as drawn_below, short_length as drawn_short, long_length as drawn_long};
ghost use Rattle.program_runs.specs.policies.Runs.{pick_of};

use rand_core::Rng;

/// A number below another one, by one word of 32 bits: the upper half of its product with that number. The word is
/// drawn also where there is but one such number.
pub(crate) fn below<R: Rng>(random: &mut R, bound: u32) -> u32
    requires { 1 ≤ bound }
    ensures drawn { (result, R.stream random.new) ≡ drawn_below bound (R.stream random.old) }
    ensures within { result < bound }
{
    let product = u64::from(random.next_u32()) * u64::from(bound);
    (product >> 32) as u32
}

/// A number below a count, where that is 2 at least; else 0, and nothing is drawn.
pub(crate) fn pick_below<R: Rng>(random: &mut R, count: u16) -> u16
    ensures { (result, R.stream random.new) ≡ pick_of count (R.stream random.old) }
{
    if count < 2 {
        return 0;
    }
    below(random, u32::from(count)) as u16
}

/// How many events a short turn has, which are 1 to 2^(n+1): one more than the product of the two halves of a word of
/// 64 bits, of which the upper n + 1 bits are taken. Where n is 0 it is one event, and nothing is drawn.
pub(crate) fn short_length<R: Rng>(random: &mut R, n: u32) -> u32
    requires { n < 7 }
    ensures drawn { (result, R.stream random.new) ≡ drawn_short n (R.stream random.old) }
    ensures some { 1 ≤ result }
{
    if n == 0 {
        return 1;
    }
    let word = random.next_u64();
    let product = (word >> 32) * (word & 0xffff_ffff);
    1 + (product >> (63 - n)) as u32
}

/// How many events a long turn has, which are 1 to 4,095: a power of 2 from 1 to 2,048 is drawn, and then a number
/// below it, that are added.
pub(crate) fn long_length<R: Rng>(random: &mut R) -> u32
    ensures drawn { (result, R.stream random.new) ≡ drawn_long (R.stream random.old) }
    ensures some { 1 ≤ result }
{
    let least = 1u32 << below(random, 12);
    least + below(random, least)
}

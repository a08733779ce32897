// Signed numbers: an i64 compared, taken apart into its sign and its size, or made of them, and sums that are asked to stay within a
// size.
#![tactic(auto)]

ghost use Rattle.std.specs.Prelude.{◌≡◌, min, nat_abs, ◌+ℤ◌, ◌-ℤ◌};
ghost use Rattle.std.specs.Int.Signed.{lt_z};
ghost use Rattle.signed.specs.Signed.{same_z, is_negative, largest, signed_of, within};

// The largest size that has both signs.
const LARGEST: u64 = i64::MAX as u64;

// Is a equal to b?
pub fn same(a: i64, b: i64) -> bool
    ensures { result ≡ same_z a b }
{
    a == b
}

// Is a less than b?
pub fn less(a: i64, b: i64) -> bool
    ensures { result ≡ lt_z a b }
{
    a < b
}

// Is z below 0?
pub fn is_negative(z: i64) -> bool
    ensures { result ≡ is_negative z }
{
    z < 0
}

// How far z is from 0.
pub fn size(z: i64) -> u64
    ensures { result ≡ nat_abs z }
{
    z.unsigned_abs()
}

// A size with its sign. A size that is too large for an i64 counts as the largest.
pub fn with_sign(negative: bool, size: u64) -> i64
    ensures { result ≡ signed_of negative (min size largest) }
{
    let held = size.min(LARGEST) as i64;
    if negative { -held } else { held }
}

// z, if its size is at most `most` and fits an i64 with either sign.
fn within(z: i64, most: u64) -> Option<i64>
    ensures { result ≡ within most z }
{
    (z.unsigned_abs() <= most.min(LARGEST)).then_some(z)
}

// a + b, if its size is at most `most` and fits an i64 with either sign.
pub fn plus(a: i64, b: i64, most: u64) -> Option<i64>
    ensures { result ≡ within most (a +ℤ b) }
{
    within(a.checked_add(b)?, most)
}

// a - b, if its size is at most `most` and fits an i64 with either sign.
pub fn minus(a: i64, b: i64, most: u64) -> Option<i64>
    ensures { result ≡ within most (a -ℤ b) }
{
    within(a.checked_sub(b)?, most)
}

// Number fields: what an integer or a counter value is worth, and what a decimal is worth as a whole number or in steps of 10^-12.
#![tactic(auto)]

ghost use Rattle.std.specs.Prelude.{◌≡◌, cond, ◌*◌, ◌/◌, ◌%◌, ◌^◌, ◌<◌, ◌≤◌, eqb, pos, ◌+ℤ◌};
ghost use Rattle.numeral.specs.Digits.{is_minus};
ghost use Rattle.numeral.specs.Integer.{in_range, integer_of, signed_as, counter_of};
ghost use Rattle.numeral.specs.Worth.{whole_of, nearest, rounded_of};
ghost use Rattle.numeral.specs.Inside.{shift_of, Held};

// The most digits of an integer field.
const DIGITS: usize = 10;

// How many steps of 10^-12 are 200,000.
const FARTHEST: u64 = 200_000_000_000_000_000;

// The powers of ten that a u64 holds, but for the last.
const POWERS: [u64; 19] = [
    1,
    10,
    100,
    1_000,
    10_000,
    100_000,
    1_000_000,
    10_000_000,
    100_000_000,
    1_000_000_000,
    10_000_000_000,
    100_000_000_000,
    1_000_000_000_000,
    10_000_000_000_000,
    100_000_000_000_000,
    1_000_000_000_000_000,
    10_000_000_000_000_000,
    100_000_000_000_000_000,
    1_000_000_000_000_000_000,
];

// A decimal as it is kept: mantissa times ten to the exponent.
#[derive(Clone, Copy, PartialEq, Eq)]
pub struct Decimal {
    pub mantissa: i64,
    pub exponent: i64,
}

// A power of ten by which a number goes up or down.
#[derive(Clone, Copy)]
enum Shift {
    Up(u64),
    Down(u64),
}

// Does the text begin with a minus?
pub fn is_minus(s: &[u8]) -> bool
    ensures { result ≡ is_minus s.now }
{
    match s.first() {
        Some(b) => *b == b'-',
        None => false,
    }
}

// A number, if it is in a range.
fn in_range(n: u64, low: u64, high: u64) -> Option<u64>
    ensures { result ≡ in_range low high n }
{
    (low <= n && n <= high).then_some(n)
}

// An integer field, 1 to 10 digits and nothing else, that is worth `low` to `high`.
pub fn read_integer(field: &[u8], low: u64, high: u64) -> Option<u64>
    ensures { result ≡ integer_of low high field.now }
{
    if field.is_empty() || DIGITS < field.len() {
        return None;
    }
    let mut v: u64 = 0;
    for b in field {
        if !b.is_ascii_digit() {
            return None;
        }
        v = v * 10 + u64::from(*b - b'0');
    }
    in_range(v, low, high)
}

// A size with its sign, where there is one.
fn signed_as(negative: bool, n: Option<u64>) -> Option<i64>
    requires { Held n }
    ensures { result ≡ signed_as negative n }
{
    Some(signed::with_sign(negative, n?))
}

// A counter value: an integer field with a minus first or none, from -most to most.
pub fn read_counter(field: &[u8], most: u64) -> Option<i64>
    ensures { result ≡ counter_of most field.now }
{
    if is_minus(field) {
        return signed_as(true, read_integer(&field[1..], 0, most));
    }
    signed_as(false, read_integer(field, 0, most))
}

// Ten to the power k.
fn power_of_ten(k: u64) -> u64
    requires { k ≤ 18 }
    ensures { result ≡ 10 ^ k }
{
    POWERS[k as usize]
}

// By which power of ten a number goes up or down whose exponent is e, counted in units of 10 to the -by.
fn shift_by(e: i64, by: u8) -> Shift
    ensures { result ≡ shift_of (e +ℤ pos by) }
{
    let far = e.unsigned_abs();
    let more = u64::from(by);
    if e < 0 {
        if far <= more {
            Shift::Up(more - far)
        } else {
            Shift::Down(far - more)
        }
    } else {
        Shift::Up(far + more)
    }
}

// v times ten to the power k, if it is in a range.
fn scale_up(v: u64, k: u64, low: u64, high: u64) -> Option<u64>
    requires { high < 10 ^ 19 }
    ensures { result ≡ in_range low high (v * 10 ^ k) }
{
    if v == 0 {
        return in_range(0, low, high);
    }
    if 18 < k {
        return None;
    }
    in_range(v.checked_mul(power_of_ten(k))?, low, high)
}

// v by ten to the power k, if that is whole and in a range.
fn scale_down(v: u64, k: u64, low: u64, high: u64) -> Option<u64>
    requires { v < 10 ^ 19 }
    ensures { result ≡ cond (eqb (v % 10 ^ k) 0) (in_range low high (v / 10 ^ k)) None }
{
    if v == 0 {
        return in_range(0, low, high);
    }
    if 18 < k {
        return None;
    }
    let p = power_of_ten(k);
    if v % p != 0 {
        return None;
    }
    in_range(v / p, low, high)
}

// v by ten to the power k, to the nearest whole number; half a step goes up.
fn round_down(v: u64, k: u64) -> u64
    requires { (1 ≤ k) × (v < 10 ^ 19) }
    ensures { result ≡ nearest v (10 ^ k) }
{
    if 19 < k {
        return 0;
    }
    (v / power_of_ten(k - 1) + 5) / 10
}

// A decimal times ten to the power `shift`, if that is a whole number from `low` to `high`.
pub fn whole_worth(d: Decimal, shift: u8, low: u32, high: u32) -> Option<u64>
    ensures { result ≡ whole_of d shift low high }
{
    if d.mantissa < 0 {
        return None;
    }
    let v = d.mantissa.unsigned_abs();
    match shift_by(d.exponent, shift) {
        Shift::Up(k) => scale_up(v, k, u64::from(low), u64::from(high)),
        Shift::Down(k) => scale_down(v, k, u64::from(low), u64::from(high)),
    }
}

// A decimal in steps of 10^-12, rounded, ties away from zero; none beyond 200,000.
pub fn rounded(d: Decimal) -> Option<i64>
    ensures { result ≡ rounded_of d }
{
    let v = d.mantissa.unsigned_abs();
    let size = match shift_by(d.exponent, 12) {
        Shift::Up(k) => scale_up(v, k, 0, FARTHEST),
        Shift::Down(k) => in_range(round_down(v, k), 0, FARTHEST),
    };
    signed_as(d.mantissa < 0, size)
}

// Decimal fields: what a decimal is worth, as it is kept; a number without its trailing zeros; whether two decimals are the same.
#![tactic(auto)]

ghost use Rattle.std.specs.Prelude.{◌≡◌, ◌+◌, ◌^◌, ◌<◌, ◌≤◌, length, drop};
ghost use Rattle.std.proofs.Math.IntN.{sub_ℕ};
ghost use Rattle.decimals.specs.Decimal.{mantissa_part, strip_from, decimal_of, same_decimal};
ghost use Rattle.decimals.specs.Inside.{sign_of, stop_of, gather_of, large, bare_of, mantissa_of, Fit, power_of, pair_of, pointed_of, body_of};

use numeral::Decimal;

// A number without its trailing zeros, and how many those were.
#[derive(Clone, Copy)]
pub struct Stripped {
    pub v: u64,
    pub zeros: u64,
}

// The most bytes of a decimal field.
const LONGEST: usize = 32;

// From here on a number has its 18 digits, and only zeros may follow.
const FULL: u64 = 100_000_000_000_000_000;

// What an exponent of 0 counts as.
const MIDDLE: u64 = 200;

// Digits gathered into a number of at most 18 digits, a count of zeros behind it, and where they stop: at a point, or at an e or the end.
#[derive(Clone, Copy)]
struct Gathered {
    v: u64,
    zeros: u64,
    stop: usize,
    pointed: bool,
}

// A mantissa without its trailing zeros, how many those were, how many digits stand behind the point, and where it ends.
#[derive(Clone, Copy)]
struct Mantissa {
    v: u64,
    zeros: u64,
    behind: u64,
    stop: usize,
}

// A sign in front: whether it is a minus, and how long it is, 1 or 0.
#[derive(Clone, Copy)]
struct Sign {
    minus: bool,
    len: usize,
}

// The sign in front.
fn sign_of(s: &[u8]) -> Sign
    ensures { result ≡ sign_of s.now }
{
    match s.first() {
        Some(b'-') => Sign {
            minus: true,
            len: 1,
        },
        Some(b'+') => Sign {
            minus: false,
            len: 1,
        },
        Some(_) => Sign {
            minus: false,
            len: 0,
        },
        None => Sign {
            minus: false,
            len: 0,
        },
    }
}

// Trailing zeros of v go over to z.
fn strip_from(v: u64, z: u64) -> Stripped
    requires { v + z < 2 ^ 64 }
    ensures { result ≡ strip_from v z }
{
    if v == 0 {
        return Stripped { v, zeros: z };
    }
    let mut w = v;
    let mut k = z;
    // The number itself says when its zeros end.
    while w % 10 == 0 {
        w /= 10;
        k += 1;
    }
    Stripped { v: w, zeros: k }
}

// A number without its trailing zeros, and how many those are; 0 has none.
pub fn strip(v: u64) -> Stripped
    ensures { result ≡ strip_from v 0 }
{
    strip_from(v, 0)
}

// What was gathered, v with some zeros, where the digits stop at the byte b, which stands at `stop`.
fn stop_at(b: u8, v: u64, zeros: u64, stop: usize) -> Option<Gathered>
    ensures { result ≡ stop_of b v zeros stop }
{
    match b {
        b'.' => Some(Gathered {
            v,
            zeros,
            stop,
            pointed: true,
        }),
        b'e' | b'E' => Some(Gathered {
            v,
            zeros,
            stop,
            pointed: false,
        }),
        _ => None,
    }
}

// Gathers the digits of s from `at` on behind v with z zeros.
fn gather(v: u64, z: u64, s: &[u8], at: usize) -> Option<Gathered>
    requires { (v < large) × (z ≤ at) × (at ≤ length s.now) }
    ensures { result ≡ gather_of v z at (drop at s.now) }
{
    let mut w = v;
    let mut k = z;
    for i in at..s.len() {
        let b = s[i];
        if !b.is_ascii_digit() {
            return stop_at(b, w, k, i);
        }
        if w < FULL {
            w = w * 10 + u64::from(b - b'0');
        } else if b == b'0' {
            k += 1;
        } else {
            return None;
        }
    }
    Some(Gathered {
        v: w,
        zeros: k,
        stop: s.len(),
        pointed: false,
    })
}

// The mantissa of n digits, worth v with z zeros, that has f digits behind the point and ends at `stop`.
fn bare(n: usize, v: u64, z: u64, f: usize, stop: usize) -> Option<Mantissa>
    requires { v + z < 2 ^ 64 }
    ensures { result ≡ bare_of n v z f stop }
{
    if n == 0 {
        return None;
    }
    let Stripped { v, zeros } = strip_from(v, z);
    Some(Mantissa {
        v,
        zeros,
        behind: f as u64,
        stop,
    })
}

// The mantissa in front of an e or the end: digits with at most one point.
fn mantissa_in(s: &[u8]) -> Option<Mantissa>
    requires { length s.now ≤ 32 }
    ensures { (result ≡ mantissa_of (mantissa_part s.now)) × Fit result }
{
    let front = gather(0, 0, s, 0)?;
    if !front.pointed {
        return bare(front.stop, front.v, front.zeros, 0, front.stop);
    }
    let whole = gather(front.v, front.zeros, s, front.stop + 1)?;
    if whole.pointed {
        return None;
    }
    let n = whole.stop - 1;
    bare(n, whole.v, whole.zeros, n - front.stop, whole.stop)
}

// The exponent, counted from 200 on: nothing, or e, a sign or none, and one or two digits.
fn power_in(s: &[u8]) -> Option<u64>
    ensures { result ≡ power_of s.now }
{
    if s.is_empty() {
        return Some(MIDDLE);
    }
    let t = &s[1..];
    let sign = sign_of(t);
    let d = &t[sign.len..];
    if 2 < d.len() {
        return None;
    }
    let n = numeral::read_integer(d, 0, 99)?;
    Some(if sign.minus { MIDDLE - n } else { MIDDLE + n })
}

// A number counted from 200 on, as it is: 200 is 0, 199 is -1.
fn from_200(s: u64) -> i64
    requires { s ≤ 299 }
    ensures { result ≡ sub_ℕ s 200 }
{
    s as i64 - 200
}

// A sign, a mantissa and an exponent counted from 200 on, as a decimal.
fn pair(negative: bool, v: u64, s: u64) -> Option<Decimal>
    requires { v < large }
    ensures { result ≡ pair_of negative v s }
{
    if v == 0 {
        return Some(Decimal {
            mantissa: 0,
            exponent: 0,
        });
    }
    if s < 101 || 299 < s {
        return None;
    }
    Some(Decimal {
        mantissa: signed::with_sign(negative, v),
        exponent: from_200(s),
    })
}

// A number of which f digits stand behind the point, with no exponent, as a decimal.
pub fn pointed(negative: bool, v: u64, f: usize) -> Option<Decimal>
    requires { (v < large) × (f ≤ 32) }
    ensures { result ≡ pointed_of negative v f }
{
    let t = strip_from(v, 0);
    pair(negative, t.v, MIDDLE + t.zeros - f as u64)
}

// What stands behind the sign.
fn body(negative: bool, s: &[u8]) -> Option<Decimal>
    requires { length s.now ≤ 32 }
    ensures { result ≡ body_of negative s.now }
{
    let m = mantissa_in(s)?;
    let n = power_in(&s[m.stop..])?;
    pair(negative, m.v, n + m.zeros - m.behind)
}

// A decimal field of at most 32 bytes.
pub fn read_decimal(field: &[u8]) -> Option<Decimal>
    ensures { result ≡ decimal_of field.now }
{
    if LONGEST < field.len() {
        return None;
    }
    let sign = sign_of(field);
    body(sign.minus, &field[sign.len..])
}

// Are two decimals the same? Of kept pairs, this is equality of their values.
pub fn same_decimal(a: Decimal, b: Decimal) -> bool
    ensures { result ≡ same_decimal a b }
{
    a == b
}

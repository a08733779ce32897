// Numbers written out over a lent output: what does not fit is dropped, and counting goes on.
#![tactic(auto)]

ghost use Rattle.std.specs.Prelude.{◌≡◌, ◌++◌, ◌<◌, pos, negsuc, ◌+ℤ◌};
ghost use Rattle.output.specs.Over.{Put};
ghost use Rattle.print.specs.Printed.{digits_of, number_text, signed_text, power_text, decimal_text, sample_text};

use decimals::Stripped;
use numeral::Decimal;

// Writes n in decimal digits, those of a tenth of it first: there is no memory in which to turn them round.
pub fn put_integer(out: &mut [u8], at: usize, n: u64) -> usize
    ensures { Put out.old at (digits_of n) result out.new }
{
    if n < 10 {
        return output::put_byte(out, at, b'0' + n as u8);
    }
    let next = put_integer(out, at, n / 10);
    output::put_byte(out, next, b'0' + (n % 10) as u8)
}

// Writes a size with its sign.
fn put_number(out: &mut [u8], at: usize, negative: bool, size: u64) -> usize
    ensures { Put out.old at (number_text negative size) result out.new }
{
    if negative {
        let next = output::put_byte(out, at, b'-');
        return put_integer(out, next, size);
    }
    put_integer(out, at, size)
}

// Writes a signed number.
pub fn put_signed(out: &mut [u8], at: usize, z: i64) -> usize
    ensures { Put out.old at (signed_text z) result out.new }
{
    put_number(out, at, z < 0, z.unsigned_abs())
}

// Writes a size with its sign, then an exponent that is not 0.
fn put_scaled(out: &mut [u8], at: usize, negative: bool, size: u64, e: i64) -> usize
    ensures { Put out.old at (number_text negative size ++ power_text e) result out.new }
{
    let behind = put_number(out, at, negative, size);
    if e == 0 {
        return behind;
    }
    let next = output::put_byte(out, behind, b'e');
    put_signed(out, next, e)
}

// Writes a decimal: its mantissa, then `e` and its exponent if that is not 0.
pub fn put_decimal(out: &mut [u8], at: usize, d: Decimal) -> usize
    ensures { Put out.old at (decimal_text d) result out.new }
{
    let Decimal { mantissa, exponent } = d;
    put_scaled(out, at, mantissa < 0, mantissa.unsigned_abs(), exponent)
}

// The exponent of a number of steps of 10^-12 that has so many trailing zeros.
fn sample_power(zeros: u64) -> i64
    requires { zeros < 20 }
    ensures { result ≡ negsuc 11 +ℤ pos zeros }
{
    zeros as i64 - 12
}

// Writes a sample, given in steps of 10^-12, as a decimal.
pub fn put_sample(out: &mut [u8], at: usize, steps: i64) -> usize
    ensures { Put out.old at (sample_text steps) result out.new }
{
    let size = steps.unsigned_abs();
    if size == 0 {
        return output::put_byte(out, at, b'0');
    }
    let Stripped { v, zeros } = decimals::strip(size);
    put_scaled(out, at, steps < 0, v, sample_power(zeros))
}

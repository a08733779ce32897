// UNSAYABLE: whether a file's rows and rasters can be said in a target edition.
#![tactic(auto, using(signed::proofs::Sign::same_bits, signed::proofs::Sign::same_number), unfolding(crate::specs::Sayable::is_kind, crate::specs::Sayable::has_number, crate::specs::Sayable::nanos_at, crate::specs::Sayable::is_unknown, crate::specs::Sayable::has_time, crate::specs::Sayable::is_between, crate::specs::Sayable::off_micros, crate::specs::Sayable::names_once, crate::specs::Sayable::differ, crate::specs::Sayable::not_steps, crate::specs::Sayable::off_raster, crate::specs::Sayable::unsaid13, crate::specs::Sayable::unsaid14, crate::specs::Sayable::unsaid_in, crate::specs::Sayable::unsaid, crate::specs::Sayable::any_unsaid, crate::specs::Sayable::differ_in, crate::specs::Sayable::unsayable))]

ghost use Rattle.std.specs.Prelude.{◌≡◌};
ghost use Rattle.sayable.specs.Sayable.{is_kind, has_number, nanos_at, is_unknown, has_time, off_micros, names_once, off_raster, unsaid13, unsaid14, unsaid, any_unsaid, differ, unsayable};

use shape::Edition;
use unit::{Nanos, Rasters};

// The most steps of its raster that 1.4 can say of a block.
const MOST_STEPS: u64 = 1_000_000_000;

// Is row k of a kind?
pub fn is_kind(rows: &[i64], k: usize, kind: i64) -> bool
    ensures { result ≡ is_kind rows.now k kind }
{
    tables::number(rows, k, 0) == kind
}

// Is number c of row k, of a kind, another than 0?
fn has_number(rows: &[i64], k: usize, kind: i64, c: usize) -> bool
    ensures { result ≡ has_number rows.now k kind c }
{
    is_kind(rows, k, kind) && tables::number(rows, k, c) != 0
}

// Does row k declare an unknown extension?
fn is_unknown(rows: &[i64], k: usize) -> bool
    ensures { result ≡ is_unknown rows.now k }
{
    is_kind(rows, k, 8) && tables::number(rows, k, 2) == 0
}

// Has row k a time shape, as RF or gradient?
fn has_time(rows: &[i64], k: usize) -> bool
    ensures { result ≡ has_time rows.now k }
{
    has_number(rows, k, 2, 6) || has_number(rows, k, 3, 5)
}

// Does row k, a label, name ONCE?
fn names_once(rows: &[i64], k: usize) -> bool
    ensures { result ≡ names_once rows.now k }
{
    is_kind(rows, k, 10) && tables::number(rows, k, 4) == 13
}

// How long block k lasts, as its row says.
pub fn nanos_at(rows: &[i64], k: usize) -> Nanos
    ensures { result.0 ≡ nanos_at rows.now k }
{
    Nanos(tables::number(rows, k, 9).unsigned_abs())
}

// Is row k a block that does not last whole microseconds?
fn is_off_micros(rows: &[i64], k: usize) -> bool
    ensures { result ≡ off_micros rows.now k }
{
    is_kind(rows, k, 1) && nanos_at(rows, k).micros().is_none()
}

// Is row k a block that does not last 0 to 10^9 whole steps of the raster of blocks?
fn is_off_raster(rasters: Rasters, rows: &[i64], k: usize) -> bool
    ensures { result ≡ off_raster rasters rows.now k }
{
    is_kind(rows, k, 1)
        && nanos_at(rows, k)
            .steps(rasters.block)
            .is_none_or(|count| MOST_STEPS < count.0)
}

// Is there something in row k that 1.3 cannot say?
fn is_unsaid_13(rows: &[i64], k: usize) -> bool
    ensures { result ≡ unsaid13 rows.now k }
{
    has_time(rows, k) || is_off_micros(rows, k) || names_once(rows, k)
}

// Is there something in row k that 1.4 cannot say?
fn is_unsaid_14(rasters: Rasters, rows: &[i64], k: usize) -> bool
    ensures { result ≡ unsaid14 rasters rows.now k }
{
    events::misaligned(rasters, rows, k) || is_off_raster(rasters, rows, k)
}

// Is there something in row k that the target cannot say?
pub fn is_unsaid(target: Edition, rasters: Rasters, rows: &[i64], k: usize) -> bool
    ensures { result ≡ unsaid target rasters rows.now k }
{
    is_unknown(rows, k)
        || match target {
            Edition::V13 => is_unsaid_13(rows, k),
            Edition::V14 => is_unsaid_14(rasters, rows, k),
        }
}

// Is there something in one of n rows that the target cannot say?
fn has_unsaid(target: Edition, rasters: Rasters, rows: &[i64], n: usize) -> bool
    ensures { result ≡ any_unsaid target rasters rows.now n }
{
    (0..n).any(|k| is_unsaid(target, rasters, rows, k))
}

// Do the rasters of RF and gradients differ?
fn differ(rasters: Rasters, site: Rasters) -> bool
    ensures { result ≡ differ rasters site }
{
    rasters.gradient != site.gradient || rasters.rf != site.rf
}

// UNSAYABLE: can n rows with their rasters not be said in the target, with a site's rasters?
pub fn is_unsayable(
    target: Edition,
    rasters: Rasters,
    site: Rasters,
    rows: &[i64],
    n: usize,
) -> bool
    ensures { result ≡ unsayable target rasters site rows.now n }
{
    has_unsaid(target, rasters, rows, n)
        || match target {
            Edition::V13 => differ(rasters, site),
            Edition::V14 => false,
        }
}

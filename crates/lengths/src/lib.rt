// How long the event of one row lasts. All times are in the units of `unit`.
#![tactic(auto)]

ghost use Rattle.std.specs.Prelude.{◌≡◌};
ghost use Rattle.unit.specs.Time.{capped};
ghost use Rattle.lengths.specs.Lengths.{micros_at, last_time, steps_at, shaped_length, trap_length, adc_length, length_at};

use finding::Rows;
use tables::{ADC, DELAY, GRADIENT, ONE, RF, TRAP, TRIGGER};
use unit::{Micros, Nanos, RasterCount, Rasters};

// Number c of row k, which is in microseconds.
fn micros(rows: Rows, k: usize, c: usize) -> Nanos
    ensures { result.0 ≡ capped (micros_at rows.entry.numbers.now k c) }
{
    Micros(rows.number(k, c).unsigned_abs()).nanos()
}

// The last of the times of a shape, as a number of steps.
fn last_time(times: &[i64]) -> u64
    ensures { result ≡ last_time times.now }
{
    times.last().map_or(0, |z| z.unsigned_abs() / ONE)
}

// The steps that row k takes, whose time shape is number c: its last time, or as many as its amplitude has samples.
fn steps(rows: Rows, samples: &[i64], k: usize, c: usize) -> RasterCount
    ensures { result.0 ≡ steps_at rows.entry.numbers.now rows.entry.n samples.now k c }
{
    let time = rows.number(k, c);
    if time == 0 {
        let amplitude = rows.samples_of(samples, rows.number(k, 4));
        return RasterCount(amplitude.len() as u64);
    }
    RasterCount(last_time(rows.samples_of(samples, time)))
}

// The length of an RF event or a gradient, whose time shape is number c and whose delay is another.
fn shaped_length(
    rows: Rows,
    samples: &[i64],
    k: usize,
    c: usize,
    delay: usize,
    raster: Nanos,
) -> Nanos
    ensures { result.0 ≡ capped (shaped_length rows.entry.numbers.now rows.entry.n samples.now k c delay raster.0) }
{
    let played = steps(rows, samples, k, c).nanos(raster);
    micros(rows, k, delay).plus(played)
}

// The length of a trap.
fn trap_length(rows: Rows, k: usize) -> Nanos
    ensures { result.0 ≡ capped (trap_length rows.entry.numbers.now k) }
{
    let start = micros(rows, k, 7).plus(micros(rows, k, 4));
    let end = micros(rows, k, 5).plus(micros(rows, k, 6));
    start.plus(end)
}

// The length of an ADC event.
fn adc_length(rows: Rows, k: usize) -> Nanos
    ensures { result.0 ≡ capped (adc_length rows.entry.numbers.now k) }
{
    let count = RasterCount(rows.number(k, 2).unsigned_abs());
    let dwell = Nanos(rows.number(k, 3).unsigned_abs());
    micros(rows, k, 4).plus(count.nanos(dwell))
}

// The length of the event of row k.
pub fn row_length(rasters: Rasters, rows: Rows, samples: &[i64], k: usize) -> Nanos
    ensures { result.0 ≡ capped (length_at rasters rows.entry.numbers.now rows.entry.n samples.now k) }
{
    match rows.number(k, 0) {
        RF => shaped_length(rows, samples, k, 6, 7, rasters.rf),
        GRADIENT => shaped_length(rows, samples, k, 5, 6, rasters.gradient),
        TRAP => trap_length(rows, k),
        ADC => adc_length(rows, k),
        DELAY => micros(rows, k, 2),
        TRIGGER => micros(rows, k, 4).plus(micros(rows, k, 5)),
        _ => Nanos(0),
    }
}

// What is asked of an event by itself: USE, that its shapes fit it, and ALIGN, that its times lie on the rasters.
#![tactic(auto)]

ghost use Rattle.std.specs.Prelude.{◌≡◌, negsuc};
ghost use Rattle.tables.specs.Tables.{first_such, samples_at, samples_of};
ghost use Rattle.events.specs.Use.{all_unit, follows_of, rises_from, time_fits, shaped_fits, rf_fits, misfits_at};
ghost use Rattle.events.specs.Inside.{samples_fit, Known};
ghost use Rattle.events.specs.Align.{is_off, micros_off, trap_off, misaligned_at};

use finding::Rows;
use tables::{ADC, GRADIENT, ONE, RF, SHAPE, TRAP};
use unit::{Micros, Nanos, Rasters};

// How far behind the first shape a row may stand for what is found of it to be marked.
const FAR: usize = 1_000_000;

// What is asked of the samples of a shape: that they lie in -1 to 1, or that they are times which rise.
#[derive(Clone, Copy)]
enum Asked {
    Unit,
    Rising,
}

// Do all samples lie in -1 to 1?
fn within_one(samples: &[i64]) -> bool
    ensures { result ≡ all_unit samples.now }
{
    samples.iter().all(|z| z.unsigned_abs() <= ONE)
}

// May a time stand behind another: is it later, and whole?
fn follows(last: i64, z: i64) -> bool
    ensures { result ≡ follows_of last z }
{
    last < z && z.unsigned_abs() % ONE == 0
}

// Are times whole, not below 0, and each later than the one before?
fn rises(times: &[i64]) -> bool
    ensures { result ≡ rises_from (negsuc 0) times.now }
{
    let mut last = -1;
    for z in times {
        if !follows(last, *z) {
            return false;
        }
        last = *z;
    }
    true
}

// Are samples as is asked?
fn samples_fit(asked: Asked, samples: &[i64]) -> bool
    ensures { result ≡ samples_fit asked samples.now }
{
    match asked {
        Asked::Unit => within_one(samples),
        Asked::Rising => rises(samples),
    }
}

// Are the samples of the shape of row k as is asked? That they are is marked, so that no shape is looked at again for each event that has it.
fn shape_fits(
    asked: Asked,
    rows: Rows,
    samples: &[i64],
    first: usize,
    marks: &mut [u8],
    k: usize,
) -> bool
    requires { Known rows.numbers.now samples.now first marks.old }
    ensures value { result ≡ samples_fit asked (samples_at rows.entry.numbers.now k samples.now) }
    ensures known { Known rows.entry.numbers.now samples.now first marks.new }
{
    let part = tables::samples_at(rows.numbers, k, samples);
    if k < first || FAR < k - first {
        return samples_fit(asked, part);
    }
    let number = (k - first) * 2 + asked as usize;
    if marks::is_marked(marks, number) {
        return true;
    }
    if samples_fit(asked, part) {
        marks::mark(marks, number);
        return true;
    }
    false
}

// Are the samples of the shape with this ID as is asked? Those of no shape are.
fn named_fits(
    asked: Asked,
    rows: Rows,
    samples: &[i64],
    first: usize,
    marks: &mut [u8],
    id: i64,
) -> bool
    requires { Known rows.numbers.now samples.now first marks.old }
    ensures value { result ≡ samples_fit asked (samples_of rows.entry.numbers.now rows.entry.n samples.now id) }
    ensures known_2 { Known rows.entry.numbers.now samples.now first marks.new }
{
    let k = rows.met_row(SHAPE, id);
    if k < rows.n {
        return shape_fits(asked, rows, samples, first, marks, k);
    }
    true
}

// Does a time shape fit so many samples? None, which is 0, does.
fn time_fits(
    rows: Rows,
    samples: &[i64],
    first: usize,
    marks: &mut [u8],
    id: i64,
    count: usize,
) -> bool
    requires { Known rows.numbers.now samples.now first marks.old }
    ensures value { result ≡ time_fits rows.entry.numbers.now rows.entry.n samples.now id count }
    ensures known_2 { Known rows.entry.numbers.now samples.now first marks.new }
{
    if id == 0 {
        return true;
    }
    if rows.samples_of(samples, id).len() != count {
        return false;
    }
    named_fits(Asked::Rising, rows, samples, first, marks, id)
}

// Do the amplitude of row k and its time shape, which is number c, fit?
fn shaped_fits(
    rows: Rows,
    samples: &[i64],
    first: usize,
    marks: &mut [u8],
    k: usize,
    c: usize,
) -> bool
    requires { Known rows.numbers.now samples.now first marks.old }
    ensures value { result ≡ shaped_fits rows.entry.numbers.now rows.entry.n samples.now k c }
    ensures known_2 { Known rows.entry.numbers.now samples.now first marks.new }
{
    let id = rows.number(k, 4);
    if !named_fits(Asked::Unit, rows, samples, first, marks, id) {
        return false;
    }
    let count = rows.samples_of(samples, id).len();
    time_fits(rows, samples, first, marks, rows.number(k, c), count)
}

// Do the three shapes of an RF event fit?
fn rf_fits(rows: Rows, samples: &[i64], first: usize, marks: &mut [u8], k: usize) -> bool
    requires { Known rows.numbers.now samples.now first marks.old }
    ensures value { result ≡ rf_fits rows.entry.numbers.now rows.entry.n samples.now k }
    ensures known_2 { Known rows.entry.numbers.now samples.now first marks.new }
{
    let magnitude = rows.samples_of(samples, rows.number(k, 4));
    let phase = rows.samples_of(samples, rows.number(k, 5));
    if magnitude.len() != phase.len() {
        return false;
    }
    shaped_fits(rows, samples, first, marks, k, 6)
}

// Is row k an event whose shapes do not fit it? What is marked of shapes, from the first one's row on, is not looked at again.
fn is_unfit(rows: Rows, samples: &[i64], first: usize, marks: &mut [u8], k: usize) -> bool
    requires { Known rows.numbers.now samples.now first marks.old }
    ensures value { result ≡ misfits_at rows.entry.numbers.now rows.entry.n samples.now k }
    ensures known_2 { Known rows.entry.numbers.now samples.now first marks.new }
{
    match rows.number(k, 0) {
        RF => !rf_fits(rows, samples, first, marks, k),
        GRADIENT => !shaped_fits(rows, samples, first, marks, k, 5),
        _ => false,
    }
}

// The same with nothing marked.
pub fn misfits(rows: Rows, samples: &[i64], k: usize) -> bool
    ensures { result ≡ misfits_at rows.entry.numbers.now rows.entry.n samples.now k }
{
    let mut marks = [0u8; 1];
    is_unfit(rows, samples, rows.n, &mut marks, k)
}

// The first of the shapes that stand at the end of n rows; n if none does.
fn last_shapes(rows: Rows) -> usize {
    for k in (0..rows.n).rev() {
        if rows.number(k, 0) != SHAPE {
            return k + 1;
        }
    }
    0
}

// The first of n rows that is a shape; n if none is. Shapes stand last in most files.
fn first_shape(rows: Rows) -> usize {
    let last = last_shapes(rows);
    if last < rows.n {
        return last;
    }
    (0..rows.n)
        .find(|k| rows.number(*k, 0) == SHAPE)
        .unwrap_or(rows.n)
}

// The first of n rows that is an event whose shapes do not fit it, with what is marked of shapes; n if none is.
fn first_unfit(rows: Rows, samples: &[i64], first: usize, marks: &mut [u8]) -> usize
    requires { Known rows.numbers.now samples.now first marks.old }
    ensures { result ≡ first_such (misfits_at rows.entry.numbers.now rows.entry.n samples.now) 0 rows.entry.n }
{
    for k in 0..rows.n {
        if is_unfit(rows, samples, first, marks, k) {
            return k;
        }
    }
    rows.n
}

// The same with nothing marked at first. Each shape is looked at once, however many events have it.
pub fn first_misfit(rows: Rows, samples: &[i64]) -> usize
    ensures { result ≡ first_such (misfits_at rows.entry.numbers.now rows.entry.n samples.now) 0 rows.entry.n }
{
    let mut marks = [0u8; 163840];
    first_unfit(rows, samples, first_shape(rows), &mut marks)
}

// Is a time off a raster?
fn off(time: Nanos, raster: Nanos) -> bool
    ensures { result ≡ is_off time.0 raster.0 }
{
    time.steps(raster).is_none()
}

// Is number c of row k, in microseconds, off a raster?
fn micros_off(rows: &[i64], k: usize, c: usize, raster: Nanos) -> bool
    ensures { result ≡ micros_off rows.now k raster.0 c }
{
    let time = Micros(tables::number(rows, k, c).unsigned_abs());
    off(time.nanos(), raster)
}

// Is one of the four times of a trap off a raster?
fn trap_off(rows: &[i64], k: usize, raster: Nanos) -> bool
    ensures { result ≡ trap_off rows.now k raster.0 }
{
    micros_off(rows, k, 4, raster)
        || micros_off(rows, k, 5, raster)
        || micros_off(rows, k, 6, raster)
        || micros_off(rows, k, 7, raster)
}

// Is row k an event of which a time is off its raster?
pub fn misaligned(rasters: Rasters, rows: &[i64], k: usize) -> bool
    ensures { result ≡ misaligned_at rasters rows.now k }
{
    match tables::number(rows, k, 0) {
        RF => micros_off(rows, k, 7, rasters.rf),
        GRADIENT => micros_off(rows, k, 6, rasters.gradient),
        TRAP => trap_off(rows, k, rasters.gradient),
        ADC => {
            let dwell = Nanos(tables::number(rows, k, 3).unsigned_abs());
            off(dwell, rasters.adc)
        }
        _ => false,
    }
}

// Shapes: samples written as the stored lines of one, in the form its edition has.
#![tactic(auto)]

ghost use Rattle.std.specs.Prelude.{◌≡◌, [], ◌∷◌, true, ◌-◌, ◌<◌, length};
ghost use Rattle.output.specs.Over.{Put, cleared_from};
ghost use Rattle.print.specs.Printed.{sample_text};
ghost use Rattle.shape_text.specs.Written.{is_plain_text, ended_lines, run_lines, plain_lines, packed_lines, text_of, all_within, stored_text, is_writable, number_of, length_of, Writing};
ghost use Rattle.shape_text.specs.Inside.{step_at, RunAt};

use shape::Edition;

// The largest sample, 100,000 in steps of 10^-12.
const FARTHEST: u64 = 100_000_000_000_000_000;

// The most samples of a shape.
const MOST: usize = 1_000_000;

// Why samples are not written: the refusals SHAPE and OUTPUT.
#[derive(Clone, Copy, PartialEq, Eq)]
pub enum Unwritten {
    Shape,
    Output,
}

// What writing answers: the length of the text, or why there is none.
pub type Written = Result<usize, Unwritten>;

// The paper's number of what writing answers.
pub fn number_of(written: Written) -> u64
    ensures { result ≡ number_of written }
{
    match written {
        Ok(_) => 0,
        Err(Unwritten::Shape) => 11,
        Err(Unwritten::Output) => 19,
    }
}

// How long the text is that writing answers.
pub fn length_of(written: Written) -> usize
    ensures { result ≡ length_of written }
{
    written.unwrap_or(0)
}

// Is every sample within ±100,000?
fn all_within(samples: &[i64]) -> bool
    ensures { result ≡ all_within samples.now }
{
    samples.iter().all(|z| z.unsigned_abs() <= FARTHEST)
}

// May these samples be written?
fn is_writable(samples: &[i64]) -> bool
    ensures { result ≡ is_writable samples.now }
{
    !samples.is_empty() && samples.len() <= MOST && all_within(samples)
}

// How far the sample at i is from the one before it; the first from 0.
fn step(samples: &[i64], i: usize) -> i64
    requires { (all_within samples.now ≡ true) × (i < length samples.now) }
    ensures { result ≡ step_at samples.now i }
{
    let z = samples[i];
    if i == 0 {
        return z;
    }
    signed::minus(z, samples[i - 1], 2 * FARTHEST).unwrap_or(0)
}

// The place behind the longest run of equal differences that starts at i.
fn run_end(samples: &[i64], i: usize) -> usize
    requires { (all_within samples.now ≡ true) × (i < length samples.now) }
    ensures { RunAt samples.now i result }
{
    let d = step(samples, i);
    for j in i + 1..samples.len() {
        if step(samples, j) != d {
            return j;
        }
    }
    samples.len()
}

// How many values the runs are written as: one for a value that stands alone, three for a run.
fn packed_count(samples: &[i64]) -> usize
    requires { all_within samples.now ≡ true }
    ensures { result ≡ length (packed_lines samples.now) }
{
    let mut i = 0;
    let mut n = 0;
    // Each run says itself where the next one starts.
    while i < samples.len() {
        let end = run_end(samples, i);
        n += if end - i == 1 { 1 } else { 3 };
        i = end;
    }
    n
}

// Are the samples written as they are?
fn is_plain_text(edition: Edition, packed: usize, plain: usize) -> bool
    ensures { result ≡ is_plain_text edition packed plain }
{
    edition == Edition::V14 && plain <= packed
}

// Writes a value on a line of its own.
fn put_value(out: &mut [u8], at: usize, z: i64) -> usize
    ensures { Put out.old at (ended_lines (sample_text z ∷ [])) result out.new }
{
    let next = print::put_sample(out, at, z);
    output::put_byte(out, next, b'\n')
}

// Writes a run of n equal differences: the value, and for n of 2 and more the value again and n - 2.
fn put_run(out: &mut [u8], at: usize, d: i64, n: usize) -> usize
    requires { 0 < n }
    ensures { Put out.old at (ended_lines (run_lines d (n - 1))) result out.new }
{
    let first = put_value(out, at, d);
    if n == 1 {
        return first;
    }
    let second = put_value(out, first, d);
    let count = print::put_integer(out, second, (n - 2) as u64);
    output::put_byte(out, count, b'\n')
}

// Writes every run of differences.
fn put_packed(out: &mut [u8], at: usize, samples: &[i64]) -> usize
    requires { all_within samples.now ≡ true }
    ensures { Put out.old at (ended_lines (packed_lines samples.now)) result out.new }
{
    let mut place = at;
    let mut i = 0;
    // Each run says itself where the next one starts.
    while i < samples.len() {
        let end = run_end(samples, i);
        place = put_run(out, place, step(samples, i), end - i);
        i = end;
    }
    place
}

// Writes every sample as it is.
fn put_plain(out: &mut [u8], at: usize, samples: &[i64]) -> usize
    ensures { Put out.old at (ended_lines (plain_lines samples.now)) result out.new }
{
    let mut place = at;
    for z in samples {
        place = put_value(out, place, *z);
    }
    place
}

// Writes the samples in the form that the edition has for them.
fn put_shape(out: &mut [u8], at: usize, samples: &[i64], edition: Edition) -> usize
    requires { all_within samples.now ≡ true }
    ensures { Put out.old at (text_of edition samples.now) result out.new }
{
    if is_plain_text(edition, packed_count(samples), samples.len()) {
        return put_plain(out, at, samples);
    }
    put_packed(out, at, samples)
}

// Writes samples in the form that the edition has for them; nothing where one is beyond ±100,000.
pub fn put_stored(out: &mut [u8], at: usize, samples: &[i64], edition: Edition) -> usize
    ensures { Put out.old at (stored_text edition samples.now) result out.new }
{
    if all_within(samples) {
        return put_shape(out, at, samples, edition);
    }
    at
}

// Writes samples, given in steps of 10^-12, as stored lines. The lent output holds the text and then zeros; on a refusal, zeros.
pub fn write(samples: &[i64], edition: Edition, out: &mut [u8]) -> Written
    ensures { Writing edition samples.now out.old result out.new }
{
    if !is_writable(samples) {
        output::clear_bytes(out, 0);
        return Err(Unwritten::Shape);
    }
    let length = put_shape(out, 0, samples, edition);
    if out.len() < length {
        output::clear_bytes(out, 0);
        return Err(Unwritten::Output);
    }
    if 16777216 < length {
        output::clear_bytes(out, 0);
        return Err(Unwritten::Output);
    }
    output::clear_bytes(out, length);
    Ok(length)
}

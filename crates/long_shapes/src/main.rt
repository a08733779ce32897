// Expands shapes of up to a million samples, and writes what expanding answers: however long a shape is, the stack holds.
// The table lent for a million samples is short, so the answer there is ROOM, which comes only after a good expansion.
#![tactic(auto)]

use shape::{Edition, Expanded};

// The descriptor of standard output.
const STDOUT_FILENO: i32 = 1;

// Four values whose sum is zero. No two neighbours are equal, also where they are repeated.
const VALUES: [u8; 9] = *b"1\n0\n-1\n0\n";

// Fills a text with the four values, over and over.
fn fill(text: &mut [u8]) {
    for (i, b) in text.iter_mut().enumerate() {
        *b = VALUES[i % VALUES.len()];
    }
}

// How many samples are not zero.
fn count_nonzero(samples: &[i64]) -> usize {
    samples.iter().filter(|z| **z != 0).count()
}

// Writes a number under its name.
fn put_count(out: &mut [u8], at: usize, name: &[u8], n: u64) -> usize {
    let next = output::put_bytes(out, at, name);
    print::put_integer(out, next, n)
}

// Writes the line of an answer.
fn show(e: Expanded) {
    let mut out = [0u8; 64];
    let a = put_count(&mut out, 0, b"answer ", shape::number_of(e));
    let b = put_count(&mut out, a, b" used ", shape::used_of(e) as u64);
    let c = output::put_byte(&mut out, b, b'\n');
    io::write_all(STDOUT_FILENO, output::front(&out, c));
}

// The sample at a place; 0 if there is none.
fn sample_at(samples: &[i64], i: usize) -> i64 {
    samples.get(i).copied().unwrap_or(0)
}

// Writes a sample under its name.
fn put_sample(out: &mut [u8], at: usize, name: &[u8], z: i64) -> usize {
    let next = output::put_bytes(out, at, name);
    print::put_signed(out, next, z)
}

// Writes the first and the last of four hundred thousand samples, and how many of them are not zero.
fn show_samples(samples: &[i64]) {
    let mut out = [0u8; 128];
    let a = put_sample(&mut out, 0, b"first ", sample_at(samples, 0));
    let b = put_sample(&mut out, a, b" last ", sample_at(samples, 399999));
    let c = put_count(&mut out, b, b" nonzero ", count_nonzero(samples) as u64);
    let d = output::put_byte(&mut out, c, b'\n');
    io::write_all(STDOUT_FILENO, output::front(&out, d));
}

// Expands a million stored values: run-length in 1.3, plain in 1.4, and one too many in 1.3.
fn expand_million(stored: &mut [u8], samples: &mut [i64]) {
    fill(stored);
    show(expanding::expand(stored, 1000000, Edition::V13, samples));
    show(expanding::expand(stored, 1000000, Edition::V14, samples));
    show(expanding::expand(stored, 999999, Edition::V13, samples));
}

// Lends the two arrays as slices.
fn lend_million(stored: &mut [u8; 2250000], samples: &mut [i64; 1000]) {
    expand_million(stored, samples);
}

// A million stored values, with room for a thousand samples.
fn million_values() {
    let mut stored = [0u8; 2250000];
    let mut samples = [7i64; 1000];
    lend_million(&mut stored, &mut samples);
}

// Expands one run of a million samples.
fn expand_repeats(stored: &[u8], samples: &mut [i64]) {
    show(expanding::expand(stored, 1000000, Edition::V13, samples));
    show(expanding::expand(stored, 1000000, Edition::V14, samples));
}

// A million repeats, with room for a thousand samples.
fn million_repeats() {
    let mut samples = [7i64; 1000];
    expand_repeats(b"0\n0\n999998\n", &mut samples);
}

// Expands four hundred thousand stored values, and tells what their samples are.
fn expand_whole(stored: &mut [u8], samples: &mut [i64]) {
    fill(stored);
    show(expanding::expand(stored, 400000, Edition::V13, samples));
    show_samples(samples);
}

// Lends the two arrays as slices.
fn lend_whole(stored: &mut [u8; 900000], samples: &mut [i64; 400000]) {
    expand_whole(stored, samples);
}

// Four hundred thousand stored values, with room for all their samples.
fn whole_shape() {
    let mut stored = [0u8; 900000];
    let mut samples = [7i64; 400000];
    lend_whole(&mut stored, &mut samples);
}

// Expands them all, one after the other.
fn main() {
    million_values();
    million_repeats();
    whole_shape();
}

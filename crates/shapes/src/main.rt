// Expands the shapes that standard input holds, and writes for each what expanding answers and all that was lent.
// A case is a head line `EDITION NUM ROOM`, where the edition is 13 or 14, then the stored lines, then a line `=`.
#![tactic(auto)]

ghost use Rattle.std.specs.Prelude.{◌≤◌, length};

use shape::{Edition, Expanded};

// The descriptors of standard input and output.
const STDIN_FILENO: i32 = 0;

const STDOUT_FILENO: i32 = 1;

// What a field of a line is worth as a number; 0 if it is none.
fn number_in(line: &[u8], k: usize) -> usize {
    numeral::read_integer(fields::field(line, k), 0, 9999999999).unwrap_or(0) as usize
}

// The edition that a head line names: 1.3 by 13, and 1.4 by anything else.
fn edition_of(head: &[u8]) -> Edition {
    if number_in(head, 0) == 13 {
        Edition::V13
    } else {
        Edition::V14
    }
}

// Writes the line of an answer.
fn put_answer(out: &mut [u8], at: usize, e: Expanded) -> usize {
    let a = output::put_bytes(out, at, b"answer ");
    let b = print::put_integer(out, a, shape::number_of(e));
    let c = output::put_bytes(out, b, b" used ");
    let d = print::put_integer(out, c, shape::used_of(e) as u64);
    output::put_byte(out, d, b'\n')
}

// Writes a sample, behind a space if it is not the first.
fn put_sample(out: &mut [u8], at: usize, first: bool, z: i64) -> usize {
    if first {
        return print::put_signed(out, at, z);
    }
    let next = output::put_byte(out, at, b' ');
    print::put_signed(out, next, z)
}

// Writes samples on one line.
fn put_samples(out: &mut [u8], at: usize, samples: &[i64]) -> usize {
    let mut place = at;
    for (i, z) in samples.iter().enumerate() {
        place = put_sample(out, place, i == 0, *z);
    }
    output::put_byte(out, place, b'\n')
}

// Expands one case into what is lent, and writes its two lines.
fn expand(head: &[u8], stored: &[u8], samples: &mut [i64]) {
    let answer = expanding::expand(stored, number_in(head, 1), edition_of(head), samples);
    let mut out = io::large_buffer();
    let a = put_answer(&mut out, 0, answer);
    let b = put_samples(&mut out, a, samples);
    io::write_all(STDOUT_FILENO, output::front(&out, b));
}

// Expands one case into the front of a table, as far as its head line lends it.
fn lend(head: &[u8], stored: &[u8], table: &mut [i64]) {
    let room = number_in(head, 2).min(table.len());
    expand(head, stored, &mut table[..room]);
}

// Shows one case. No sample of its table is zero before.
fn show(head: &[u8], stored: &[u8]) {
    let mut table = [7i64; 2000];
    lend(head, stored, &mut table);
}

// Where the stored lines from a place on end: at a line `=`, or at the end.
fn stored_end(input: &[u8], from: usize) -> usize
    requires { from ≤ length input.now }
    ensures { (from ≤ result) × (result ≤ length input.now) }
{
    let mut at = from;
    // Each line says itself where the next one starts.
    while at < input.len() {
        let line = text::next_line(input, at);
        if text::same(&input[at..line.stop], b"=") {
            return at;
        }
        at = line.next;
    }
    at
}

// Shows each case of the input.
fn show_all(input: &[u8]) {
    let mut at = 0;
    // Each case says itself where the next one starts.
    while at < input.len() {
        let head = text::next_line(input, at);
        let end = stored_end(input, head.next);
        show(&input[at..head.stop], &input[head.next..end]);
        at = text::next_line(input, end).next;
    }
}

// Reads the input, as much as the buffer holds, and shows its cases.
fn main() {
    let mut input = io::large_buffer();
    let n = io::read_full(STDIN_FILENO, &mut input);
    show_all(&input[..n]);
}

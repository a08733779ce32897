// Reads lines from standard input and writes, under each, every row, label, `extension` line and head of a shape that it is.
#![tactic(auto)]

use columns::Form;
use shape::Edition;

// The descriptors of standard input and output.
const STDIN_FILENO: i32 = 0;

const STDOUT_FILENO: i32 = 1;

// The largest ID, type and counter.
const LARGEST_ID: u64 = 2147483647;

// The most samples of a shape.
const MOST_SAMPLES: u64 = 1_000_000;

// Writes how an answer begins: what the line was read as.
fn put_name(out: &mut [u8], name: &[u8]) -> usize {
    let next = output::put_bytes(out, 0, b"  ");
    output::put_bytes(out, next, name)
}

// Ends an answer and hands it to standard output.
fn finish(out: &mut [u8], at: usize) {
    let next = output::put_byte(out, at, b'\n');
    io::write_all(STDOUT_FILENO, output::front(out, next));
}

// Writes numbers, each behind a space.
fn put_numbers(out: &mut [u8], at: usize, numbers: &[i64]) -> usize {
    let mut place = at;
    for z in numbers {
        let next = output::put_byte(out, place, b' ');
        place = print::put_signed(out, next, *z);
    }
    place
}

// Writes a row's twelve numbers and the row as it is printed, if the line is one.
fn show_row(edition: Edition, name: &[u8], form: Form, line: &[u8]) {
    let Some(cells) = rows::read_row(edition, form, line) else {
        return;
    };
    let mut out = [0u8; 1024];
    let a = put_name(&mut out, name);
    let b = put_numbers(&mut out, a, &cells);
    let c = output::put_bytes(&mut out, b, b" | ");
    let d = row_text::put_row(&mut out, c, edition, form, &cells);
    finish(&mut out, d);
}

// Writes a label, if the line is one.
fn show_label(edition: Edition, name: &[u8], increment: bool, line: &[u8]) {
    let Some(read) = heads::read_label(edition, increment, line) else {
        return;
    };
    let mut out = [0u8; 1024];
    let a = put_name(&mut out, name);
    let b = output::put_byte(&mut out, a, b' ');
    let c = print::put_integer(&mut out, b, read.id);
    let d = put_numbers(&mut out, c, &[read.value]);
    let e = output::put_byte(&mut out, d, b' ');
    let f = print::put_integer(&mut out, e, read.label as u64);
    finish(&mut out, f);
}

// Writes the type and the code of an `extension` line, if the line is one.
fn show_extension(line: &[u8]) {
    let Some(extension) = heads::read_extension(line) else {
        return;
    };
    let mut out = [0u8; 1024];
    let a = put_name(&mut out, b"extension ");
    let b = print::put_integer(&mut out, a, extension.number);
    let c = output::put_byte(&mut out, b, b' ');
    let d = print::put_integer(&mut out, c, extension.code as u64);
    finish(&mut out, d);
}

// Writes the number of a shape's head, if the line is one.
fn show_head(word: &[u8], most: u64, line: &[u8]) {
    if let Some(n) = heads::read_word_number(line, word, 1, most) {
        let mut out = [0u8; 1024];
        let a = put_name(&mut out, word);
        let b = output::put_byte(&mut out, a, b' ');
        let c = print::put_integer(&mut out, b, n);
        finish(&mut out, c);
    }
}

// Writes all that a line is in an edition.
fn show_edition(edition: Edition, name: &[u8], line: &[u8]) {
    show_row(edition, name, Form::Block, line);
    show_row(edition, name, Form::Rf, line);
    show_row(edition, name, Form::Gradient, line);
    show_row(edition, name, Form::Trap, line);
    show_row(edition, name, Form::Adc, line);
    show_row(edition, name, Form::Delay, line);
    show_row(edition, name, Form::Entry, line);
    show_row(edition, name, Form::Trigger, line);
    show_label(edition, name, false, line);
    show_label(edition, name, true, line);
}

// Writes a line and all that it is.
fn show(line: &[u8]) {
    io::write_all(STDOUT_FILENO, line);
    io::write_all(STDOUT_FILENO, b"\n");
    show_edition(Edition::V13, b"13", line);
    show_edition(Edition::V14, b"14", line);
    show_extension(line);
    show_head(b"shape_id", LARGEST_ID, line);
    show_head(b"num_samples", MOST_SAMPLES, line);
}

// Writes the answers for each line of the input.
fn show_all(input: &[u8]) {
    let mut at = 0;
    // Each line says itself where the next one starts.
    while at < input.len() {
        let line = text::next_line(input, at);
        show(&input[at..line.stop]);
        at = line.next;
    }
}

// Reads the input, as much as the buffer holds, and writes the answers for its lines.
fn main() {
    let mut input = [0u8; 32768];
    let n = io::read_full(STDIN_FILENO, &mut input);
    show_all(&input[..n]);
}

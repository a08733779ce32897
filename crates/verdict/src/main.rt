// Reads a file on standard input and the site's definitions from `site.def` in the working directory, where there is one, and prints the verdict:
// `accepted, R rows, S samples` or `refused NAME, line L`. It takes files of at most 262,144 bytes, 10,000 rows and 100,000 samples.
#![tactic(auto)]

ghost use Rattle.io.specs.Counts.{IsPrefixLen};

use answers::Refusal;
use std::fs;
use std::os::fd::AsRawFd;

// The descriptors of standard input and output.
const STDIN_FILENO: i32 = 0;

const STDOUT_FILENO: i32 = 1;

// Ends a line and hands it to standard output.
fn finish(out: &mut [u8], at: usize) {
    let next = output::put_byte(out, at, 10);
    io::write_all(STDOUT_FILENO, output::front(out, next));
}

// Writes a number between two texts.
fn put_number(out: &mut [u8], at: usize, before: &[u8], n: usize, behind: &[u8]) -> usize {
    let a = output::put_bytes(out, at, before);
    let b = print::put_integer(out, a, n as u64);
    output::put_bytes(out, b, behind)
}

// Writes the name of a refusal, as the paper has it.
fn put_name(out: &mut [u8], at: usize, refusal: Refusal) -> usize {
    match refusal {
        Refusal::Big => output::put_bytes(out, at, b"BIG"),
        Refusal::Line => output::put_bytes(out, at, b"LINE"),
        Refusal::Version => output::put_bytes(out, at, b"VERSION"),
        Refusal::Section => output::put_bytes(out, at, b"SECTION"),
        Refusal::Field => output::put_bytes(out, at, b"FIELD"),
        Refusal::Missing => output::put_bytes(out, at, b"MISSING"),
        Refusal::Room => output::put_bytes(out, at, b"ROOM"),
        Refusal::Site => output::put_bytes(out, at, b"SITE"),
        Refusal::Duplicate => output::put_bytes(out, at, b"DUPLICATE"),
        Refusal::Raster => output::put_bytes(out, at, b"RASTER"),
        Refusal::Shape => output::put_bytes(out, at, b"SHAPE"),
        Refusal::Reference => output::put_bytes(out, at, b"REFERENCE"),
        Refusal::Loop => output::put_bytes(out, at, b"LOOP"),
        Refusal::Use => output::put_bytes(out, at, b"USE"),
        Refusal::Align => output::put_bytes(out, at, b"ALIGN"),
        Refusal::Long => output::put_bytes(out, at, b"LONG"),
        Refusal::Outlasts => output::put_bytes(out, at, b"OUTLASTS"),
    }
}

// Writes an acceptance with its counts.
fn show_accepted(rows: usize, samples: usize) {
    let mut out = [0u8; 128];
    let a = put_number(&mut out, 0, b"accepted, ", rows, b" rows, ");
    let b = put_number(&mut out, a, b"", samples, b" samples");
    finish(&mut out, b);
}

// Writes a refusal with its name, and its line where there is one.
fn show_refused(refusal: Refusal, line: usize) {
    let mut out = [0u8; 128];
    let a = output::put_bytes(&mut out, 0, b"refused ");
    let b = put_name(&mut out, a, refusal);
    if line == 0 {
        finish(&mut out, b);
        return;
    }
    let c = put_number(&mut out, b, b", line ", line, b"");
    finish(&mut out, c);
}

// Says that the file is longer than what this program takes, which is less than what the library takes.
fn show_too_long() {
    io::write_all(
        STDOUT_FILENO,
        b"refused BIG, over the 262144 bytes that this program takes\n",
    );
}

// Reads the file with the site's definitions into tables of its own, and writes the verdict.
fn judge<'a>(file: &'a [u8], site: &'a [u8]) {
    let mut rows = [0i64; 120000];
    let mut samples = [0i64; 100000];
    match reader::read(file, site, &mut rows, &mut samples) {
        Ok(counts) => show_accepted(counts.rows, counts.samples),
        Err(refused) => show_refused(refused.refusal, refused.line),
    }
}

// Reads the site's definitions, as many bytes as the buffer holds; none where there is no such file.
fn read_site(rt: &HostRuntime, buffer: &mut [u8]) -> usize
    ensures { IsPrefixLen result buffer.new }
{
    match fs::open(rt, "site.def") {
        Ok(file) => io::read_full(file.as_raw_fd(), buffer),
        Err(_) => 0,
    }
}

// Reads both texts, each into a buffer one byte longer than what is taken, so that a longer one is seen to be longer, and writes the verdict.
fn main(rt: HostRuntime) {
    let mut input = [0u8; 262145];
    let n = io::read_full(STDIN_FILENO, &mut input);
    if 262144 < n {
        show_too_long();
        return;
    }
    let mut definitions = [0u8; 4097];
    let m = read_site(&rt, &mut definitions);
    judge(&input[..n], &definitions[..m]);
}

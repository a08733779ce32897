// Restates a file to 1.3.1: reads it on standard input and the site's definitions from `site.def` in the working directory, where there is one, and
// prints the text, or `refused N line L`. It takes files of at most 32,768 bytes, 100 rows and 1,000 samples, and texts of at most 8,192 bytes.
#![tactic(auto)]

ghost use Rattle.io.specs.Counts.{IsPrefixLen};

use shape::Edition;
use std::fs;
use std::os::fd::AsRawFd;

// The descriptors of standard input and output.
const STDIN_FILENO: i32 = 0;

const STDOUT_FILENO: i32 = 1;

// Prints a refusal by its number and line.
fn show_refused(number: u64, line: usize) {
    let mut out = [0u8; 64];
    let a = output::put_bytes(&mut out, 0, b"refused ");
    let b = print::put_integer(&mut out, a, number);
    let c = output::put_bytes(&mut out, b, b" line ");
    let d = print::put_integer(&mut out, c, line as u64);
    let end = output::put_byte(&mut out, d, 10);
    io::write_all(STDOUT_FILENO, output::front(&out, end));
}

// Restates a file with the site's definitions, and prints what comes of it.
fn restate<'a>(file: &'a [u8], site: &'a [u8]) {
    let mut rows = [0i64; 1200];
    let mut samples = [0i64; 1000];
    let mut out = [0u8; 8192];
    let restated = restater::restate(file, site, Edition::V13, &mut rows, &mut samples, &mut out);
    match restated {
        Ok(text) => {
            io::write_all(STDOUT_FILENO, output::front(&out, text.length));
        }
        Err(_) => show_refused(restater::number(restated), restater::line(restated)),
    }
}

// Reads the site's definitions, as many bytes as the buffer holds; none where there is no such file.
fn read_site(rt: &HostRuntime, buffer: &mut [u8]) -> usize
    ensures { IsPrefixLen result buffer.new }
{
    match fs::open(rt, "site.def") {
        Ok(file) => io::read_full(file.as_raw_fd(), buffer),
        Err(_) => 0,
    }
}

// Reads both texts, each into a buffer one byte longer than what is taken, so that a longer one is seen to be longer; a file that is too long is BIG.
fn main(rt: HostRuntime) {
    let mut input = [0u8; 32769];
    let n = io::read_full(STDIN_FILENO, &mut input);
    if 32768 < n {
        show_refused(1, 0);
        return;
    }
    let mut definitions = [0u8; 4097];
    let m = read_site(&rt, &mut definitions);
    restate(&input[..n], &definitions[..m]);
}

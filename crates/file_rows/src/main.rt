// Reads files, each with a site's definitions, from standard input. Writes for each file its rows with their lines and stored lines, or its fault, then
// the values of the four rasters and whether the site's definitions are good.
// A record is a line `FILE SITE` with two counts of bytes, then the bytes of the file, then the bytes of the site.
#![tactic(auto)]

ghost use Rattle.std.specs.Prelude.{◌≤◌, true, ◌≡◌, length};
ghost use Rattle.passing.specs.Sound.{sound_of};

use file::Summary;
use places::Fault;
use shape::Edition;

// The descriptors of standard input and output.
const STDIN_FILENO: i32 = 0;

const STDOUT_FILENO: i32 = 1;

// Hands a text to standard output.
fn write(text: &[u8]) {
    io::write_all(STDOUT_FILENO, text);
}

// Ends a line and hands it to standard output.
fn finish(out: &mut [u8], at: usize) {
    let next = output::put_byte(out, at, b'\n');
    write(output::front(out, next));
}

// Writes a number behind its name.
fn put_named(out: &mut [u8], at: usize, name: &[u8], n: u64) -> usize {
    let next = output::put_bytes(out, at, name);
    print::put_integer(out, next, n)
}

// Writes numbers, each behind a space.
fn put_numbers(out: &mut [u8], at: usize, numbers: &[i64]) -> usize {
    let mut place = at;
    for z in numbers {
        let next = output::put_byte(out, place, b' ');
        place = print::put_signed(out, next, *z);
    }
    place
}

// Writes a value behind a space, if it is not empty.
fn put_value(out: &mut [u8], at: usize, value: &[u8]) -> usize {
    if value.is_empty() {
        return at;
    }
    let next = output::put_byte(out, at, b' ');
    output::put_bytes(out, next, value)
}

// Writes a line with a number behind its name.
fn show_number(name: &[u8], n: u64) {
    let mut out = [0u8; 64];
    let a = put_named(&mut out, 0, name, n);
    finish(&mut out, a);
}

// Writes a fault and its line.
fn show_fault(fault: Fault, line: usize) {
    let mut out = [0u8; 64];
    let a = put_named(&mut out, 0, b"fault ", fault.number());
    let b = put_named(&mut out, a, b" line ", line as u64);
    finish(&mut out, b);
}

// The number of an edition.
fn edition_number(edition: Edition) -> u64 {
    match edition {
        Edition::V13 => 103,
        Edition::V14 => 104,
    }
}

// Writes what a whole file has: its edition, how many rows and samples, and whether definitions.
fn show_whole(edition: Edition, rows: usize, samples: u64, defined: bool) {
    let mut out = [0u8; 128];
    let a = put_named(&mut out, 0, b"edition ", edition_number(edition));
    let b = put_named(&mut out, a, b" rows ", rows as u64);
    let c = put_named(&mut out, b, b" samples ", samples);
    let d = put_named(&mut out, c, b" definitions ", u64::from(defined));
    finish(&mut out, d);
}

// Writes the stored lines of a shape behind their length.
fn show_stored(file: &[u8], id: i64)
    requires { sound_of file.now ≡ true }
{
    let stored = stored::stored_lines(file, id);
    show_number(b"stored ", stored.len() as u64);
    write(stored);
    write(b"\n");
}

// The number at a place of a row; 0 if there is none.
fn number_at(numbers: &[i64], i: usize) -> i64 {
    numbers.get(i).copied().unwrap_or(0)
}

// Writes a row's line and numbers, and the stored lines of a shape.
fn show_row(file: &[u8], k: usize, numbers: &[i64])
    requires { sound_of file.now ≡ true }
{
    let mut out = [0u8; 512];
    let a = print::put_integer(&mut out, 0, file::row_line(file, k) as u64);
    let b = output::put_byte(&mut out, a, b':');
    let c = put_numbers(&mut out, b, numbers);
    finish(&mut out, c);
    if number_at(numbers, 0) == 11 {
        show_stored(file, number_at(numbers, 1));
    }
}

// Writes the rows of a file, as many as the table has.
fn show_rows(file: &[u8], table: &[i64], rows: usize)
    requires { sound_of file.now ≡ true }
{
    for k in 0..rows.min(table.len() / 12) {
        let base = k * 12;
        show_row(file, k, &table[base..base + 12]);
    }
}

// Writes what scanning a file gives.
fn show_file(file: &[u8]) {
    let mut table = [0i64; 720];
    match file::scan(file, &mut table) {
        Ok(
            Summary {
                edition,
                rows,
                samples,
                defined,
            },
        ) => {
            show_whole(edition, rows, samples, defined);
            show_rows(file, &table, rows);
        }
        Err(first) => show_fault(first.fault, first.line),
    }
}

// Writes a key, and the length and the value of its definition.
fn show_definition<'a>(file: &'a [u8], site: &'a [u8], key: &[u8]) {
    let value = definitions::definition(file, site, key);
    let mut out = [0u8; 2048];
    let a = output::put_bytes(&mut out, 0, key);
    let b = put_named(&mut out, a, b" ", value.len() as u64);
    let c = put_value(&mut out, b, value);
    finish(&mut out, c);
}

// Writes whether a site's definitions are good.
fn show_site(site: &[u8]) {
    if definitions::site_fault(site) {
        write(b"site bad\n");
        return;
    }
    write(b"site good\n");
}

// Writes all of a record: its number, then what its file and its site are.
fn show<'a>(number: u64, file: &'a [u8], site: &'a [u8]) {
    show_number(b"file ", number);
    show_file(file);
    show_definition(file, site, b"GradientRasterTime");
    show_definition(file, site, b"RadiofrequencyRasterTime");
    show_definition(file, site, b"AdcRasterTime");
    show_definition(file, site, b"BlockDurationRaster");
    show_site(site);
}

// What the k-th field of a line is worth as a count of bytes.
fn read_count(line: &[u8], k: usize) -> Option<usize> {
    let n = numeral::read_integer(fields::field(line, k), 0, 9999999999)?;
    Some(n as usize)
}

// The two counts of the head line of a record, if it is one.
fn counts_of(line: &[u8]) -> Option<(usize, usize)> {
    if fields::field_count(line) != 2 {
        return None;
    }
    Some((read_count(line, 0)?, read_count(line, 1)?))
}

// Where so many bytes stop that start at a place, or the end where there are fewer.
fn stop_of(input: &[u8], from: usize, bytes: usize) -> usize
    requires { from ≤ length input.now }
    ensures { (from ≤ result) × (result ≤ length input.now) }
{
    from + bytes.min(input.len() - from)
}

// Shows each record of the input, up to a line that is no head line.
fn show_all(input: &[u8]) {
    let mut at = 0;
    let mut number: u64 = 0;
    // Each record says itself where the next one starts.
    while at < input.len() {
        let line = text::next_line(input, at);
        let from = line.next;
        let Some((bytes, more)) = counts_of(&input[at..line.stop]) else {
            return;
        };
        let middle = stop_of(input, from, bytes);
        let end = stop_of(input, middle, more);
        number += 1;
        show(number, &input[from..middle], &input[middle..end]);
        at = end;
    }
}

// Reads the input, as much as the buffer holds, and shows its records.
fn main() {
    let mut input = [0u8; 131072];
    let n = io::read_full(STDIN_FILENO, &mut input);
    show_all(&input[..n]);
}

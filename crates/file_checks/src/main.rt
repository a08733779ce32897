// Reads files, each with a site's definitions, from standard input, and applies every rule from LINE to OUTLASTS to each, in order. Writes for each
// file the refusal and its line, or that it is accepted, with its rows and samples.
// A record is a line `FILE SITE` with two counts of bytes, then the bytes of the file, then the bytes of the site.
#![tactic(auto)]

ghost use Rattle.std.specs.Prelude.{◌≡◌, ◌+◌, ◌-◌, ◌≤◌, min, true};
ghost use Rattle.file.specs.Marks.{met_walk};
ghost use Rattle.passing.specs.Sound.{sound_of};
ghost use Rattle.tables.specs.Tables.{NoneAgain};

use file::{Summary, Walk};
use finding::Rows;
use shape::Edition;
use unit::Rasters;

// The descriptors of standard input and output.
const STDIN_FILENO: i32 = 0;

const STDOUT_FILENO: i32 = 1;

// A refusal's number and its line.
#[derive(Clone, Copy)]
struct Refused {
    number: u64,
    line: usize,
}

// Ends a line and hands it to standard output.
fn finish(out: &mut [u8], at: usize) {
    let next = output::put_byte(out, at, b'\n');
    io::write_all(STDOUT_FILENO, output::front(out, next));
}

// Writes a number behind its name.
fn put_named(out: &mut [u8], at: usize, name: &[u8], n: u64) -> usize {
    let next = output::put_bytes(out, at, name);
    print::put_integer(out, next, n)
}

// Writes numbers, each behind a space.
fn put_numbers(out: &mut [u8], at: usize, numbers: &[i64]) -> usize {
    let mut place = at;
    for z in numbers {
        let next = output::put_byte(out, place, b' ');
        place = print::put_signed(out, next, *z);
    }
    place
}

// Writes a line of numbers behind its name.
fn show_numbers(name: &[u8], numbers: &[i64]) {
    let mut out = [0u8; 512];
    let a = output::put_bytes(&mut out, 0, name);
    let b = put_numbers(&mut out, a, numbers);
    finish(&mut out, b);
}

// Writes a line with two numbers, each behind its name.
fn show_two(first: &[u8], a: u64, second: &[u8], b: u64) {
    let mut out = [0u8; 128];
    let middle = put_named(&mut out, 0, first, a);
    let end = put_named(&mut out, middle, second, b);
    finish(&mut out, end);
}

// Writes a refusal and its line.
fn show_refusal(refused: Refused) {
    show_two(b"refused ", refused.number, b" line ", refused.line as u64);
}

// Where so many items stop that start at a place, or the end where there are fewer.
fn stop_of(all: usize, from: usize, count: usize) -> usize
    requires { from ≤ all }
    ensures { (from ≤ result) × (result ≤ all) × (result ≡ from + min count (all - from)) }
{
    from + count.min(all - from)
}

// Writes a row's numbers.
fn show_row(numbers: &[i64]) {
    show_numbers(b"row", numbers);
}

// Writes a line of samples.
fn show_part(numbers: &[i64]) {
    show_numbers(b"samples", numbers);
}

// Writes the rows of a table.
fn show_rows(table: &[i64], rows: usize) {
    for k in 0..rows.min(table.len() / 12) {
        let base = k * 12;
        show_row(&table[base..base + 12]);
    }
}

// Writes samples, twenty to a line.
fn show_samples(samples: &[i64]) {
    let mut at = 0;
    // Twenty samples are passed at a time.
    while at < samples.len() {
        let stop = stop_of(samples.len(), at, 20);
        show_part(&samples[at..stop]);
        at = stop;
    }
}

// Writes what an accepted file gives: its rows and its samples.
fn show_accepted(table: &[i64], rows: usize, samples: &[i64], count: usize) {
    show_two(b"accepted rows ", rows as u64, b" samples ", count as u64);
    show_rows(table, rows);
    let stop = stop_of(samples.len(), 0, count);
    show_samples(&samples[..stop]);
}

// SITE and DUPLICATE.
fn check_texts(
    edition: Edition,
    file: &[u8],
    site: &[u8],
    names: Walk,
    table: &[i64],
    rows: usize,
) -> Result<(), Refused>
    requires file_value { sound_of file.now ≡ true }
    requires names_value { names ≡ met_walk 8 file.now }
{
    if questions::has_bad_site(edition, site) {
        return Err(Refused { number: 8, line: 0 });
    }
    let line = duplicates::first_duplicate(file, names, table, rows);
    if line != 0 {
        return Err(Refused { number: 9, line });
    }
    Ok(())
}

// SHAPE, with the samples that the shapes give.
fn check_shapes(
    file: &[u8],
    shapes: Walk,
    edition: Edition,
    table: &[i64],
    rows: usize,
    samples: &mut [i64],
) -> Result<(), Refused>
    requires file_value { sound_of file.now ≡ true }
    requires shapes_value { shapes ≡ met_walk 9 file.now }
    requires none_again { NoneAgain table.now rows }
{
    let k = sampling::expand_shapes(file, shapes, edition, table, rows, samples);
    if k < rows {
        let line = file::row_line(file, k);
        return Err(Refused { number: 11, line });
    }
    Ok(())
}

// REFERENCE to OUTLASTS: the first rule that is broken, at the first row that breaks it.
fn check_rules(
    file: &[u8],
    edition: Edition,
    rasters: Rasters,
    rows: Rows,
    samples: &[i64],
) -> Result<(), Refused> {
    for i in 0..6 {
        let rule = questions::rule_at(i);
        let k = rules::first_broken(rule, edition, rasters, rows, samples);
        if k < rows.n {
            let line = file::row_line(file, k);
            let number = rule.number();
            return Err(Refused { number, line });
        }
    }
    Ok(())
}

// Applies the rules over shapes and rows to a file whose rows are in the table, and writes what it gives if none is broken.
fn judge_rows(
    edition: Edition,
    file: &[u8],
    shapes: Walk,
    rasters: Rasters,
    table: &mut [i64],
    rows: usize,
    count: usize,
) -> Result<(), Refused>
    requires file_value { sound_of file.now ≡ true }
    requires shapes_value { shapes ≡ met_walk 9 file.now }
{
    let again = again::first_again(table, rows);
    if again < rows {
        let line = file::row_line(file, again);
        return Err(Refused { number: 9, line });
    }
    let mut samples = [0i64; 2000];
    check_shapes(file, shapes, edition, table, rows, &mut samples)?;
    let hints = [0u16; 16];
    let told = Rows {
        numbers: table,
        hints: &hints,
        n: rows,
    };
    check_rules(file, edition, rasters, told, &samples)?;
    rules::fill_lengths(edition, rasters, table, &hints, rows, &samples);
    show_accepted(table, rows, &samples, count);
    Ok(())
}

// Applies the rules from SITE on to a file whose rows are in the table.
fn judge_texts<'a>(
    edition: Edition,
    file: &'a [u8],
    site: &'a [u8],
    names: Walk,
    shapes: Walk,
    table: &mut [i64],
    rows: usize,
    count: usize,
) -> Result<(), Refused>
    requires file_value { sound_of file.now ≡ true }
    requires names_value { names ≡ met_walk 8 file.now }
    requires shapes_value { shapes ≡ met_walk 9 file.now }
{
    check_texts(edition, file, site, names, table, rows)?;
    let rasters = rasters::rasters(edition, file, site);
    if rasters::is_lacking(edition, rasters) {
        return Err(Refused {
            number: 10,
            line: 0,
        });
    }
    judge_rows(edition, file, shapes, rasters, table, rows, count)
}

// Applies all rules to a file, and writes what it gives if it keeps to them.
fn judge_file<'a>(file: &'a [u8], site: &'a [u8]) -> Result<(), Refused> {
    let mut table = [0i64; 4800];
    let marked = file::scan_marked(file, &mut table);
    let names = marked.names;
    let shapes = marked.shapes;
    match marked.scanned {
        Ok(
            Summary {
                edition,
                rows,
                samples,
                defined,
            },
        ) => {
            if questions::is_missing(edition, questions::has_block(file), defined) {
                return Err(Refused { number: 6, line: 0 });
            }
            if questions::lacks_room(rows, samples, table.len(), 2000) {
                return Err(Refused { number: 7, line: 0 });
            }
            let count = samples as usize;
            judge_texts(edition, file, site, names, shapes, &mut table, rows, count)
        }
        Err(first) => Err(Refused {
            number: first.fault.number(),
            line: first.line,
        }),
    }
}

// Writes the number of a record, then what comes of its file.
fn show<'a>(number: u64, file: &'a [u8], site: &'a [u8]) {
    let mut out = [0u8; 64];
    let a = put_named(&mut out, 0, b"file ", number);
    finish(&mut out, a);
    if let Err(refused) = judge_file(file, site) {
        show_refusal(refused);
    }
}

// What the k-th field of a line is worth as a count of bytes.
fn read_count(line: &[u8], k: usize) -> Option<usize> {
    let n = numeral::read_integer(fields::field(line, k), 0, 9999999999)?;
    Some(n as usize)
}

// The two counts of the head line of a record, if it is one.
fn counts_of(line: &[u8]) -> Option<(usize, usize)> {
    if fields::field_count(line) != 2 {
        return None;
    }
    Some((read_count(line, 0)?, read_count(line, 1)?))
}

// Shows each record of the input, up to a line that is no head line.
fn show_all(input: &[u8]) {
    let mut at = 0;
    let mut number: u64 = 0;
    // Each record says itself where the next one starts.
    while at < input.len() {
        let line = text::next_line(input, at);
        let from = line.next;
        let Some((bytes, more)) = counts_of(&input[at..line.stop]) else {
            return;
        };
        let middle = stop_of(input.len(), from, bytes);
        let end = stop_of(input.len(), middle, more);
        number += 1;
        show(number, &input[from..middle], &input[middle..end]);
        at = end;
    }
}

// Reads the input, as much as the buffer holds, and shows its records.
fn main() {
    let mut input = [0u8; 262144];
    let n = io::read_full(STDIN_FILENO, &mut input);
    show_all(&input[..n]);
}

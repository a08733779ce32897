// The library's functions for C and Rust, which `pulseq_c` exports. Each answers for every input: it writes all of what is lent, and lays the numbers
// of its answer over a lent `answer`, as many as fit, with zeros behind them.
#![tactic(auto)]

ghost use Rattle.std.specs.Prelude.{◌≡◌, length, get_or, replicate};
ghost use Rattle.reader.specs.Reading.{zeros};
ghost use Rattle.pulseq.specs.Exports.{told, edition_of, ReadTold, ExpandTold, WriteTold, RestateTold, DefinitionTold, StoredTold};

use shape::Edition;

// The edition that a number names: 103 is 1.3, and 104 is 1.4.
fn edition_of(edition: u64) -> Option<Edition>
    ensures { result ≡ edition_of edition }
{
    match edition {
        103 => Some(Edition::V13),
        104 => Some(Edition::V14),
        _ => None,
    }
}

// The number at a place; 0 behind the last.
fn number_at(numbers: &[u64], i: usize) -> u64
    ensures { result ≡ get_or numbers.now i 0 }
{
    numbers.get(i).copied().unwrap_or(0)
}

// Lays numbers over a lent answer, as many as fit, and zeros behind them.
fn tell(answer: &mut [u64], numbers: &[u64])
    ensures { answer.new ≡ told (length answer.old) numbers.now }
{
    for i in 0..answer.len() {
        answer[i] = number_at(numbers, i);
    }
}

// Reads a file with a site's definitions into lent tables, and tells the number, the line, and how many rows and samples are used.
pub fn pulseq_read<'a>(
    file: &'a [u8],
    site: &'a [u8],
    rows: &mut [i64],
    samples: &mut [i64],
    answer: &mut [u64],
)
    ensures { ReadTold file.now site.now rows.old samples.old answer.old rows.new samples.new answer.new }
{
    let read = reader::read(file, site, rows, samples);
    let number = answers::number(read);
    let line = answers::line(read) as u64;
    let used = answers::rows(read) as u64;
    let count = answers::samples(read) as u64;
    tell(answer, &[number, line, used, count]);
}

// Expands stored lines into lent samples, and tells the number and how many samples are used.
pub fn pulseq_expand(stored: &[u8], num: u64, edition: u64, samples: &mut [i64], answer: &mut [u64])
    ensures { ExpandTold stored.now num edition samples.old answer.old samples.new answer.new }
{
    match edition_of(edition) {
        Some(known) => {
            let expanded = expanding::expand(stored, num as usize, known, samples);
            let number = shape::number_of(expanded);
            let used = shape::used_of(expanded) as u64;
            tell(answer, &[number, used]);
        }
        None => {
            output::clear_numbers(samples, 0);
            let version = [3, 0];
            tell(answer, &version);
        }
    }
}

// Writes samples as stored lines into a lent output, and tells the number and how long the text is.
pub fn pulseq_write(samples: &[i64], edition: u64, out: &mut [u8], answer: &mut [u64])
    ensures { WriteTold samples.now edition out.old answer.old out.new answer.new }
{
    match edition_of(edition) {
        Some(known) => {
            let written = shape_text::write(samples, known, out);
            let number = shape_text::number_of(written);
            let size = shape_text::length_of(written) as u64;
            tell(answer, &[number, size]);
        }
        None => {
            output::clear_bytes(out, 0);
            let refused = [3, 0];
            tell(answer, &refused);
        }
    }
}

// Fills lent tables and a lent output with zeros.
fn clear_all(rows: &mut [i64], samples: &mut [i64], out: &mut [u8])
    ensures { (rows.new ≡ zeros (length rows.old)) × ((samples.new ≡ zeros (length samples.old)) × (out.new ≡ replicate (length out.old) 0)) }
{
    output::clear_numbers(rows, 0);
    output::clear_numbers(samples, 0);
    output::clear_bytes(out, 0);
}

// Restates a file with a site's definitions to a target, reading it into lent tables and writing its text into a lent output, and tells the number, the
// line, how many rows and samples are used, and how long the text is.
pub fn pulseq_restate<'a>(
    file: &'a [u8],
    site: &'a [u8],
    target: u64,
    rows: &mut [i64],
    samples: &mut [i64],
    out: &mut [u8],
    answer: &mut [u64],
)
    ensures { RestateTold file.now site.now target rows.old samples.old out.old answer.old rows.new samples.new out.new answer.new }
{
    match edition_of(target) {
        Some(known) => {
            let restated = restater::restate(file, site, known, rows, samples, out);
            let number = restater::number(restated);
            let line = restater::line(restated) as u64;
            let used = restater::rows(restated) as u64;
            let count = restater::samples(restated) as u64;
            let size = restater::length(restated) as u64;
            tell(answer, &[number, line, used, count, size]);
        }
        None => {
            clear_all(rows, samples, out);
            let unknown = [3, 0];
            tell(answer, &unknown);
        }
    }
}

// Finds where the value of a key stands in the file or the site's definitions, and tells which of the two, the place and the length.
pub fn pulseq_definition(file: &[u8], site: &[u8], key: &[u8], answer: &mut [u64])
    ensures { DefinitionTold file.now site.now key.now answer.old answer.new }
{
    let spot = lookups::definition_spot(file, site, key);
    let source = lookups::spot_number(spot);
    let start = lookups::spot_start(spot) as u64;
    let size = lookups::spot_length(spot) as u64;
    tell(answer, &[source, start, size]);
}

// Finds where the stored lines of a shape stand in the file, and tells 1, the place and the length, or zeros.
pub fn pulseq_stored(file: &[u8], site: &[u8], id: i64, answer: &mut [u64])
    ensures { StoredTold file.now site.now id answer.old answer.new }
{
    let spot = lookups::stored_spot(file, site, id);
    let found = lookups::spot_number(spot);
    let start = lookups::spot_start(spot) as u64;
    let size = lookups::spot_length(spot) as u64;
    tell(answer, &[found, start, size]);
}

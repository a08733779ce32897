// Reading a file with a site's definitions, in one call for every byte string: an acceptance with its tables, or a numbered refusal with its line and
// tables of zeros.
#![tactic(auto)]

ghost use Rattle.std.specs.Prelude.{◌≤◌, ◌≡◌, length, true};
ghost use Rattle.tables.specs.Tables.{NoneAgain};
ghost use Rattle.file.specs.Rows.{rows_of, scanned_of};
ghost use Rattle.file.specs.Marks.{met_walk};
ghost use Rattle.passing.specs.Sound.{sound_of};
ghost use Rattle.answers.specs.Outcome.{Accepted};
ghost use Rattle.reader.specs.Reading.{rules_asked, Reading};
ghost use Rattle.reader.specs.Inside.{RowsJudged, TextsJudged, FileJudged, AllJudged};

use answers::{Answer, Counts, Refusal};
use file::{Summary, Walk};
use finding::Rows;
use shape::Edition;
use unit::Rasters;

// REFERENCE to OUTLASTS: the first rule that is broken, at the first of n rows that breaks it. Whether any row breaks any is asked first, in one pass.
fn ask_rules(
    edition: Edition,
    rasters: Rasters,
    file: &[u8],
    rows: Rows,
    samples: &[i64],
    count: usize,
) -> Answer
    ensures { let n = rows.entry.n in
        result ≡ rules_asked edition rasters file.now rows.entry.numbers.now n samples.now (Accepted n count) }
{
    let accepted = Ok(Counts {
        rows: rows.n,
        samples: count,
    });
    if rows.n <= rules::first_breaking(edition, rasters, rows, samples) {
        return accepted;
    }
    for i in 0..6 {
        let rule = questions::rule_at(i);
        let k = rules::first_broken(rule, edition, rasters, rows, samples);
        if k < rows.n {
            return answers::refused(questions::rule_refusal(rule), file::row_line(file, k));
        }
    }
    accepted
}

// SHAPE and the rules over the rows; fills in the samples and, if the file is accepted, each block's length.
fn judge_rows(
    edition: Edition,
    rasters: Rasters,
    file: &[u8],
    shapes: Walk,
    rows: &mut [i64],
    n: usize,
    samples: &mut [i64],
    count: usize,
) -> Answer
    requires none_again { NoneAgain rows.old n }
    requires file_value { sound_of file.now ≡ true }
    requires shapes_value { shapes ≡ met_walk 9 file.now }
    ensures { RowsJudged edition rasters file.now n count rows.old samples.old result rows.new samples.new }
{
    let failing = sampling::expand_shapes(file, shapes, edition, rows, n, samples);
    if failing < n {
        return answers::refused(Refusal::Shape, file::row_line(file, failing));
    }
    let mut hints = [0u16; 524288];
    finding::note_rows(&mut hints, rows, n);
    let table = Rows {
        numbers: rows,
        hints: &hints,
        n,
    };
    let judged = ask_rules(edition, rasters, file, table, samples, count);
    if answers::is_accepted(judged) {
        rules::fill_lengths(edition, rasters, rows, &hints, n, samples);
    }
    judged
}

// SITE, DUPLICATE and RASTER, and then the rest, of a file whose rows are laid over the table.
fn judge_texts<'a>(
    edition: Edition,
    file: &'a [u8],
    site: &'a [u8],
    names: Walk,
    shapes: Walk,
    rows: &mut [i64],
    n: usize,
    samples: &mut [i64],
    count: usize,
) -> Answer
    requires n_in_bounds { n ≤ length (rows_of file.now) }
    requires file_value { sound_of file.now ≡ true }
    requires names_value { names ≡ met_walk 8 file.now }
    requires shapes_value { shapes ≡ met_walk 9 file.now }
    ensures { TextsJudged edition file.now site.now n count rows.old samples.old result rows.new samples.new }
{
    if questions::has_bad_site(edition, site) {
        return answers::refused(Refusal::Site, 0);
    }
    let again = duplicates::first_duplicate(file, names, rows, n);
    if again != 0 {
        return answers::refused(Refusal::Duplicate, again);
    }
    let rasters = rasters::rasters(edition, file, site);
    if rasters::is_lacking(edition, rasters) {
        return answers::refused(Refusal::Raster, 0);
    }
    judge_rows(edition, rasters, file, shapes, rows, n, samples, count)
}

// All that is asked of a file that is not too long.
fn judge_file<'a>(file: &'a [u8], site: &'a [u8], rows: &mut [i64], samples: &mut [i64]) -> Answer
    ensures { FileJudged file.now site.now rows.old samples.old result rows.new samples.new }
{
    let marked = file::scan_marked(file, rows);
    let scanned = marked.scanned;
    match scanned {
        Ok(
            Summary {
                edition,
                rows: n,
                samples: count,
                defined,
            },
        ) => {
            if questions::is_missing(edition, questions::has_block(file), defined) {
                return answers::refused(Refusal::Missing, 0);
            }
            if questions::lacks_room(n, count, rows.len(), samples.len()) {
                return answers::refused(Refusal::Room, 0);
            }
            let names = marked.names;
            let shapes = marked.shapes;
            judge_texts(
                edition,
                file,
                site,
                names,
                shapes,
                rows,
                n,
                samples,
                count as usize,
            )
        }
        Err(first) => answers::refused(questions::fault_refusal(first.fault), first.line),
    }
}

// All that is asked of a file.
fn judge<'a>(file: &'a [u8], site: &'a [u8], rows: &mut [i64], samples: &mut [i64]) -> Answer
    ensures { AllJudged file.now site.now rows.old samples.old result rows.new samples.new }
{
    if questions::is_big(file, site) {
        return answers::refused(Refusal::Big, 0);
    }
    judge_file(file, site, rows, samples)
}

// Reads a file with a site's definitions into lent tables, of rows and of samples; on a refusal both hold zeros throughout.
pub fn read<'a>(file: &'a [u8], site: &'a [u8], rows: &mut [i64], samples: &mut [i64]) -> Answer
    ensures { Reading file.now site.now rows.old samples.old result rows.new samples.new }
{
    output::clear_numbers(rows, 0);
    output::clear_numbers(samples, 0);
    let answer = judge(file, site, rows, samples);
    if !answers::is_accepted(answer) {
        output::clear_numbers(rows, 0);
        output::clear_numbers(samples, 0);
    }
    answer
}

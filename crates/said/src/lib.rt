// Rows as a target edition says them, written out section by section: each block with its duration in the target's own way.
#![tactic(auto)]

ghost use Rattle.std.specs.Prelude.{◌≤◌, ◌≡◌, length, take};
ghost use Rattle.output.specs.Over.{Put};
ghost use Rattle.durations.specs.Durations.{delay_number, FirstUsed};
ghost use Rattle.said.specs.Said.{numbers_at, duration_of, duration_number, said_row, is_of_form, line_text, row_line, rows_text, has_kind};

use columns::Form;
use durations::Uses;
use shape::Edition;
use unit::Nanos;

// The twelve numbers of row k.
pub fn numbers_at(rows: &[i64], k: usize) -> [i64; 12]
    ensures { result ≡ numbers_at rows.now k }
{
    let mut cells = [0; 12];
    for c in 0..12 {
        cells[c] = tables::number(rows, k, c);
    }
    cells
}

// How rows are said: the target, its raster of blocks, and the rows with the list of their durations.
#[derive(Clone, Copy)]
struct Telling<'a> {
    target: Edition,
    raster: Nanos,
    uses: Uses<'a>,
}

// The number of the delay row for the duration of block k: by where it stands in the list of durations, or by the rows if it is not listed.
fn delay_of(uses: &Uses<'_>, k: usize) -> usize
    ensures { result ≡ delay_number uses.now.rows.now uses.now.n k }
{
    let place = durations::stands_at(uses.list, sayable::nanos_at(uses.rows, k).0);
    if place < uses.list.len() {
        return place + 1;
    }
    durations::delay_number(uses.rows, uses.n, k)
}

// What a target says for the duration of block k: the number of its delay row in 1.3, steps of the raster of blocks in 1.4.
fn duration_of(by: &Telling<'_>, k: usize) -> u64
    ensures { result ≡ duration_of by.now.target by.now.raster.0 by.now.uses.rows.now by.now.uses.n k }
{
    match by.target {
        Edition::V13 => delay_of(&by.uses, k) as u64,
        Edition::V14 => {
            let steps = sayable::nanos_at(by.uses.rows, k).steps(by.raster);
            steps.map_or(0, |count| count.0)
        }
    }
}

// The same as a number of a row.
fn duration_number(by: &Telling<'_>, k: usize) -> i64
    ensures { result ≡ duration_number by.now.target by.now.raster.0 by.now.uses.rows.now by.now.uses.n k }
{
    signed::with_sign(false, duration_of(by, k))
}

// Row k as the target says it.
fn said_row(by: &Telling<'_>, k: usize) -> [i64; 12]
    ensures { result ≡ said_row by.now.target by.now.raster.0 by.now.uses.rows.now by.now.uses.n k }
{
    let mut cells = numbers_at(by.uses.rows, k);
    if sayable::is_kind(by.uses.rows, k, 1) {
        cells[2] = duration_number(by, k);
    }
    cells
}

// Is row k of a form?
fn is_of_form(form: Form, rows: &[i64], k: usize) -> bool
    ensures { result ≡ is_of_form form rows.now k }
{
    sayable::is_kind(rows, k, columns::form_number(form))
}

// Writes a row by the columns of its form, and ends the line.
pub fn put_line(out: &mut [u8], at: usize, target: Edition, form: Form, row: &[i64]) -> usize
    ensures { Put out.old at (line_text target form row.now) result out.new }
{
    let next = row_text::put_row(out, at, target, form, row);
    output::put_byte(out, next, b'\n')
}

// Writes the line of row k as the target says it, if it is of a form.
fn put_if(out: &mut [u8], at: usize, form: Form, by: &Telling<'_>, k: usize) -> usize
    ensures { Put out.old at (row_line by.now.target by.now.raster.0 form by.now.uses.rows.now by.now.uses.n k) result out.new }
{
    if is_of_form(form, by.uses.rows, k) {
        let row = said_row(by, k);
        return put_line(out, at, by.target, form, &row);
    }
    at
}

// Writes the lines of all rows of a form as the target says them, by a list of durations.
fn put_listed(out: &mut [u8], at: usize, form: Form, by: &Telling<'_>) -> usize
    ensures { Put out.old at (rows_text by.now.target by.now.raster.0 form by.now.uses.rows.now by.now.uses.n) result out.new }
{
    let mut place = at;
    for k in 0..by.uses.n {
        place = put_if(out, place, form, by, k);
    }
    place
}

// Lists the durations of n rows where they are numbered, which is for blocks in 1.3; how many are listed.
fn list_for(target: Edition, form: Form, list: &mut [u64], rows: &[i64], n: usize) -> usize
    ensures upper_bound { result ≤ length list.old }
    ensures first_used { FirstUsed rows.now n (take result list.new) }
{
    match (target, form) {
        (Edition::V13, Form::Block) => durations::list_uses(list, rows, n),
        _ => 0,
    }
}

// Writes the lines of all rows of a form, of n rows, as the target says them; the numbers of the first 4,096 durations are found in a list.
pub fn put_rows(
    out: &mut [u8],
    at: usize,
    target: Edition,
    raster: Nanos,
    form: Form,
    rows: &[i64],
    n: usize,
) -> usize
    ensures { Put out.old at (rows_text target raster.0 form rows.now n) result out.new }
{
    let mut found = [0; 4096];
    let count = list_for(target, form, &mut found, rows, n);
    let uses = Uses {
        list: &found[..count],
        rows,
        n,
    };
    let by = Telling {
        target,
        raster,
        uses,
    };
    put_listed(out, at, form, &by)
}

// Is there a row of a kind among n rows?
pub fn has_kind(kind: i64, rows: &[i64], n: usize) -> bool
    ensures { result ≡ has_kind kind rows.now n }
{
    (0..n).any(|k| sayable::is_kind(rows, k, kind))
}

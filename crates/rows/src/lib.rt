// Rows: a line read by the columns of its section into a row's twelve numbers, by itself or where it stands in a text.
#![tactic(auto)]

ghost use Rattle.std.specs.Prelude.{◌<◌, ◌≡◌, IfSome, get_or, true, false};
ghost use Rattle.fields.specs.Fields.{fields_of};
ghost use Rattle.decimals.specs.Decimal.{decimal_of};
ghost use Rattle.columns.specs.Columns.{columns_of, is_absent, least_of, most_of};
ghost use Rattle.rows.specs.Cells.{integer_cell, decimal_cell, dwell_cell, cell_of, row_from, row_is};
ghost use Rattle.rows.specs.Placed.{line_row_of};
ghost use Rattle.rows.specs.Inside.{by_digits, word_at, gathered_of, TakenIs, fits_column, GatheredIs, ColumnIs};

use columns::{Form, Kind};
use shape::Edition;

// What a field is worth in a column: one number of the row, or two.
#[derive(Clone, Copy)]
pub enum Cell {
    One(i64),
    Two(i64, i64),
}

// A line of a section read as a row: its numbers, if it is one that may stand in a file, and where the next line starts.
#[derive(Clone, Copy)]
pub struct RowLine {
    pub row: Option<[i64; 12]>,
    pub next: usize,
}

// The largest ID, type, channel and reference.
const LARGEST_ID: u64 = 2147483647;

// The least that an integer column may hold.
fn least_of(kind: Kind) -> u64
    ensures { result ≡ least_of kind }
{
    match kind {
        Kind::Id | Kind::Required | Kind::Count | Kind::Dwell => 1,
        Kind::Reference
        | Kind::Micros
        | Kind::Duration
        | Kind::Natural
        | Kind::Decimal
        | Kind::Absent => 0,
    }
}

// The most that an integer column may hold.
fn most_of(kind: Kind) -> u64
    ensures { result ≡ most_of kind }
{
    match kind {
        Kind::Id | Kind::Reference | Kind::Required | Kind::Natural => LARGEST_ID,
        Kind::Micros | Kind::Duration | Kind::Dwell => 1000000000,
        Kind::Count => 1000000,
        Kind::Decimal | Kind::Absent => 0,
    }
}

// What an integer field is worth in a column.
fn integer_cell(kind: Kind, field: &[u8]) -> Option<Cell>
    ensures { result ≡ integer_cell kind field.now }
{
    let n = numeral::read_integer(field, least_of(kind), most_of(kind))?;
    Some(Cell::One(signed::with_sign(false, n)))
}

// What a decimal field is worth.
fn decimal_cell(field: &[u8]) -> Option<Cell>
    ensures { result ≡ decimal_cell (decimal_of field.now) }
{
    let d = decimals::read_decimal(field)?;
    Some(Cell::Two(d.mantissa, d.exponent))
}

// What a dwell field is worth, in ns.
fn dwell_cell(field: &[u8]) -> Option<Cell>
    ensures { result ≡ dwell_cell (decimal_of field.now) }
{
    let d = decimals::read_decimal(field)?;
    let n = numeral::whole_worth(d, 0, 1, 1000000000)?;
    Some(Cell::One(signed::with_sign(false, n)))
}

// What a field is worth in a column.
pub fn cell_of(kind: Kind, field: &[u8]) -> Option<Cell>
    ensures { result ≡ cell_of kind field.now }
{
    match kind {
        Kind::Decimal => decimal_cell(field),
        Kind::Dwell => dwell_cell(field),
        Kind::Absent => None,
        _ => integer_cell(kind, field),
    }
}

// Is an integer asked for in such a column?
fn by_digits(kind: Kind) -> bool
    ensures { result ≡ by_digits kind }
{
    !matches!(kind, Kind::Decimal | Kind::Dwell | Kind::Absent)
}

// Gathers the digits from a place on, up to a blank or the end of the line: at most 10, and nothing else. What they are worth, and where they stop.
fn gather(line: &[u8], start: usize) -> Option<(u64, usize)>
    ensures { result ≡ gathered_of 0 0 start (word_at line.now start) }
{
    let mut v: u64 = 0;
    let mut i = start;
    // Where the digits stop is told, also where the line ends with them.
    while i < line.len() {
        let b = line[i];
        if b < 48 {
            if text::is_blank(b) {
                return Some((v, i));
            }
            return None;
        }
        if 57 < b {
            return None;
        }
        if 9 < i - start {
            return None;
        }
        v = v * 10 + (b - 48) as u64;
        i += 1;
    }
    Some((v, i))
}

// Takes the integer that a line holds for a column from a place on, and the place behind it.
fn take_integer(line: &[u8], at: usize, kind: Kind) -> Option<(Cell, usize)>
    requires { by_digits kind ≡ true }
    ensures { TakenIs line.now at kind result }
{
    let start = text::skip(line, at);
    if line.len() <= start {
        return None;
    }
    let (v, stop) = gather(line, start)?;
    if v < least_of(kind) {
        return None;
    }
    if most_of(kind) < v {
        return None;
    }
    Some((Cell::One(signed::with_sign(false, v)), stop))
}

// Takes the field that a line holds for a column from a place on, and the place behind it.
fn take_field(line: &[u8], at: usize, kind: Kind) -> Option<(Cell, usize)>
    requires { is_absent kind ≡ false }
    ensures { TakenIs line.now at kind result }
{
    let field = fields::next_field(line, at);
    let start = field.start;
    let stop = field.stop;
    if line.len() <= start {
        return None;
    }
    let cell = cell_of(kind, &line[start..stop])?;
    Some((cell, stop))
}

// Takes what a line holds for a column from a place on, and the place behind it.
fn take_cell(line: &[u8], at: usize, kind: Kind) -> Option<(Cell, usize)>
    ensures { TakenIs line.now at kind result }
{
    if by_digits(kind) {
        return take_integer(line, at, kind);
    }
    if columns::is_absent(kind) {
        return Some((Cell::One(0), at));
    }
    take_field(line, at, kind)
}

// A line read as a row of a form: as many fields as its columns ask for, each of its form and range.
pub fn read_row(edition: Edition, form: Form, line: &[u8]) -> Option<[i64; 12]>
    ensures { result ≡ row_is form (row_from (columns_of edition form) (fields_of line.now)) }
{
    let mut cells = [0i64; 12];
    cells[0] = columns::form_number(form);
    let count = columns::column_count(form, edition);
    let mut at: usize = 0;
    let mut w: usize = 1;
    for j in 0..count {
        let (cell, behind) = take_cell(line, at, columns::kind_at(edition, form, j))?;
        match cell {
            Cell::One(v) => {
                cells[w] = v;
                w += 1;
                at = behind;
            }
            Cell::Two(a, b) => {
                cells[w] = a;
                cells[w + 1] = b;
                w += 2;
                at = behind;
            }
        }
    }
    let rest = fields::next_field(line, at);
    if rest.start < line.len() {
        return None;
    }
    Some(cells)
}

// Does a number fit a column of a block that a field stands for?
fn fits_block(edition: Edition, j: usize, v: u64) -> bool
    requires { j < 8 }
    ensures { result ≡ fits_column (get_or (columns_of edition Form.Block) j Kind.Absent) v }
{
    if j == 0 {
        if v == 0 {
            return false;
        }
        return v <= LARGEST_ID;
    }
    if j == 1 {
        return match edition {
            Edition::V13 => v <= LARGEST_ID,
            Edition::V14 => v <= 1000000000,
        };
    }
    v <= LARGEST_ID
}

// Gathers the digits of a text from a place on, up to a blank or the LF: at most 10, and nothing else. What they are worth, and where they stop.
fn gather_line(text: &[u8], start: usize) -> Option<(u64, usize)>
    ensures { GatheredIs text.now start result }
{
    let mut v: u64 = 0;
    for i in start..text.len() {
        let b = text[i];
        if b < 48 {
            if b == 10 {
                return Some((v, i));
            }
            if text::is_blank(b) {
                return Some((v, i));
            }
            return None;
        }
        if 57 < b {
            return None;
        }
        if 9 < i - start {
            return None;
        }
        v = v * 10 + (b - 48) as u64;
    }
    None
}

// The number that a line of a text holds from a place on for a column of a block, and where it stops.
fn block_number(edition: Edition, text: &[u8], at: usize, j: usize) -> Option<(u64, usize)>
    requires { j < 8 }
    ensures { ColumnIs text.now at (get_or (columns_of edition Form.Block) j Kind.Absent) result }
{
    let start = text::skip(text, at);
    let (v, stop) = gather_line(text, start)?;
    if stop <= start {
        return None;
    }
    if !fits_block(edition, j, v) {
        return None;
    }
    Some((v, stop))
}

// A line of a text read as a block in one walk, if it is one as most are: what is not read here may still be a block.
fn quick_block(edition: Edition, text: &[u8], at: usize) -> Option<RowLine>
    ensures { IfSome result (λ r. r ≡ line_row_of edition Form.Block text.now at) }
{
    let mut cells = [0i64; 12];
    cells[0] = 1;
    let mut i = at;
    for j in 0..8 {
        let (v, stop) = block_number(edition, text, i, j)?;
        let number = signed::with_sign(false, v);
        cells[j + 1] = number;
        i = stop;
    }
    cells[9] = 0;
    let stop = text::skip(text, i);
    if text.len() <= stop || text[stop] != 10 || 1024 < stop - at {
        return None;
    }
    Some(RowLine {
        row: Some(cells),
        next: stop + 1,
    })
}

// A line of a text cut off and read as a row; past the end of the text there is none.
fn cut_row(edition: Edition, form: Form, text: &[u8], at: usize) -> RowLine
    ensures { result ≡ line_row_of edition form text.now at }
{
    let line = text::cut_line(text, at);
    let stop = line.stop;
    let next = line.next;
    if !line.clean {
        return RowLine { row: None, next };
    }
    if text.len() < stop {
        return RowLine { row: None, next };
    }
    if 1024 < stop - at {
        return RowLine { row: None, next };
    }
    RowLine {
        row: read_row(edition, form, &text[at..stop]),
        next,
    }
}

// The line of a text that starts at a place, read as a row of a form.
pub fn line_row(edition: Edition, form: Form, text: &[u8], at: usize) -> RowLine
    ensures { result ≡ line_row_of edition form text.now at }
{
    if let Form::Block = form {
        if let Some(row) = quick_block(edition, text, at) {
            return row;
        }
    }
    cut_row(edition, form, text, at)
}

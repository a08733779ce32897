// Rows as text: a row's numbers written out by the columns of its kind.
#![tactic(auto)]

ghost use Rattle.std.specs.Prelude.{◌≡◌, ◌<◌, ◌^◌, pos, get_or, drop};
ghost use Rattle.output.specs.Over.{Put};
ghost use Rattle.columns.specs.Columns.{columns_of, width_of};
ghost use Rattle.row_text.specs.Printed.{field_text, row_text};
ghost use Rattle.row_text.specs.Inside.{column_text};

use columns::{Form, Kind};
use numeral::Decimal;
use shape::Edition;

// How many numbers a column is in a row.
fn width_of(kind: Kind) -> usize
    ensures { result ≡ width_of kind }
{
    match kind {
        Kind::Decimal => 2,
        _ => 1,
    }
}

// The number at a place of a row; past its end 0.
fn number_at(row: &[i64], w: usize) -> i64
    ensures { result ≡ get_or row.now w (pos 0) }
{
    row.get(w).copied().unwrap_or(0)
}

// Writes what a column holds, from its place in the row on.
fn put_field(out: &mut [u8], at: usize, kind: Kind, row: &[i64], w: usize) -> usize
    requires { w < 2 ^ 32 }
    ensures { Put out.old at (field_text kind (drop w row.now)) result out.new }
{
    let first = number_at(row, w);
    match kind {
        Kind::Decimal => {
            let d = Decimal {
                mantissa: first,
                exponent: number_at(row, w + 1),
            };
            print::put_decimal(out, at, d)
        }
        Kind::Absent => at,
        _ => print::put_signed(out, at, first),
    }
}

// Writes a column behind others: a space, and what it holds; of an absent column nothing.
fn put_column(out: &mut [u8], at: usize, kind: Kind, row: &[i64], w: usize) -> usize
    requires { w < 2 ^ 32 }
    ensures { Put out.old at (column_text kind (drop w row.now)) result out.new }
{
    if columns::is_absent(kind) {
        return at;
    }
    let next = output::put_byte(out, at, b' ');
    put_field(out, next, kind, row, w)
}

// Writes a row, kind first, by its columns: single spaces between its fields, and no line end.
pub fn put_row(out: &mut [u8], at: usize, edition: Edition, form: Form, row: &[i64]) -> usize
    ensures { Put out.old at (row_text (columns_of edition form) (drop 1 row.now)) result out.new }
{
    let mut place = put_field(out, at, Kind::Id, row, 1);
    let count = columns::column_count(form, edition);
    let mut w = 2;
    for j in 1..count {
        let kind = columns::kind_at(edition, form, j);
        place = put_column(out, place, kind, row, w);
        w += width_of(kind);
    }
    place
}

// EXTENSIONS of a restated text: its entries, each `extension` line, and the triggers and labels that follow it.
#![tactic(auto, unfolding(crate::specs::Extensions::has_listed))]

ghost use Rattle.std.specs.Prelude.{◌≡◌, ◌∷◌};
ghost use Rattle.output.specs.Over.{Put};
ghost use Rattle.fields.specs.Fields.{fields_of};
ghost use Rattle.print.specs.Printed.{signed_text};
ghost use Rattle.extension_text.specs.Extensions.{word_at, extension_line, label_line, listed_line, listed_text, has_listed, extension_section};

use columns::Form;
use shape::Edition;

// The kind of an entry's row.
const ENTRY: i64 = 7;

// The kind of the row of a line `extension NAME type`.
const EXTENSION: i64 = 8;

// The kind of a trigger's row.
const TRIGGER: i64 = 9;

// The kind of a label's row.
const LABEL: i64 = 10;

// The word at a place of a list of words, from 1; none at 0 and behind the last.
fn word_at(words: &[u8], place: usize) -> &[u8]
    ensures { result.now ≡ word_at (fields_of words.now) place }
{
    if place == 0 {
        return &words[..0];
    }
    fields::field(words, place - 1)
}

// Writes a space and the word at a place of a list of words.
fn put_next_word(out: &mut [u8], at: usize, words: &[u8], place: usize) -> usize
    ensures { Put out.old at (32 ∷ word_at (fields_of words.now) place) result out.new }
{
    let next = output::put_byte(out, at, b' ');
    output::put_bytes(out, next, word_at(words, place))
}

// Writes a space and a number.
fn put_next_number(out: &mut [u8], at: usize, z: i64) -> usize
    ensures { Put out.old at (32 ∷ signed_text z) result out.new }
{
    let next = output::put_byte(out, at, b' ');
    print::put_signed(out, next, z)
}

// Writes the line `extension NAME type` of row k.
fn put_extension(out: &mut [u8], at: usize, rows: &[i64], k: usize) -> usize
    ensures { Put out.old at (extension_line rows.now k) result out.new }
{
    let code = tables::number(rows, k, 2).unsigned_abs() as usize;
    let word = output::put_bytes(out, at, b"extension");
    let name = put_next_word(out, word, b"TRIGGERS LABELSET LABELINC", code);
    let end = put_next_number(out, name, tables::number(rows, k, 1));
    output::put_byte(out, end, b'\n')
}

// Writes the line of row k, a label: id, value, label.
fn put_label(out: &mut [u8], at: usize, rows: &[i64], k: usize) -> usize
    ensures { Put out.old at (label_line rows.now k) result out.new }
{
    let label = tables::number(rows, k, 4).unsigned_abs() as usize;
    let id = print::put_signed(out, at, tables::number(rows, k, 1));
    let value = put_next_number(out, id, tables::number(rows, k, 3));
    let end = put_next_word(
        out,
        value,
        b"LIN PAR SLC SEG REP AVG SET ECO PHS NAV REV SMS ONCE",
        label,
    );
    output::put_byte(out, end, b'\n')
}

// Writes the line of row k, if it is a row of this section.
fn put_listed(out: &mut [u8], at: usize, target: Edition, rows: &[i64], k: usize) -> usize
    ensures { Put out.old at (listed_line target rows.now k) result out.new }
{
    match tables::number(rows, k, 0) {
        ENTRY => said::put_line(out, at, target, Form::Entry, &said::numbers_at(rows, k)),
        EXTENSION => put_extension(out, at, rows, k),
        TRIGGER => said::put_line(out, at, target, Form::Trigger, &said::numbers_at(rows, k)),
        LABEL => put_label(out, at, rows, k),
        _ => at,
    }
}

// Writes the lines of all rows of this section, of n rows.
fn put_all_listed(out: &mut [u8], at: usize, target: Edition, rows: &[i64], n: usize) -> usize
    ensures { Put out.old at (listed_text target rows.now n) result out.new }
{
    let mut place = at;
    for k in 0..n {
        place = put_listed(out, place, target, rows, k);
    }
    place
}

// Is one of n rows a row of this section?
fn has_listed(rows: &[i64], n: usize) -> bool
    ensures { result ≡ has_listed rows.now n }
{
    said::has_kind(ENTRY, rows, n)
        || said::has_kind(EXTENSION, rows, n)
        || said::has_kind(TRIGGER, rows, n)
        || said::has_kind(LABEL, rows, n)
}

// Writes EXTENSIONS of n rows, or nothing where none belongs there.
pub fn put_extension_section(
    out: &mut [u8],
    at: usize,
    target: Edition,
    rows: &[i64],
    n: usize,
) -> usize
    ensures { Put out.old at (extension_section target rows.now n) result out.new }
{
    if has_listed(rows, n) {
        let body = output::put_bytes(out, at, b"[EXTENSIONS]\n");
        let end = put_all_listed(out, body, target, rows, n);
        return output::put_byte(out, end, b'\n');
    }
    at
}

// References: which class each number of a row refers to, and whether it meets a row there.
#![tactic(auto)]

ghost use Rattle.std.specs.Prelude.{◌≡◌, pos, get_or};
ghost use Rattle.references.specs.References.{duration_ref, block_refs, rf_refs, gradient_refs, extension_ref, entry_refs, ref_at, misses_at, dangles_at};

use finding::Rows;
use shape::Edition;
use tables::{ADC, BLOCK, DELAY, ENTRY, EXTENSION, GRADIENT, INCREMENT, LABEL, RF, SHAPE, TRIGGER};

// The class of a block's second column: a delay in 1.3, a duration and no reference in 1.4.
fn duration_ref(edition: Edition) -> i64
    ensures { result ≡ pos (duration_ref edition) }
{
    match edition {
        Edition::V13 => DELAY,
        Edition::V14 => 0,
    }
}

// The class that number c of a block refers to; 0 is none.
pub fn block_ref(edition: Edition, c: usize) -> i64
    ensures { result ≡ pos (get_or (block_refs edition) c 0) }
{
    match c {
        2 => duration_ref(edition),
        3 => RF,
        4..=6 => GRADIENT,
        7 => ADC,
        8 => ENTRY,
        _ => 0,
    }
}

// The class that number c of an RF event refers to: its magnitude, phase and time are shapes.
fn rf_ref(c: usize) -> i64
    ensures { result ≡ pos (get_or rf_refs c 0) }
{
    match c {
        4..=6 => SHAPE,
        _ => 0,
    }
}

// The class that number c of a gradient refers to: its amplitude and time are shapes.
// A function of its own: one for both would be told the columns that these arms say.
fn gradient_ref(c: usize) -> i64
    ensures { result ≡ pos (get_or gradient_refs c 0) }
{
    match c {
        4 | 5 => SHAPE,
        _ => 0,
    }
}

// The class of the rows that an entry of an extension type refers to, by the code of the extension; 0 where that is unknown.
pub fn extension_ref(rows: Rows, number: i64) -> i64
    ensures { result ≡ extension_ref rows.entry.numbers.now rows.entry.n number }
{
    match rows.met_number(EXTENSION, number, 2) {
        1 => TRIGGER,
        2 => LABEL,
        3 => INCREMENT,
        _ => 0,
    }
}

// The class that number c of an entry refers to, whose type is this.
fn entry_ref(rows: Rows, number: i64, c: usize) -> i64
    ensures { result ≡ get_or (entry_refs rows.entry.numbers.now rows.entry.n number) c (pos 0) }
{
    match c {
        2 => EXTENSION,
        3 => extension_ref(rows, number),
        4 => ENTRY,
        _ => 0,
    }
}

// The class that number c of row k refers to; 0 is none.
pub fn ref_at(edition: Edition, rows: Rows, k: usize, c: usize) -> i64
    ensures { result ≡ ref_at edition rows.entry.numbers.now rows.entry.n k c }
{
    match rows.number(k, 0) {
        BLOCK => block_ref(edition, c),
        RF => rf_ref(c),
        GRADIENT => gradient_ref(c),
        ENTRY => entry_ref(rows, rows.number(k, 2), c),
        _ => 0,
    }
}

// Does number c of row k refer to a row that is not among the n? Most numbers are 0, and ask for none.
fn number_misses(edition: Edition, rows: Rows, k: usize, c: usize) -> bool
    ensures { result ≡ misses_at edition rows.entry.numbers.now rows.entry.n k c }
{
    let id = rows.number(k, c);
    if id == 0 {
        return false;
    }
    let class = ref_at(edition, rows, k, c);
    class != 0 && rows.n <= rows.find_once(class, id)
}

// Does row k refer to a row that is not among the n? Its kind and its ID refer to none.
pub fn dangles(edition: Edition, rows: Rows, k: usize) -> bool
    ensures { result ≡ dangles_at edition rows.entry.numbers.now rows.entry.n k }
{
    for c in 2..12 {
        if number_misses(edition, rows, k, c) {
            return true;
        }
    }
    false
}

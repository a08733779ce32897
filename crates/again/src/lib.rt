// The first row that repeats an ID of its class. Classes whose IDs ascend repeat none; what is met in the others is kept in a set, part by part.
#![tactic(auto)]

ghost use Rattle.std.specs.Prelude.{◌+◌, ◌≤◌, ◌≡◌};
ghost use Rattle.sets.specs.Sets.{kept_of, places_after, unless_new, AllMet};
ghost use Rattle.tables.specs.Tables.{first_such, class_at, is_again, first_again};
ghost use Rattle.again.specs.Noting.{place_of, note_after, noted, is_open, all_ascend, key_of};
ghost use Rattle.again.specs.Inside.{Noted, id_at, key_at, is_asked, again_in};

use sets::Kept;

// What is noted of a class whose IDs do not ascend: no ID is above it.
const ENDED: i64 = i64::MAX;

// Where it is noted of a class what IDs it has, of 13 places: the classes of rows, 0 to 12, have one each.
fn place_of(class: i64) -> usize
    ensures { result ≡ place_of class }
{
    (class.unsigned_abs() % 13) as usize
}

// What is noted of a class behind an ID: the greatest while IDs ascend, then the largest number.
fn note_after(greatest: i64, id: i64) -> i64
    ensures { result ≡ note_after greatest id }
{
    if greatest < id { id } else { ENDED }
}

// Notes an ID in its class.
pub fn note(most: &mut [i64], class: i64, id: i64)
    ensures { most.new ≡ noted most.old class id }
{
    let at = place_of(class);
    if at < most.len() {
        most[at] = note_after(most[at], id);
    }
}

// Is it not noted that the IDs of a class ascend?
pub fn is_open(most: &[i64], class: i64) -> bool
    ensures { result ≡ is_open most.now class }
{
    let at = place_of(class);
    most.len() <= at || most[at] == ENDED
}

// Is it noted of every class that its IDs ascend?
pub fn all_ascend(most: &[i64]) -> bool
    ensures { result ≡ all_ascend most.now }
{
    if most.len() < 13 {
        return false;
    }
    for z in most {
        if *z == ENDED {
            return false;
        }
    }
    true
}

// The number that an ID of a class is kept by.
pub fn key(class: i64, id: i64) -> u64
    ensures { result ≡ key_of class id }
{
    sets::mix(sets::mix(id.unsigned_abs(), class.unsigned_abs()), 0)
}

// Notes the IDs of n rows.
fn note_rows(most: &mut [i64], rows: &[i64], n: usize)
    ensures { Noted (class_at rows.now) (id_at rows.now) most.new n }
{
    for k in 0..n {
        note(most, tables::row_class(rows, k), tables::number(rows, k, 1));
    }
}

// How many of n rows are of open classes, for the choice of parts.
fn count_open(most: &[i64], rows: &[i64], n: usize) -> usize {
    (0..n)
        .filter(|k| is_open(most, tables::row_class(rows, *k)))
        .count()
}

// Is row k of an open class, and its number in a part, of so many?
fn is_asked(most: &[i64], rows: &[i64], k: usize, parts: u64, part: u64) -> bool
    ensures { result ≡ is_asked most.now rows.now parts part k }
{
    let class = tables::row_class(rows, k);
    is_open(most, class) && sets::is_in(key(class, tables::number(rows, k, 1)), parts, part)
}

// Keeps the number of row k. Does the row repeat an ID of its class? It does not if the number is new; else it is looked at.
fn keep_row(set: &mut [u64], rows: &[i64], k: usize) -> bool
    ensures value { result ≡ unless_new (kept_of set.old (key_at rows.now k)) (is_again rows.now k) }
    ensures set_after { set.new ≡ places_after set.old (key_at rows.now k) }
{
    match sets::keep(
        set,
        key(tables::row_class(rows, k), tables::number(rows, k, 1)),
    ) {
        Kept::New => false,
        Kept::Old | Kept::Full => tables::is_again(rows, k),
    }
}

// Does row k, if it is asked for in a part, repeat an ID of its class? Its number is kept then.
fn look_at(set: &mut [u64], most: &[i64], rows: &[i64], k: usize, parts: u64, part: u64) -> bool
    requires { AllMet (key_at rows.now) (is_asked most.now rows.now parts part) set.old k }
    ensures value { result ≡ again_in most.now rows.now parts part k }
    ensures all_met { AllMet (key_at rows.now) (is_asked most.now rows.now parts part) set.new (k + 1) }
{
    is_asked(most, rows, k, parts, part) && keep_row(set, rows, k)
}

// The first of n rows that is asked for in a part and repeats an ID of its class; n if none does.
fn first_kept(set: &mut [u64], most: &[i64], rows: &[i64], n: usize, parts: u64, part: u64) -> usize
    ensures { result ≡ first_such (again_in most.now rows.now parts part) 0 n }
{
    for k in 0..n {
        if look_at(set, most, rows, k, parts, part) {
            return k;
        }
    }
    n
}

// The same, with a set of its own.
fn first_in(most: &[i64], rows: &[i64], n: usize, parts: u64, part: u64) -> usize
    ensures { result ≡ first_such (again_in most.now rows.now parts part) 0 n }
{
    let mut set = [0u64; 32749];
    first_kept(&mut set, most, rows, n, parts, part)
}

// The first of n rows that repeats an ID of its class, by parts; n if none does.
fn first_of_parts(most: &[i64], rows: &[i64], n: usize, parts: u64) -> usize
    requires noted { Noted (class_at rows.now) (id_at rows.now) most.now n }
    requires le_parts { 1 ≤ parts }
    ensures { result ≡ first_again rows.now n }
{
    let mut first = n;
    for part in 0..parts {
        first = first_in(most, rows, first, parts, part);
    }
    first
}

// The first of n rows that has the ID of a row before it in its class; n if none has.
pub fn first_again(rows: &[i64], n: usize) -> usize
    ensures { result ≡ first_again rows.now n }
{
    let mut most = [0i64; 13];
    note_rows(&mut most, rows, n);
    if all_ascend(&most) {
        return n;
    }
    let open = count_open(&most, rows, n);
    first_of_parts(&most, rows, n, 1 + (open / 16384) as u64)
}

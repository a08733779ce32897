// What is met again in a file, from its text alone: an ID or type among its rows, a name among its extensions, a key among its definitions.
#![tactic(auto)]

ghost use Rattle.std.specs.Prelude.{true, ◌&&◌, ◌≡◌, ◌+◌, ◌≤◌, ltb, length};
ghost use Rattle.passing.specs.Sound.{sound_of};
ghost use Rattle.file.specs.Rows.{rows_of};
ghost use Rattle.repeats.specs.Repeats.{next_row, rows_again, duplicate_of};
ghost use Rattle.repeats.specs.Inside.{gives_row, row_given, no_row, same_row, row_number, row_open, stood_before, noted_by, class_no, id_no};
ghost use Rattle.sets.specs.Sets.{kept_of, places_after, unless_new, is_in};
ghost use Rattle.again.specs.Noting.{is_open};
ghost use Rattle.again.specs.Inside.{Noted};
ghost use Rattle.duplicates.specs.Again.{FirstLine};
ghost use Rattle.duplicates.specs.Inside.{AskedAgain, in_part, ask_first, keep_first, row_line};

use places::Stepped;
use sets::Kept;

// Did a line, which gave this, give a row of the class with the ID?
fn gives_row(did: Stepped, class: i64, id: i64) -> bool
    ensures { result ≡ gives_row class id did }
{
    let found = did.found;
    if file::row_count(found) == 0 {
        return false;
    }
    let cells = did.cells;
    tables::is_row_of(&cells, 0, class, id)
}

// The line of the first row of a file that is of the class and has the ID; 0 if none is.
fn line_having(file: &[u8], class: i64, id: i64) -> usize
    ensures { result ≡ next_row class id (rows_of file.now) }
{
    let mut walk = file::walk_start();
    while let Some((_, did)) = walk.step(file) {
        if file::is_fault(did.found) {
            return 0;
        }
        if gives_row(did, class, id) {
            return did.line;
        }
    }
    0
}

// Notes the ID of the row that a line gave, if it gave one.
fn note_row(most: &mut [i64], did: Stepped)
    ensures { most.new ≡ noted_by most.old (row_given did) }
{
    let found = did.found;
    if file::row_count(found) == 0 {
        return;
    }
    let cells = did.cells;
    let class = tables::row_class(&cells, 0);
    let id = tables::number(&cells, 0, 1);
    again::note(most, class, id);
}

// Notes the IDs of all rows of a file.
fn note_rows(most: &mut [i64], file: &[u8])
    ensures { Noted (class_no (rows_of file.now)) (id_no (rows_of file.now)) most.new (length (rows_of file.now)) }
{
    let mut walk = file::walk_start();
    while let Some((_, did)) = walk.step(file) {
        if file::is_fault(did.found) {
            return;
        }
        note_row(most, did);
    }
}

// How many rows of open classes a line gave: one or none.
fn open_count(most: &[i64], did: Stepped) -> usize
    ensures { result ≤ 1 }
{
    let found = did.found;
    if file::row_count(found) == 0 {
        return 0;
    }
    let cells = did.cells;
    if again::is_open(most, tables::row_class(&cells, 0)) {
        return 1;
    }
    0
}

// How many rows of open classes a file has, for the choice of parts.
fn count_open(most: &[i64], file: &[u8]) -> usize {
    let mut walk = file::walk_start();
    let mut count: usize = 0;
    while let Some((_, did)) = walk.step(file) {
        if file::is_fault(did.found) {
            return count;
        }
        count += open_count(most, did);
    }
    count
}

// Does a row of the class with the ID stand before this line?
fn stood_before(file: &[u8], line: usize, class: i64, id: i64) -> bool
    ensures { result ≡ ltb (next_row class id (rows_of file.now)) line }
{
    line_having(file, class, id) < line
}

// Keeps a row of this line by its number. Does one of the class with the ID stand before? None does if the number is new; else it is looked for.
fn keep_row(set: &mut [u64], number: u64, file: &[u8], line: usize, class: i64, id: i64) -> bool
    ensures value { result ≡ unless_new (kept_of set.old number) (ltb (next_row class id (rows_of file.now)) line) }
    ensures set_after { set.new ≡ places_after set.old number }
{
    match sets::keep(set, number) {
        Kept::New => false,
        Kept::Old => stood_before(file, line, class, id),
        Kept::Full => stood_before(file, line, class, id),
    }
}

// Is a class open, and a number in a part, of so many?
fn is_asked(most: &[i64], class: i64, number: u64, parts: u64, part: u64) -> bool
    ensures { result ≡ is_open most.now class && is_in number parts part }
{
    if again::is_open(most, class) {
        return sets::is_in(number, parts, part);
    }
    false
}

// Did a line, which gave this, give a row that is asked for in a part, and that one of its class with its ID stands before? Such a row is kept.
fn gives_again(
    set: &mut [u64],
    most: &[i64],
    file: &[u8],
    did: Stepped,
    parts: u64,
    part: u64,
) -> bool
    ensures value { result ≡ ask_first row_number (in_part row_number (row_open most.now) parts part) (stood_before file.now) set.old (row_given did) }
    ensures set_after { set.new ≡ keep_first row_number (in_part row_number (row_open most.now) parts part) set.old (row_given did) }
{
    let found = did.found;
    if file::row_count(found) == 0 {
        return false;
    }
    let cells = did.cells;
    let class = tables::row_class(&cells, 0);
    let id = tables::number(&cells, 0, 1);
    let number = again::key(class, id);
    if is_asked(most, class, number, parts, part) {
        return keep_row(set, number, file, did.line, class, id);
    }
    false
}

// The first line at which an ID or type that is asked for in a part is met again in its class; 0 if there is none.
fn first_kept(set: &mut [u64], most: &[i64], file: &[u8], parts: u64, part: u64) -> usize
    ensures { FirstLine (AskedAgain row_line no_row same_row (in_part row_number (row_open most.now) parts part) (rows_of file.now)) result }
{
    let mut walk = file::walk_start();
    while let Some((_, did)) = walk.step(file) {
        if file::is_fault(did.found) {
            return 0;
        }
        let row = did.line;
        if gives_again(set, most, file, did, parts, part) {
            return row;
        }
    }
    0
}

// The same, with a set of its own.
fn first_in(most: &[i64], file: &[u8], parts: u64, part: u64) -> usize
    ensures { FirstLine (AskedAgain row_line no_row same_row (in_part row_number (row_open most.now) parts part) (rows_of file.now)) result }
{
    let mut set = [0u64; 32749];
    first_kept(&mut set, most, file, parts, part)
}

// The first line at which an ID or type is met again in its class, by parts; 0 if there is none.
fn first_of_parts(most: &[i64], file: &[u8], parts: u64) -> usize
    requires noted { Noted (class_no (rows_of file.now)) (id_no (rows_of file.now)) most.now (length (rows_of file.now)) }
    requires le_parts { 1 ≤ parts }
    ensures { result ≡ rows_again (rows_of file.now) }
{
    let mut first: usize = 0;
    for part in 0..parts {
        first = duplicates::earlier(first, first_in(most, file, parts, part));
    }
    first
}

// The first line at which an ID or type is met again in its class; 0 if there is none.
pub fn row_again(file: &[u8]) -> usize
    ensures { result ≡ rows_again (rows_of file.now) }
{
    let mut most = [0i64; 13];
    note_rows(&mut most, file);
    if again::all_ascend(&most) {
        return 0;
    }
    let open = count_open(&most, file);
    first_of_parts(&most, file, 1 + (open / 16384) as u64)
}

// The first line at which an ID, a type, a name or a key is met again in its class; 0 if there is none.
pub fn duplicate_line(file: &[u8]) -> usize
    requires { sound_of file.now ≡ true }
    ensures { result ≡ duplicate_of file.now }
{
    let row = row_again(file);
    let word = duplicates::word_again(file);
    duplicates::earlier(row, word)
}

// What is met again in a file: a key among its definitions, a name among its extensions, an ID or type among its rows.
#![tactic(auto)]

ghost use Rattle.std.specs.Prelude.{◌≡◌, ◌+◌, ◌≤◌, true, ltb, length};
ghost use Rattle.file.specs.Marks.{met_walk};
ghost use Rattle.passing.specs.Sound.{sound_of};
ghost use Rattle.sets.specs.Sets.{kept_of, places_after, unless_new};
ghost use Rattle.duplicates.specs.Words.{row_names, once_of, word_of, sort_number, word_at, words_of, next_line, earlier, again_line, duplicate_line};
ghost use Rattle.duplicates.specs.Inside.{names_word, section_with, is_left, words_ahead, AskedAgain, in_part, ask_first, keep_first, word_line, no_word, same_word, number_of, word_number, any_word, stood_before};
ghost use Rattle.duplicates.specs.Again.{FirstLine};

use file::Walk;
use places::{Found, State, Stepped};
use sets::Kept;

// The two sorts of words that may stand once in a file: keys of definitions, and names of extensions.
#[derive(Clone, Copy, PartialEq, Eq)]
pub enum Sort {
    Key,
    Name,
}

// Where the next word may stand: here, or only where EXTENSIONS begins, or nowhere.
#[derive(Clone, Copy)]
enum Ahead {
    Here,
    Names,
    Nowhere,
}

// What a row of this kind names.
fn row_names(kind: i64) -> Option<Sort>
    ensures { result ≡ row_names kind }
{
    if kind == tables::EXTENSION {
        return Some(Sort::Name);
    }
    None
}

// What a line names that gave this.
fn once_of(did: Stepped) -> Option<Sort>
    ensures { result ≡ once_of did }
{
    let found = did.found;
    let kind = did.cells[0];
    match found {
        Found::Nothing => None,
        Found::Row => row_names(kind),
        Found::Definition => Some(Sort::Key),
        Found::Fault(_) => None,
    }
}

// The word of this sort in a line, as a part of it.
fn word_of(line: &[u8], sort: Sort) -> &[u8]
    ensures { result.now ≡ word_of line.now sort }
{
    match sort {
        Sort::Key => fields::field(line, 0),
        Sort::Name => fields::field(line, 1),
    }
}

// The number of a sort.
fn sort_number(sort: Sort) -> u8
    ensures { result ≡ sort_number sort }
{
    match sort {
        Sort::Key => 1,
        Sort::Name => 2,
    }
}

// Does a line, which gave this, name the word?
fn names(line: &[u8], did: Stepped, sort: Sort, word: &[u8]) -> bool
    ensures { result ≡ names_word line.now (once_of did) sort word.now }
{
    match once_of(did) {
        Some(own) => own == sort && text::same(word_of(line, own), word),
        None => false,
    }
}

// The section in which words of this sort stand: DEFINITIONS, or EXTENSIONS.
fn section_with(sort: Sort) -> usize
    ensures { result ≡ section_with sort }
{
    match sort {
        Sort::Key => 2,
        Sort::Name => 8,
    }
}

// Was the section in which words of this sort stand met and left? A section is met once, so no such word is further on.
fn is_left(st: State, sort: Sort) -> bool
    ensures { result ≡ is_left st sort }
{
    let own = section_with(sort);
    let place = st.place;
    if places::section_in(place) == own {
        return false;
    }
    st.seen[own]
}

// Where the next word may stand, from where a walk stands at a place; names stand behind another place, which is 0 if the file has none.
fn words_ahead(st: State, at: usize, names: usize) -> Ahead
    ensures { result ≡ words_ahead st at names }
{
    if !is_left(st, Sort::Key) {
        return Ahead::Here;
    }
    if at < names {
        return Ahead::Names;
    }
    if names == 0 {
        return Ahead::Nowhere;
    }
    if is_left(st, Sort::Name) {
        return Ahead::Nowhere;
    }
    Ahead::Here
}

// The first line of a file that names the word; 0 if none does. Nothing is read behind the section of such words.
fn line_naming(file: &[u8], sort: Sort, word: &[u8]) -> usize
    ensures { result ≡ next_line sort word.now (words_of file.now) }
{
    let mut walk = file::walk_start();
    while !is_left(walk.state, sort) {
        let Some((line, did)) = walk.step(file) else {
            return 0;
        };
        if file::is_fault(did.found) {
            return 0;
        }
        if names(line, did, sort, word) {
            return walk.lines;
        }
    }
    0
}

// The number that a word of a sort is kept by.
fn number_of(sort: Sort, word: &[u8]) -> u64
    ensures { result ≡ number_of sort word.now }
{
    sets::mix(sets::mix_all(sort_number(sort) as u64, word), 0)
}

// Does a line before this one name the word?
fn stood_before(file: &[u8], line: usize, sort: Sort, word: &[u8]) -> bool
    ensures { result ≡ ltb (next_line sort word.now (words_of file.now)) line }
{
    line_naming(file, sort, word) < line
}

// Keeps a word that stands on this line by its number. Does a line before name it? None does if the number is new; else it is looked for.
fn keep_word(
    set: &mut [u64],
    number: u64,
    file: &[u8],
    line: usize,
    sort: Sort,
    word: &[u8],
) -> bool
    ensures value { result ≡ unless_new (kept_of set.old number) (ltb (next_line sort word.now (words_of file.now)) line) }
    ensures set_after { set.new ≡ places_after set.old number }
{
    match sets::keep(set, number) {
        Kept::New => false,
        Kept::Old => stood_before(file, line, sort, word),
        Kept::Full => stood_before(file, line, sort, word),
    }
}

// Does line n, which gave this, name a word that is asked for in a part and stood before? Such a word is kept.
fn names_again(
    set: &mut [u64],
    file: &[u8],
    line: &[u8],
    n: usize,
    did: Stepped,
    parts: u64,
    part: u64,
) -> bool
    ensures value { result ≡ ask_first word_number (in_part word_number any_word parts part) (stood_before file.now) set.old (word_at n line.now did) }
    ensures set_after { set.new ≡ keep_first word_number (in_part word_number any_word parts part) set.old (word_at n line.now did) }
{
    match once_of(did) {
        None => false,
        Some(sort) => {
            let word = word_of(line, sort);
            let number = number_of(sort, word);
            if sets::is_in(number, parts, part) {
                return keep_word(set, number, file, n, sort, word);
            }
            false
        }
    }
}

// The first line at which a word that is asked for in a part is met again; 0 if there is none. Behind DEFINITIONS it goes on where EXTENSIONS begins.
fn first_kept(set: &mut [u64], file: &[u8], names: Walk, parts: u64, part: u64) -> usize
    requires file_value { sound_of file.now ≡ true }
    requires names_value { names ≡ met_walk 8 file.now }
    ensures { FirstLine (AskedAgain word_line no_word same_word (in_part word_number any_word parts part) (words_of file.now)) result }
{
    let mut st = places::start();
    let mut at: usize = 0;
    let mut n: usize = 1;
    // Lines that give no word are passed over unread, which a step of a walk cannot.
    while at < file.len() {
        match words_ahead(st, at, names.at) {
            Ahead::Here => {
                let line = text::next_line(file, at);
                let stop = line.stop;
                let behind = line.next;
                if passing::passes(st, &file[at..stop]) {
                    at = behind;
                    n += 1;
                } else {
                    let did = grammar::step(st, n, &file[at..stop]);
                    if names_again(set, file, &file[at..stop], n, did, parts, part) {
                        return n;
                    }
                    let next = did.next;
                    st = next;
                    at = behind;
                    n += 1;
                }
            }
            Ahead::Names => {
                let there = names.state;
                st = there;
                at = names.at;
                n = names.lines + 1;
            }
            Ahead::Nowhere => {
                return 0;
            }
        }
    }
    0
}

// The same, with a set of its own.
fn first_in(file: &[u8], names: Walk, parts: u64, part: u64) -> usize
    requires file_value { sound_of file.now ≡ true }
    requires names_value { names ≡ met_walk 8 file.now }
    ensures { FirstLine (AskedAgain word_line no_word same_word (in_part word_number any_word parts part) (words_of file.now)) result }
{
    let mut set = [0u64; 32749];
    first_kept(&mut set, file, names, parts, part)
}

// How many words a line names that gave this: one or none.
fn word_count(did: Stepped) -> usize
    ensures { result ≤ 1 }
{
    match once_of(did) {
        None => 0,
        Some(_) => 1,
    }
}

// How many words a file has from where a walk stands to the end of the section in which those of this sort stand, for the choice of parts.
fn count_words(file: &[u8], from: Walk, sort: Sort) -> usize
    requires at_in_bounds { from.at ≤ length file.now }
    requires lines_le_at { from.lines ≤ from.at }
{
    let mut st = from.state;
    let mut at = from.at;
    let mut n = from.lines + 1;
    let mut count: usize = 0;
    // Lines that give no word are passed over unread, which a step of a walk cannot.
    while at < file.len() {
        if is_left(st, sort) {
            return count;
        }
        let line = text::next_line(file, at);
        let stop = line.stop;
        let behind = line.next;
        if passing::passes(st, &file[at..stop]) {
            at = behind;
            n += 1;
        } else {
            let did = grammar::step(st, n, &file[at..stop]);
            count += word_count(did);
            let next = did.next;
            st = next;
            at = behind;
            n += 1;
        }
    }
    count
}

// How many extensions row k names: one or none.
fn name_count(rows: &[i64], k: usize) -> usize
    ensures { result ≤ 1 }
{
    match row_names(tables::number(rows, k, 0)) {
        None => 0,
        Some(_) => 1,
    }
}

// How many of n rows name an extension, for the choice of parts.
fn count_names(rows: &[i64], n: usize) -> usize {
    let mut count: usize = 0;
    for k in 0..n {
        count += name_count(rows, k);
    }
    count
}

// The same, of a file in which EXTENSIONS begins at a place; 0 is none, and then no row is looked at.
fn names_from(place: usize, rows: &[i64], n: usize) -> usize {
    if place == 0 {
        return 0;
    }
    count_names(rows, n)
}

// In how many parts so many keys and names are kept.
fn parts_for(keys: usize, names: usize) -> u64
    ensures { 1 ≤ result }
{
    1 + (keys / 16384 + names / 16384) as u64
}

// The earlier of two lines, where 0 is none.
pub fn earlier(a: usize, b: usize) -> usize
    ensures { result ≡ earlier a b }
{
    if a == 0 {
        return b;
    }
    if b == 0 {
        return a;
    }
    if b < a {
        return b;
    }
    a
}

// The first line at which a key or a name is met again, by parts; 0 if there is none.
fn first_of_parts(file: &[u8], names: Walk, parts: u64) -> usize
    requires le_parts { 1 ≤ parts }
    requires file_value { sound_of file.now ≡ true }
    requires names_value { names ≡ met_walk 8 file.now }
    ensures { result ≡ again_line (words_of file.now) }
{
    let mut first: usize = 0;
    for part in 0..parts {
        first = earlier(first, first_in(file, names, parts, part));
    }
    first
}

// Where EXTENSIONS begins, sought from the front; at the front if a file has none.
fn seek_names(file: &[u8]) -> Walk
    requires { sound_of file.now ≡ true }
    ensures { result ≡ met_walk 8 file.now }
{
    let mut st = places::start();
    let mut at: usize = 0;
    let mut n: usize = 1;
    // Lines that give no word are passed over unread, which a step of a walk cannot.
    while at < file.len() {
        let line = text::next_line(file, at);
        let stop = line.stop;
        let behind = line.next;
        if passing::passes(st, &file[at..stop]) {
            at = behind;
            n += 1;
        } else {
            let did = grammar::step(st, n, &file[at..stop]);
            let next = did.next;
            let place = next.place;
            if places::section_in(place) == 8 {
                return Walk {
                    at: behind,
                    lines: n,
                    state: next,
                };
            }
            st = next;
            at = behind;
            n += 1;
        }
    }
    file::walk_start()
}

// The first line at which a key or a name is met again; 0 if there is none.
pub fn word_again(file: &[u8]) -> usize
    requires { sound_of file.now ≡ true }
    ensures { result ≡ again_line (words_of file.now) }
{
    let names = seek_names(file);
    let keys = count_words(file, file::walk_start(), Sort::Key);
    let parts = parts_for(keys, count_words(file, names, Sort::Name));
    first_of_parts(file, names, parts)
}

// The first line at which a key, a name, or the ID or type of one of n rows is met again in its class; 0 if there is none.
pub fn first_duplicate(file: &[u8], names: Walk, rows: &[i64], n: usize) -> usize
    requires file_value { sound_of file.now ≡ true }
    requires names_value { names ≡ met_walk 8 file.now }
    ensures { result ≡ duplicate_line file.now rows.now n }
{
    let k = again::first_again(rows, n);
    let keys = count_words(file, file::walk_start(), Sort::Key);
    let word = first_of_parts(file, names, parts_for(keys, names_from(names.at, rows, n)));
    if k < n {
        return earlier(file::row_line(file, k), word);
    }
    word
}

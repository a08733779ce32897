// Lines that have a form of their own: labels, `extension` lines, and the two lines of a shape's head.
#![tactic(auto)]

ghost use Rattle.std.specs.Prelude.{◌≡◌, false};
ghost use Rattle.fields.specs.Fields.{fields_of};
ghost use Rattle.text.specs.Words.{place_of};
ghost use Rattle.numeral.specs.Integer.{integer_of, signed_as};
ghost use Rattle.heads.specs.Heads.{label_names, label_value, label_of, label_fields, is_name_byte, is_name, extension_names, extension_of, extension_fields, word_number_of};

use shape::Edition;

// The largest ID, type and counter.
const LARGEST_ID: u64 = 2147483647;

// What a label's line holds: its ID, its value, and the place of its name in the list.
#[derive(Clone, Copy)]
pub struct Label {
    pub id: u64,
    pub value: i64,
    pub label: usize,
}

// What an `extension` line holds: its type, and the code of its name.
#[derive(Clone, Copy)]
pub struct Extension {
    pub number: u64,
    pub code: usize,
}

// A number with no sign, from 0 to `most`.
fn flag_value(field: &[u8], most: u64) -> Option<i64>
    ensures { result ≡ signed_as false (integer_of 0 most field.now) }
{
    let n = numeral::read_integer(field, 0, most)?;
    Some(n as i64)
}

// The value of a label, by its number in the list and whether it is set or incremented.
fn label_value(edition: Edition, increment: bool, label: usize, field: &[u8]) -> Option<i64>
    ensures { result ≡ label_value edition increment label field.now }
{
    match label {
        1..=9 => numeral::read_counter(field, LARGEST_ID),
        10..=12 if !increment => flag_value(field, 1),
        13 if !increment && edition == Edition::V14 => flag_value(field, LARGEST_ID),
        _ => None,
    }
}

// A label's number in the list of thirteen; 0 if it is none of them.
fn label_place(name: &[u8]) -> usize
    ensures { result ≡ place_of label_names name.now }
{
    fields::word_place(
        b"LIN PAR SLC SEG REP AVG SET ECO PHS NAV REV SMS ONCE",
        name,
    )
}

// The three fields of a label's line.
fn label_in(
    edition: Edition,
    increment: bool,
    id: &[u8],
    value: &[u8],
    name: &[u8],
) -> Option<Label>
    ensures { result ≡ label_fields edition increment id.now value.now name.now }
{
    let label = label_place(name);
    let id = numeral::read_integer(id, 1, LARGEST_ID)?;
    let value = label_value(edition, increment, label, value)?;
    Some(Label { id, value, label })
}

// A line of LABELSET, or of LABELINC where `increment` says so: id, value, label.
pub fn read_label(edition: Edition, increment: bool, line: &[u8]) -> Option<Label>
    ensures { result ≡ label_of edition increment (fields_of line.now) }
{
    if fields::field_count(line) != 3 {
        return None;
    }
    label_in(
        edition,
        increment,
        fields::field(line, 0),
        fields::field(line, 1),
        fields::field(line, 2),
    )
}

// A letter, a digit or an underscore.
fn is_name_byte(b: u8) -> bool
    ensures { result ≡ is_name_byte b }
{
    b.is_ascii_alphanumeric() || b == b'_'
}

// The most bytes of a name.
const LONGEST_NAME: usize = 32;

// Is this a name: 1 to 32 letters, digits and underscores?
fn is_name(name: &[u8]) -> bool
    ensures { result ≡ is_name name.now }
{
    !name.is_empty() && name.len() <= LONGEST_NAME && name.iter().all(|b| is_name_byte(*b))
}

// The code of an extension's name: 1 TRIGGERS, 2 LABELSET, 3 LABELINC, 0 any other.
fn extension_code(name: &[u8]) -> usize
    ensures { result ≡ place_of extension_names name.now }
{
    fields::word_place(b"TRIGGERS LABELSET LABELINC", name)
}

// The three fields of an `extension` line.
fn extension_in(word: &[u8], name: &[u8], number: &[u8]) -> Option<Extension>
    ensures { result ≡ extension_fields word.now name.now number.now }
{
    if !text::same(word, b"extension") {
        return None;
    }
    if !is_name(name) {
        return None;
    }
    let number = numeral::read_integer(number, 1, LARGEST_ID)?;
    Some(Extension {
        number,
        code: extension_code(name),
    })
}

// A line `extension NAME type`.
pub fn read_extension(line: &[u8]) -> Option<Extension>
    ensures { result ≡ extension_of (fields_of line.now) }
{
    if fields::field_count(line) != 3 {
        return None;
    }
    extension_in(
        fields::field(line, 0),
        fields::field(line, 1),
        fields::field(line, 2),
    )
}

// A line of a word and a number in a range, as `shape_id N` and `num_samples N`.
pub fn read_word_number(line: &[u8], word: &[u8], low: u64, high: u64) -> Option<u64>
    ensures { result ≡ word_number_of word.now low high (fields_of line.now) }
{
    if fields::field_count(line) != 2 {
        return None;
    }
    if !text::same(fields::field(line, 0), word) {
        return None;
    }
    numeral::read_integer(fields::field(line, 1), low, high)
}

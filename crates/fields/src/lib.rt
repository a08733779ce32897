// Fields of a line, as places in it: the next, how many, which; a line trimmed; and the place of a word among the words of a text.
#![tactic(auto)]

ghost use Rattle.std.specs.Prelude.{◌≡◌, ℕ, List, [], length, get_or};
ghost use Rattle.std.specs.Iterator.{YieldsFirstBy, item_count};
ghost use Rattle.text.specs.Words.{place_of};
ghost use Rattle.fields.specs.Fields.{fields_of, field_at, trimmed_at};

// A part of a line, from `start` to before `stop`.
#[derive(Clone, Copy)]
pub struct Part {
    pub start: usize,
    pub stop: usize,
}

// The first field from `at` on; empty where there is none.
pub fn next_field(line: &[u8], at: usize) -> Part
    ensures { result ≡ field_at line.now at }
{
    let start = text::skip(line, at);
    for stop in start..line.len() {
        if text::is_blank(line[stop]) {
            return Part { start, stop };
        }
    }
    Part {
        start,
        stop: line.len().max(start),
    }
}

// The fields of what is left of a line, one after the other.
#[derive(Drop)]
struct FieldsIn<'a>(&'a [u8]);

impl<'a> Iterator for FieldsIn<'a> {
    type Item = &'a [u8];

    ghost next_gives = { YieldsFirstBy (λ r. r.now) (λ s. fields_of s.0.now) };

    ghost remaining = { item_count (λ s. fields_of s.0.now) };

    // The next field; what is left of the line is what stands behind it.
    fn next(&mut self) -> Option<&'a [u8]> {
        let line = self.0;
        let Part { start, stop } = next_field(line, 0);
        if line.len() <= start {
            return None;
        }
        self.0 = &line[stop..];
        Some(&line[start..stop])
    }
}

// How many fields a line has.
pub fn field_count(line: &[u8]) -> usize
    ensures { result ≡ length (fields_of line.now) }
{
    FieldsIn(line).count()
}

// The k-th field of a line, from 0; empty where there is none.
pub fn field(line: &[u8], k: usize) -> &[u8]
    ensures { result.now ≡ get_or (fields_of line.now) k [] }
{
    FieldsIn(line).nth(k).unwrap_or(&line[..0])
}

// What stands from `at` on, without the blanks around it.
pub fn trim(line: &[u8], at: usize) -> Part
    ensures { result ≡ trimmed_at line.now at }
{
    let start = text::skip(line, at);
    let mut stop = start;
    for i in start..line.len() {
        if !text::is_blank(line[i]) {
            stop = i + 1;
        }
    }
    Part { start, stop }
}

// Where a word stands among the fields of a line, from 1; 0 if it is none of them.
pub fn word_place(words: &[u8], word: &[u8]) -> usize
    ensures { result ≡ place_of (fields_of words.now) word.now }
{
    match FieldsIn(words).position(|field| text::same(field, word)) {
        None => 0,
        Some(k) => k + 1,
    }
}

// Texts: their lines, what kind of line one is, whether it may stand in a file, and whether two texts are the same.
// Everything is a place in a slice: nothing is copied.
#![tactic(auto)]

ghost use Rattle.std.specs.Prelude.{◌<◌, true, ◌≡◌, length, get_or};
ghost use Rattle.text.specs.Lines.{line_at};
ghost use Rattle.text.specs.Marks.{is_blank, mark_of, is_control, any_control, breaks_line, cut_at};
ghost use Rattle.text.specs.Blanks.{skipped};
ghost use Rattle.text.specs.Words.{same_bytes};

// The most bytes that a line may have.
pub const LONGEST: usize = 1024;

// A line that starts at a place: where its text stops, and where the next line starts.
#[derive(Clone, Copy)]
pub struct Line {
    pub stop: usize,
    pub next: usize,
}

// The same, and whether the line holds no byte that only a comment may hold.
#[derive(Clone, Copy)]
pub struct Piece {
    pub stop: usize,
    pub next: usize,
    pub clean: bool,
}

// What a line is by its first nonblank byte.
#[derive(Clone, Copy, PartialEq, Eq)]
pub enum Mark {
    Blank,
    Comment,
    Section,
    Plain,
}

// The line that starts at `at`: up to the first LF. A CR just before it belongs to the end.
pub fn next_line(text: &[u8], at: usize) -> Line
    ensures { result ≡ line_at text.now at }
{
    for i in at..text.len() {
        if text[i] == b'\n' {
            let stop = if at < i && text[i - 1] == b'\r' {
                i - 1
            } else {
                i
            };
            return Line { stop, next: i + 1 };
        }
    }
    let end = text.len().max(at);
    Line {
        stop: end,
        next: end,
    }
}

// Space or tab.
pub fn is_blank(b: u8) -> bool
    ensures { result ≡ is_blank b }
{
    b == b' ' || b == b'\t'
}

// The first place from `at` on that is not blank, or the end.
pub fn skip(line: &[u8], at: usize) -> usize
    ensures { result ≡ skipped line.now at }
{
    for i in at..line.len() {
        if !is_blank(line[i]) {
            return i;
        }
    }
    line.len().max(at)
}

// What kind of line this is.
pub fn mark_of(line: &[u8]) -> Mark
    ensures { result ≡ mark_of line.now }
{
    match line.get(skip(line, 0)) {
        None => Mark::Blank,
        Some(b'#') => Mark::Comment,
        Some(b'[') => Mark::Section,
        Some(_) => Mark::Plain,
    }
}

// A byte that no line may hold outside a comment.
fn is_control(b: u8) -> bool
    ensures { result ≡ is_control b }
{
    (b < 32 && b != b'\t') || b == 127
}

// Does the line hold such a byte?
fn has_control(line: &[u8]) -> bool
    ensures { result ≡ any_control line.now }
{
    line.iter().any(|b| is_control(*b))
}

// The line that starts at a control byte: it is clean if that byte is of its end.
fn cut_control(text: &[u8], at: usize) -> Piece
    requires at_in_bounds { at < length text.now }
    requires at_value { is_control (get_or text.now at 0) ≡ true }
    ensures { result ≡ cut_at text.now at }
{
    let line = next_line(text, at);
    Piece {
        stop: line.stop,
        next: line.next,
        clean: line.stop == at,
    }
}

// The line that starts at `at`, as next_line finds it, and whether it is clean, in one walk.
pub fn cut_line(text: &[u8], at: usize) -> Piece
    ensures { result ≡ cut_at text.now at }
{
    for i in at..text.len() {
        if is_control(text[i]) {
            return cut_control(text, i);
        }
    }
    let end = text.len().max(at);
    Piece {
        stop: end,
        next: end,
        clean: true,
    }
}

// Is this line refused by LINE?
pub fn breaks_line(line: &[u8]) -> bool
    ensures { result ≡ breaks_line line.now }
{
    LONGEST < line.len() || (mark_of(line) != Mark::Comment && has_control(line))
}

// Is this part the word, byte for byte?
pub fn same(part: &[u8], word: &[u8]) -> bool
    ensures { result ≡ same_bytes part.now word.now }
{
    part == word
}

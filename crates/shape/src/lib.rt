// The parts of a shape: the editions, what a stored line holds, how many values the lines hold, whether these are the samples themselves, the
// sample that a value makes of the sum so far, and what expanding can answer.
#![tactic(auto)]

ghost use Rattle.std.specs.Prelude.{false, not, ◌≡◌, ◌<◌};
ghost use Rattle.text.specs.Marks.{any_control, breaks_line};
ghost use Rattle.fields.specs.Fields.{fields_of};
ghost use Rattle.decimals.specs.Inside.{large};
ghost use Rattle.shape.specs.Stored.{fields_item, item_of, held_at, count_of};
ghost use Rattle.shape.specs.Inside.{stands_at, GatheredFrom, SpelledFrom, SignFrom, AloneAt};
ghost use Rattle.shape.specs.Samples.{add_of, is_plain};
ghost use Rattle.shape.specs.Answers.{number_of, used_of};

use numeral::Decimal;
use text::Mark;

// From here on a number has its 18 digits.
const FULL: u64 = 100_000_000_000_000_000;

// The largest sample, 100,000 in steps of 10^-12.
const FARTHEST: u64 = 100_000_000_000_000_000;

// The rules that a file follows: those of 1.3.0 and 1.3.1, or those of 1.4.0 and 1.4.1.
#[derive(Clone, Copy, PartialEq, Eq)]
pub enum Edition {
    V13,
    V14,
}

// Why stored lines are not expanded: the refusals FIELD, SHAPE and ROOM.
#[derive(Clone, Copy, PartialEq, Eq)]
pub enum Unexpanded {
    Field,
    Shape,
    Room,
}

// What expanding answers: how many samples, or why there are none.
pub type Expanded = Result<usize, Unexpanded>;

// The paper's number of what expanding answers.
pub fn number_of(expanded: Expanded) -> u64
    ensures { result ≡ number_of expanded }
{
    match expanded {
        Ok(_) => 0,
        Err(Unexpanded::Field) => 5,
        Err(Unexpanded::Shape) => 11,
        Err(Unexpanded::Room) => 7,
    }
}

// How many samples expanding gives.
pub fn used_of(expanded: Expanded) -> usize
    ensures { result ≡ used_of expanded }
{
    expanded.unwrap_or(0)
}

// What a stored line holds.
#[derive(Clone, Copy)]
pub enum Item {
    Value(Decimal),
    Skipped,
    Bad,
}

// A stored line: what it holds, and where the next line starts.
#[derive(Clone, Copy)]
pub struct Held {
    pub item: Item,
    pub next: usize,
}

// Digits of a text: what they are worth behind a number in front of them, and the place behind them.
#[derive(Clone, Copy)]
struct Digits {
    v: u64,
    stop: usize,
}

// A number without a sign and an exponent: what its digits are worth, how many they are, how many of them stand behind the point, and the place
// behind them all.
#[derive(Clone, Copy)]
struct Spelled {
    v: u64,
    count: usize,
    behind: usize,
    stop: usize,
}

// What the one field of a line holds; a line with none or with more is at fault. Of a plain line that may stand in a file this is what it holds.
pub fn plain_item(line: &[u8]) -> Item
    ensures { result ≡ fields_item (fields_of line.now) }
{
    let field = fields::next_field(line, 0);
    if line.len() <= field.start {
        return Item::Bad;
    }
    let second = fields::next_field(line, field.stop);
    if second.start < line.len() {
        return Item::Bad;
    }
    match decimals::read_decimal(&line[field.start..field.stop]) {
        Some(d) => Item::Value(d),
        None => Item::Bad,
    }
}

// What a stored line holds that LINE does not refuse: a comment is skipped, and anything else that is not one decimal is at fault.
fn clean_item(line: &[u8]) -> Item
    requires { breaks_line line.now ≡ false }
    ensures { result ≡ item_of line.now }
{
    match text::mark_of(line) {
        Mark::Comment => Item::Skipped,
        Mark::Plain => plain_item(line),
        Mark::Blank | Mark::Section => Item::Bad,
    }
}

// What a stored line holds.
fn line_item(line: &[u8]) -> Item
    ensures { result ≡ item_of line.now }
{
    if text::breaks_line(line) {
        return Item::Bad;
    }
    clean_item(line)
}

// What a stored line holds that was cut off and found clean or not.
fn cut_item(line: &[u8], clean: bool) -> Item
    requires { clean ≡ not (any_control line.now) }
    ensures { result ≡ item_of line.now }
{
    if clean && line.len() <= text::LONGEST {
        return clean_item(line);
    }
    line_item(line)
}

// Does this byte stand at a place?
fn stands_at(text: &[u8], at: usize, b: u8) -> bool
    ensures { result ≡ stands_at text.now at b }
{
    at < text.len() && text[at] == b
}

// Gathers the digits from a place on behind v, up to another byte or to 18 digits.
fn gather(text: &[u8], at: usize, v: u64) -> Digits
    requires { v < large }
    ensures { GatheredFrom text.now at v result }
{
    let mut w = v;
    for i in at..text.len() {
        let b = text[i];
        if !b.is_ascii_digit() || FULL <= w {
            return Digits { v: w, stop: i };
        }
        w = w * 10 + u64::from(b - b'0');
    }
    Digits {
        v: w,
        stop: text.len().max(at),
    }
}

// Digits from a place on, with a point among them or not.
fn spell(text: &[u8], start: usize) -> Spelled
    ensures { SpelledFrom text.now start result }
{
    let whole = gather(text, start, 0);
    let point = whole.stop;
    if stands_at(text, point, b'.') {
        let Digits { v, stop } = gather(text, point + 1, whole.v);
        return Spelled {
            v,
            count: stop - start - 1,
            behind: stop - point - 1,
            stop,
        };
    }
    Spelled {
        v: whole.v,
        count: point - start,
        behind: 0,
        stop: point,
    }
}

// The line that starts at a place and whose digits start at another, behind a minus or none, if they are all that it holds.
fn signed_value(minus: bool, text: &[u8], at: usize, start: usize) -> Option<Held>
    requires { SignFrom text.now at start minus }
    ensures { AloneAt text.now at result }
{
    let number = spell(text, start);
    let stop = number.stop;
    if number.count == 0 || 32 < stop - at || !stands_at(text, stop, b'\n') {
        return None;
    }
    let d = decimals::pointed(minus, number.v, number.behind)?;
    Some(Held {
        item: Item::Value(d),
        next: stop + 1,
    })
}

// The line that starts at a place, if a value stands there alone without an exponent. Most stored lines are such.
fn quick_value(text: &[u8], at: usize) -> Option<Held>
    ensures { AloneAt text.now at result }
{
    if stands_at(text, at, b'-') {
        return signed_value(true, text, at, at + 1);
    }
    signed_value(false, text, at, at)
}

// The stored line that starts at a place, cut off first.
fn cut_held(text: &[u8], at: usize) -> Held
    ensures { result ≡ held_at text.now at }
{
    if text.len() <= at {
        return Held {
            item: Item::Bad,
            next: at,
        };
    }
    let line = text::cut_line(text, at);
    Held {
        item: cut_item(&text[at..line.stop], line.clean),
        next: line.next,
    }
}

// The stored line that starts at a place: what it holds, and where the next line starts.
pub fn item_at(text: &[u8], at: usize) -> Held
    ensures { result ≡ held_at text.now at }
{
    match quick_value(text, at) {
        Some(held) => held,
        None => cut_held(text, at),
    }
}

// How many values the lines hold, if none is at fault.
pub fn count_values(stored: &[u8]) -> Option<usize>
    ensures { result ≡ count_of stored.now }
{
    let mut at = 0;
    let mut n = 0;
    // Each line says itself where the next one starts.
    while at < stored.len() {
        let line = item_at(stored, at);
        match line.item {
            Item::Value(_) => n += 1,
            Item::Skipped => {}
            Item::Bad => return None,
        }
        at = line.next;
    }
    Some(n)
}

// Are so many stored values the samples themselves?
pub fn is_plain(edition: Edition, num: usize, count: usize) -> bool
    ensures { result ≡ is_plain edition num count }
{
    edition == Edition::V14 && count == num
}

// The sample that a value makes of the sum so far, if both are within their limits.
pub fn add_value(sum: i64, d: Decimal) -> Option<i64>
    ensures { result ≡ add_of sum d }
{
    signed::plus(sum, numeral::rounded(d)?, FARTHEST)
}

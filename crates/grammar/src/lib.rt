// One line of a file where the file stands: what it gives, and where the file stands behind it.
#![tactic(auto)]

ghost use Rattle.std.specs.Prelude.{◌≡◌, pos, ◌∷◌, false, not, ◌≤◌, replicate};
ghost use Rattle.grammar.specs.Definitions.{value_of, value_part};
ghost use Rattle.grammar.specs.Steps.{gave_of, defined_of, blank_step, definition_step, row_step, label_step, listed_of, extension_step, listed_step, extensions_step, head_step, counted_of, count_step, value_row, lines_step, plain_step, step_of, read_at};
ghost use Rattle.shape.specs.Stored.{item_of};
ghost use Rattle.fields.specs.Fields.{fields_of};
ghost use Rattle.text.specs.Marks.{any_control, breaks_line, mark_of};

use columns::Form;
use fields::Part;
use places::{Fault, Found, Lines, Listed, Place, State, Stepped};
use shape::Item;
use text::Mark;

// A line that was read where it stands, and where the next line starts.
#[derive(Clone, Copy)]
pub struct Read {
    pub did: Stepped,
    pub next: usize,
}

// The largest ID.
const LARGEST_ID: u64 = 2147483647;

// The most samples that a shape may have.
const MOST_SAMPLES: u64 = 1000000;

// The largest number of a row, where counting samples stops.
const LARGEST: u64 = 9223372036854775807;

// A line that is a definition.
fn defined(next: State) -> Stepped
    ensures { result ≡ defined_of next }
{
    Stepped {
        found: Found::Definition,
        line: 0,
        cells: [0i64; 12],
        next,
    }
}

// A line that gives a row.
fn gave(next: State, line: usize, cells: [i64; 12]) -> Stepped
    ensures { result ≡ gave_of next line cells }
{
    Stepped {
        found: Found::Row,
        line,
        cells,
        next,
    }
}

// A blank line: it ends a shape, and means nothing elsewhere.
fn blank_step(st: State) -> Stepped
    ensures { result ≡ blank_step st st.place }
{
    let place = st.place;
    match place {
        Place::Start => places::went(st),
        Place::Version(_) => places::went(st),
        Place::Section(_) => places::went(st),
        Place::Extensions(_) => places::went(st),
        Place::Head(_, _) => places::refused(st, Fault::Field),
        Place::Values => places::went(places::moved(st, Place::Section(Lines::Shapes))),
        Place::Signature => places::went(st),
    }
}

// Where the value of a definition stands: behind the first field, without the blanks around it.
pub fn value_part(line: &[u8]) -> Part
    ensures { result ≡ value_part line.now }
{
    let key = fields::next_field(line, 0);
    fields::trim(line, key.stop)
}

// The value of a definition: what stands behind the first field, without the blanks around it.
pub fn value(line: &[u8]) -> &[u8]
    ensures { result.now ≡ value_of line.now }
{
    let part = value_part(line);
    let start = part.start;
    let stop = part.stop;
    &line[start..stop]
}

// A line of DEFINITIONS.
fn definition_step(st: State, line: &[u8]) -> Stepped
    ensures { result ≡ definition_step st line.now }
{
    if value(line).len() == 0 {
        return places::refused(st, Fault::Field);
    }
    defined(st)
}

// A line of a section that is read by its columns.
fn row_step(st: State, n: usize, form: Form, line: &[u8]) -> Stepped
    ensures { result ≡ row_step st n form (fields_of line.now) }
{
    match rows::read_row(st.edition, form, line) {
        Some(cells) => gave(st, n, cells),
        None => places::refused(st, Fault::Field),
    }
}

// A row of at most four numbers behind its kind.
fn gave_four(next: State, n: usize, kind: i64, a: i64, b: i64, c: i64, d: i64) -> Stepped
    ensures { result ≡ gave_of next n (kind ∷ a ∷ b ∷ c ∷ d ∷ replicate 7 (pos 0)) }
{
    gave(next, n, [kind, a, b, c, d, 0, 0, 0, 0, 0, 0, 0])
}

// A line of LABELSET, or of LABELINC where `increment` says so.
fn label_step(st: State, n: usize, increment: bool, line: &[u8]) -> Stepped
    ensures { result ≡ label_step st n increment (fields_of line.now) }
{
    let Some(label) = heads::read_label(st.edition, increment, line) else {
        return places::refused(st, Fault::Field);
    };
    let number = signed::with_sign(false, label.id);
    let which = signed::with_sign(false, label.label as u64);
    gave_four(st, n, 10, number, increment as i64, label.value, which)
}

// What the lines behind an `extension` line are, by the code of its name.
fn listed_of(code: usize) -> Listed
    ensures { result ≡ listed_of code }
{
    match code {
        1 => Listed::Triggers,
        2 => Listed::Labels(false),
        3 => Listed::Labels(true),
        _ => Listed::Unknown,
    }
}

// A line that begins with the word `extension`.
fn extension_step(st: State, n: usize, line: &[u8]) -> Stepped
    ensures { result ≡ extension_step st n (fields_of line.now) }
{
    let Some(extension) = heads::read_extension(line) else {
        return places::refused(st, Fault::Field);
    };
    let next = places::moved(st, Place::Extensions(listed_of(extension.code)));
    let kind = signed::with_sign(false, extension.number);
    let which = signed::with_sign(false, extension.code as u64);
    gave_four(next, n, 8, kind, which, 0, 0)
}

// A row in EXTENSIONS: an entry, or a row of the extension that was named last; those of an unknown one are skipped.
fn listed_step(st: State, n: usize, listed: Listed, line: &[u8]) -> Stepped
    ensures { result ≡ listed_step st n (fields_of line.now) listed }
{
    match listed {
        Listed::Entries => row_step(st, n, Form::Entry, line),
        Listed::Triggers => row_step(st, n, Form::Trigger, line),
        Listed::Labels(increment) => label_step(st, n, increment, line),
        Listed::Unknown => places::went(st),
    }
}

// A line of EXTENSIONS.
fn extensions_step(st: State, n: usize, listed: Listed, line: &[u8]) -> Stepped
    ensures { result ≡ extensions_step st n (fields_of line.now) listed }
{
    if text::same(fields::field(line, 0), b"extension") {
        return extension_step(st, n, line);
    }
    listed_step(st, n, listed, line)
}

// The first line of a shape.
fn head_step(st: State, n: usize, line: &[u8]) -> Stepped
    ensures { result ≡ head_step st n (fields_of line.now) }
{
    match heads::read_word_number(line, b"shape_id", 1, LARGEST_ID) {
        Some(id) => {
            let number = signed::with_sign(false, id);
            places::went(places::moved(st, Place::Head(number, n)))
        }
        None => places::refused(st, Fault::Field),
    }
}

// The state behind the head of a shape with so many samples.
fn counted(st: State, num: u64) -> State
    requires { num ≤ 1000000 }
    ensures { result ≡ counted_of st num }
{
    let edition = st.edition;
    let seen = st.seen;
    let mut samples = LARGEST;
    if st.samples < LARGEST - num {
        samples = st.samples + num;
    }
    State {
        place: Place::Values,
        edition,
        seen,
        samples,
    }
}

// The second line of a shape, whose ID and first line are these.
fn count_step(st: State, id: i64, n: usize, line: &[u8]) -> Stepped
    ensures { result ≡ count_step st id n (fields_of line.now) }
{
    match heads::read_word_number(line, b"num_samples", 1, MOST_SAMPLES) {
        Some(num) => {
            let place = signed::with_sign(false, st.samples);
            let size = signed::with_sign(false, num);
            gave_four(counted(st, num), n, 11, id, size, place, 0)
        }
        None => places::refused(st, Fault::Field),
    }
}

// A plain line among the values of a shape.
fn value_step(st: State, line: &[u8]) -> Stepped
    requires line_value { breaks_line line.now ≡ false }
    requires line_value_2 { mark_of line.now ≡ Mark.Plain }
    ensures { result ≡ value_row st (item_of line.now) }
{
    match shape::plain_item(line) {
        Item::Value(_) => places::went(st),
        Item::Skipped => places::went(st),
        Item::Bad => places::refused(st, Fault::Field),
    }
}

// A line of a section, by what its lines are.
fn lines_step(st: State, n: usize, lines: Lines, line: &[u8]) -> Stepped
    ensures { result ≡ lines_step st n line.now lines }
{
    match lines {
        Lines::None => places::refused(st, Fault::Version),
        Lines::Definitions => definition_step(st, line),
        Lines::Rows(form) => row_step(st, n, form, line),
        Lines::Shapes => head_step(st, n, line),
    }
}

// A line that is no comment, not blank and no section line.
fn plain_step(st: State, n: usize, line: &[u8]) -> Stepped
    requires line_value { breaks_line line.now ≡ false }
    requires line_value_2 { mark_of line.now ≡ Mark.Plain }
    ensures { result ≡ plain_step st n line.now st.place }
{
    let place = st.place;
    match place {
        Place::Start => places::refused(st, Fault::Version),
        Place::Version(due) => sections::version_step(st, due, line),
        Place::Section(lines) => lines_step(st, n, lines, line),
        Place::Extensions(listed) => extensions_step(st, n, listed, line),
        Place::Head(id, head) => count_step(st, id, head, line),
        Place::Values => value_step(st, line),
        Place::Signature => places::went(st),
    }
}

// Line n where a file stands, if LINE does not refuse it.
pub fn step_clean(st: State, n: usize, line: &[u8]) -> Stepped
    requires { breaks_line line.now ≡ false }
    ensures { result ≡ step_of st n line.now }
{
    match text::mark_of(line) {
        Mark::Comment => places::went(st),
        Mark::Blank => blank_step(st),
        Mark::Section => sections::section_step(st, line),
        Mark::Plain => plain_step(st, n, line),
    }
}

// Line n where a file stands.
pub fn step(st: State, n: usize, line: &[u8]) -> Stepped
    ensures { result ≡ step_of st n line.now }
{
    if text::breaks_line(line) {
        return places::refused(st, Fault::Line);
    }
    step_clean(st, n, line)
}

// Line n where a file stands, which was cut off and found clean or not.
pub fn step_cut(st: State, n: usize, line: &[u8], clean: bool) -> Stepped
    requires { clean ≡ not (any_control line.now) }
    ensures { result ≡ step_of st n line.now }
{
    if clean {
        if line.len() <= 1024 {
            return step_clean(st, n, line);
        }
    }
    step(st, n, line)
}

// Line n of a file, which starts at a place, cut off; past the end of the file it is empty.
fn cut_step(st: State, n: usize, text: &[u8], at: usize) -> Read
    ensures { result ≡ read_at st n text.now at }
{
    let line = text::cut_line(text, at);
    let stop = line.stop;
    let next = line.next;
    if text.len() < stop {
        let did = step(st, n, &text[..0]);
        return Read { did, next };
    }
    let did = step_cut(st, n, &text[at..stop], line.clean);
    Read { did, next }
}

// Line n of a file, which starts at a place, where the file stands. A stored value is read at once.
fn read_stored(st: State, n: usize, text: &[u8], at: usize) -> Read
    ensures { result ≡ read_at st n text.now at }
{
    let place = st.place;
    if let Place::Values = place {
        let held = shape::item_at(text, at);
        let item = held.item;
        if let Item::Value(_) = item {
            let did = places::went(st);
            return Read {
                did,
                next: held.next,
            };
        }
    }
    cut_step(st, n, text, at)
}

// Line n of a file, which starts at a place, where the file stands. Most lines are rows or stored values, which are read as such at once.
pub fn read_line(st: State, n: usize, text: &[u8], at: usize) -> Read
    ensures { result ≡ read_at st n text.now at }
{
    let place = st.place;
    if let Place::Section(lines) = place {
        if let Lines::Rows(form) = lines {
            let line = rows::line_row(st.edition, form, text, at);
            if let Some(cells) = line.row {
                return Read {
                    did: gave(st, n, cells),
                    next: line.next,
                };
            }
        }
    }
    read_stored(st, n, text, at)
}

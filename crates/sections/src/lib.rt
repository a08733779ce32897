// Section lines where a file stands, and the rows of VERSION.
#![tactic(auto)]

ghost use Rattle.std.specs.Prelude.{◌≡◌, ◌<◌};
ghost use Rattle.fields.specs.Fields.{fields_of};
ghost use Rattle.places.specs.Places.{went_of};
ghost use Rattle.sections.specs.Sections.{has_section, section_no, place_in};
ghost use Rattle.sections.specs.Entering.{may_enter, entered, enter_of, early_section, section_at, section_step};
ghost use Rattle.sections.specs.Version.{version_row, edition_of, minor_row, version_step};

use columns::Form;
use places::{Due, Fault, Lines, Listed, Place, State, Stepped};
use shape::Edition;

// The section that a line names: its number, or 0.
fn section_no(line: &[u8]) -> usize
    ensures { result ≡ section_no line.now }
{
    let part = fields::trim(line, 0);
    let start = part.start;
    let stop = part.stop;
    fields::word_place(
        b"[VERSION] [DEFINITIONS] [BLOCKS] [RF] [GRADIENTS] [TRAP] [ADC] [EXTENSIONS] [SHAPES] [DELAYS] [SIGNATURE]",
        &line[start..stop],
    )
}

// Does an edition have this section behind VERSION?
fn has_section(edition: Edition, k: usize) -> bool
    ensures { result ≡ has_section edition k }
{
    if k < 2 {
        return false;
    }
    if k < 10 {
        return true;
    }
    match edition {
        Edition::V13 => k == 10,
        Edition::V14 => k == 11,
    }
}

// What the lines of a section are.
fn place_in(k: usize) -> Place
    ensures { result ≡ place_in k }
{
    match k {
        2 => Place::Section(Lines::Definitions),
        3 => Place::Section(Lines::Rows(Form::Block)),
        4 => Place::Section(Lines::Rows(Form::Rf)),
        5 => Place::Section(Lines::Rows(Form::Gradient)),
        6 => Place::Section(Lines::Rows(Form::Trap)),
        7 => Place::Section(Lines::Rows(Form::Adc)),
        8 => Place::Extensions(Listed::Entries),
        9 => Place::Section(Lines::Shapes),
        10 => Place::Section(Lines::Rows(Form::Delay)),
        _ => Place::Signature,
    }
}

// May this section begin here: is it of this edition, and new?
fn may_enter(st: State, k: usize) -> bool
    ensures { result ≡ may_enter st k }
{
    let edition = st.edition;
    if !has_section(edition, k) {
        return false;
    }
    !st.seen[k]
}

// Begins a section: the file stands there, and has met it.
fn begin(st: State, k: usize, place: Place) -> Stepped
    requires { k < 12 }
    ensures { result ≡ went_of (entered st k place) }
{
    let mut next = places::moved(st, place);
    next.seen[k] = true;
    places::went(next)
}

// A section line where a section may begin.
fn enter(st: State, k: usize) -> Stepped
    ensures { result ≡ enter_of st k }
{
    if may_enter(st, k) {
        return begin(st, k, place_in(k));
    }
    places::refused(st, Fault::Section)
}

// A section line before `[VERSION]`.
fn first_section(st: State, k: usize) -> Stepped
    ensures { result ≡ section_at st k Place.Start }
{
    if k == 1 {
        return begin(st, 1, Place::Version(Due::Major));
    }
    places::refused(st, Fault::Version)
}

// A section line where `num_samples` is due.
fn early_section(st: State, k: usize) -> Stepped
    ensures { result ≡ early_section st k }
{
    if may_enter(st, k) {
        return places::refused(st, Fault::Field);
    }
    places::refused(st, Fault::Section)
}

// A section line.
pub fn section_step(st: State, line: &[u8]) -> Stepped
    ensures { result ≡ section_step st line.now }
{
    let k = section_no(line);
    let place = st.place;
    match place {
        Place::Start => first_section(st, k),
        Place::Version(_) => places::refused(st, Fault::Version),
        Place::Section(_) => enter(st, k),
        Place::Extensions(_) => enter(st, k),
        Place::Head(_, _) => early_section(st, k),
        Place::Values => enter(st, k),
        Place::Signature => places::refused(st, Fault::Section),
    }
}

// A row of VERSION that was read, and the state behind it.
fn version_row(st: State, next: State, number: Option<u64>) -> Stepped
    ensures { result ≡ version_row st next number }
{
    match number {
        Some(_) => places::went(next),
        None => places::refused(st, Fault::Version),
    }
}

// The edition of a minor number.
fn edition_of(minor: u64) -> Edition
    ensures { result ≡ edition_of minor }
{
    if minor == 3 {
        return Edition::V13;
    }
    Edition::V14
}

// The row `minor`, which tells the edition.
fn minor_row(st: State, number: Option<u64>) -> Stepped
    ensures { result ≡ minor_row st number }
{
    match number {
        Some(v) => {
            let seen = st.seen;
            let samples = st.samples;
            places::went(State {
                place: Place::Version(Due::Revision),
                edition: edition_of(v),
                seen,
                samples,
            })
        }
        None => places::refused(st, Fault::Version),
    }
}

// A line of VERSION where this row is due.
pub fn version_step(st: State, due: Due, line: &[u8]) -> Stepped
    ensures { result ≡ version_step st (fields_of line.now) due }
{
    match due {
        Due::Major => version_row(
            st,
            places::moved(st, Place::Version(Due::Minor)),
            heads::read_word_number(line, b"major", 1, 1),
        ),
        Due::Minor => minor_row(st, heads::read_word_number(line, b"minor", 3, 4)),
        Due::Revision => version_row(
            st,
            places::moved(st, Place::Section(Lines::None)),
            heads::read_word_number(line, b"revision", 0, 1),
        ),
    }
}

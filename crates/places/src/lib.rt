// Where a file stands: the place, its edition and what it has met; what a line may give there; where a file begins and how it may end.
#![tactic(auto)]

ghost use Rattle.std.specs.Prelude.{◌≡◌};
ghost use Rattle.places.specs.Places.{fault_number, lines_section, section_in, went_of, refused_of, moved_of, fresh, ending_of};

use columns::Form;
use shape::Edition;

// The row of VERSION that is due.
#[derive(Clone, Copy)]
pub enum Due {
    Major,
    Minor,
    Revision,
}

// What the lines of a section are; behind VERSION's three rows there are none.
#[derive(Clone, Copy)]
pub enum Lines {
    None,
    Definitions,
    Rows(Form),
    Shapes,
}

// What the lines of EXTENSIONS are: entries, then rows of the extension that was named last; of labels, whether they are incremented.
#[derive(Clone, Copy)]
pub enum Listed {
    Entries,
    Triggers,
    Labels(bool),
    Unknown,
}

// Where in a file a line stands.
#[derive(Clone, Copy)]
pub enum Place {
    Start,
    Version(Due),
    Section(Lines),
    Extensions(Listed),
    Head(i64, usize),
    Values,
    Signature,
}

// The refusals of a single line.
#[derive(Clone, Copy)]
pub enum Fault {
    Line,
    Version,
    Section,
    Field,
}

impl Fault {
    // The paper's number of this refusal.
    pub fn number(self) -> u64
        ensures { result ≡ fault_number self }
    {
        match self {
            Fault::Line => 2,
            Fault::Version => 3,
            Fault::Section => 4,
            Fault::Field => 5,
        }
    }
}

// What a line gives.
#[derive(Clone, Copy)]
pub enum Found {
    Nothing,
    Row,
    Definition,
    Fault(Fault),
}

// Where a file stands: the place, its edition, the sections that were met, and how many samples its shapes have so far.
#[derive(Clone, Copy)]
pub struct State {
    pub place: Place,
    pub edition: Edition,
    pub seen: [bool; 12],
    pub samples: u64,
}

// The section of these lines, of those that are sought again; 0 if they are of none.
fn lines_section(lines: Lines) -> usize
    ensures { result ≡ lines_section lines }
{
    match lines {
        Lines::None => 0,
        Lines::Definitions => 2,
        Lines::Rows(_) => 0,
        Lines::Shapes => 9,
    }
}

// Which of the sections that are sought again a place is in: DEFINITIONS, EXTENSIONS or SHAPES, by its number; 0 if in none.
pub fn section_in(place: Place) -> usize
    ensures { result ≡ section_in place }
{
    match place {
        Place::Start => 0,
        Place::Version(_) => 0,
        Place::Section(lines) => lines_section(lines),
        Place::Extensions(_) => 8,
        Place::Head(_, _) => 9,
        Place::Values => 9,
        Place::Signature => 0,
    }
}

// What a line gave, a row's line and numbers, and where the file stands behind it.
#[derive(Clone, Copy)]
pub struct Stepped {
    pub found: Found,
    pub line: usize,
    pub cells: [i64; 12],
    pub next: State,
}

// A line that gives nothing.
pub fn went(next: State) -> Stepped
    ensures { result ≡ went_of next }
{
    Stepped {
        found: Found::Nothing,
        line: 0,
        cells: [0i64; 12],
        next,
    }
}

// A line at fault.
pub fn refused(st: State, fault: Fault) -> Stepped
    ensures { result ≡ refused_of st fault }
{
    Stepped {
        found: Found::Fault(fault),
        line: 0,
        cells: [0i64; 12],
        next: st,
    }
}

// The same state in another place.
pub fn moved(st: State, place: Place) -> State
    ensures { result ≡ moved_of st place }
{
    let edition = st.edition;
    let seen = st.seen;
    let samples = st.samples;
    State {
        place,
        edition,
        seen,
        samples,
    }
}

// Before the first line.
pub fn start() -> State
    ensures { result ≡ fresh }
{
    State {
        place: Place::Start,
        edition: Edition::V13,
        seen: [false; 12],
        samples: 0,
    }
}

// What the end of the file gives: a fault where a row is due.
pub fn ending(st: State) -> Found
    ensures { result ≡ ending_of st.place }
{
    let place = st.place;
    match place {
        Place::Start => Found::Fault(Fault::Version),
        Place::Version(_) => Found::Fault(Fault::Version),
        Place::Section(_) => Found::Nothing,
        Place::Extensions(_) => Found::Nothing,
        Place::Head(_, _) => Found::Fault(Fault::Field),
        Place::Values => Found::Nothing,
        Place::Signature => Found::Nothing,
    }
}

// Lines that are passed over: in a file of which no line is at fault, most lines leave the file where it stands, and are not read again.
#![tactic(auto)]

ghost use Rattle.std.specs.Prelude.{◌≡◌};
ghost use Rattle.text.specs.Marks.{mark_of};
ghost use Rattle.passing.specs.Passing.{passes_in, passes_at, passes_of};
ghost use Rattle.passing.specs.Left.{left_of};

use places::{Lines, Place, State};
use text::Mark;

// Are the lines of a section rows that are read by their columns?
fn passes_in(lines: Lines) -> bool
    ensures { result ≡ passes_in lines }
{
    match lines {
        Lines::None => false,
        Lines::Definitions => false,
        Lines::Rows(_) => true,
        Lines::Shapes => false,
    }
}

// Is a plain line passed over in this place?
fn passes_at(place: Place) -> bool
    ensures { result ≡ passes_at place }
{
    match place {
        Place::Start => false,
        Place::Version(_) => false,
        Place::Section(lines) => passes_in(lines),
        Place::Extensions(_) => false,
        Place::Head(_, _) => false,
        Place::Values => true,
        Place::Signature => true,
    }
}

// Is a line passed over where a file stands? Where it is not at fault, it gives a row by columns or nothing, and the file stands there still.
pub fn passes(st: State, line: &[u8]) -> bool
    ensures { result ≡ passes_of st.place (mark_of line.now) }
{
    match text::mark_of(line) {
        Mark::Blank => false,
        Mark::Comment => true,
        Mark::Section => false,
        Mark::Plain => {
            let place = st.place;
            passes_at(place)
        }
    }
}

// Was DEFINITIONS met and left? A section is met once, so no further line is a definition.
pub fn left_definitions(st: State) -> bool
    ensures { result ≡ left_of st 2 }
{
    let place = st.place;
    if places::section_in(place) == 2 {
        return false;
    }
    st.seen[2]
}

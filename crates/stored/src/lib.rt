// The stored lines of the shapes of a file of which no line is at fault, as parts of its text, and where they stand.
#![tactic(auto)]

ghost use Rattle.std.specs.Prelude.{◌≡◌, suc, ◌≤◌, true, drop};
ghost use Rattle.text.specs.Lines.{lines_of, whole_lines_of};
ghost use Rattle.text.specs.Marks.{mark_of};
ghost use Rattle.passing.specs.Sound.{sound_from, sound_of};
ghost use Rattle.stored.specs.Shapes.{ends_shape, is_shape, stored_of};
ghost use Rattle.stored.specs.Places.{stored_place};
ghost use Rattle.stored.specs.Inside.{behind_from, is_wanted, sought_of, next_of};

use fields::Part;
use file::Walk;
use places::Stepped;
use text::Mark;

// Where stored lines stand, the ID of their shape, and the walk from which the next shape is sought.
#[derive(Clone, Copy)]
pub struct Sought {
    pub part: Part,
    pub id: i64,
    pub walk: Walk,
}

// Does this line end a shape's stored lines?
fn ends_shape(line: &[u8]) -> bool
    ensures { result ≡ ends_shape (mark_of line.now) }
{
    match text::mark_of(line) {
        Mark::Blank => true,
        Mark::Comment => false,
        Mark::Section => true,
        Mark::Plain => false,
    }
}

// Walks on to where the stored lines stop that start where a walk stands. They leave the state as it is.
fn behind_values(file: &[u8], from: Walk) -> Walk
    requires { from.lines ≤ from.at }
    ensures { result ≡ behind_from from (whole_lines_of (drop from.at file.now)) }
{
    let mut walk = from;
    // Lines that leave the state as it is are passed over unread, which a step of a walk cannot.
    while walk.at < file.len() {
        let at = walk.at;
        let line = text::next_line(file, at);
        let stop = line.stop;
        if ends_shape(&file[at..stop]) {
            return walk;
        }
        let behind = line.next;
        walk.at = behind;
        walk.lines = walk.lines + 1;
    }
    walk
}

// Is this the row of the shape with this ID?
fn is_shape(did: Stepped, id: i64) -> bool
    ensures { result ≡ is_shape id did }
{
    if file::row_count(did.found) == 0 {
        return false;
    }
    let kind = did.cells[0];
    let number = did.cells[1];
    kind == 11 && number == id
}

// Is this the row of a shape: of any, or of the one with this ID?
fn is_wanted(did: Stepped, any: bool, id: i64) -> bool
    ensures { result ≡ is_wanted any id did }
{
    if any {
        let own = did.cells[1];
        return is_shape(did, own);
    }
    is_shape(did, id)
}

// Walks on behind the next shape, of any ID or with this one; its stored lines are empty, and at the start, if there is none. Lines that leave the
// state as it is are passed over.
fn seek(file: &[u8], from: Walk, any: bool, id: i64) -> Sought
    requires lines_le_at { from.lines ≤ from.at }
    requires file_value { sound_from from.state (suc from.lines) (lines_of (drop from.at file.now)) ≡ true }
    ensures { result ≡ sought_of file.now from any id }
{
    let mut walk = from;
    // Lines that leave the state as it is are passed over unread, which a step of a walk cannot.
    while walk.at < file.len() {
        let at = walk.at;
        let state = walk.state;
        let number = walk.lines + 1;
        let line = text::next_line(file, at);
        let stop = line.stop;
        let behind = line.next;
        if passing::passes(state, &file[at..stop]) {
            walk.at = behind;
            walk.lines = number;
        } else {
            let did = grammar::step(state, number, &file[at..stop]);
            let next = did.next;
            let passed = Walk {
                at: behind,
                lines: number,
                state: next,
            };
            if is_wanted(did, any, id) {
                let ended = behind_values(file, passed);
                let part = Part {
                    start: behind,
                    stop: ended.at,
                };
                let own = did.cells[1];
                return Sought {
                    part,
                    id: own,
                    walk: ended,
                };
            }
            walk = passed;
        }
    }
    Sought {
        part: Part { start: 0, stop: 0 },
        id: 0,
        walk,
    }
}

// Where the stored lines of the first shape with this ID stand; at the start, and empty, if there is none.
pub fn stored_place(file: &[u8], id: i64) -> Part
    requires { sound_of file.now ≡ true }
    ensures { result ≡ stored_place file.now id }
{
    let sought = seek(file, file::walk_start(), false, id);
    sought.part
}

// The same of the next shape from where a walk stands, if that has this ID, else sought from the front.
pub fn stored_next(file: &[u8], walk: Walk, id: i64) -> Sought
    requires file_value { sound_of file.now ≡ true }
    requires lines_le_at { walk.lines ≤ walk.at }
    requires file_value_2 { sound_from walk.state (suc walk.lines) (lines_of (drop walk.at file.now)) ≡ true }
    ensures { result ≡ next_of file.now walk id }
{
    let next = seek(file, walk, true, id);
    if next.id == id {
        return next;
    }
    Sought {
        part: stored_place(file, id),
        id,
        walk,
    }
}

// The stored lines of the first shape with this ID; empty if there is none.
pub fn stored_lines(file: &[u8], id: i64) -> &[u8]
    requires { sound_of file.now ≡ true }
    ensures { result.now ≡ stored_of file.now id }
{
    let place = stored_place(file, id);
    let start = place.start;
    let stop = place.stop;
    &file[start..stop]
}

// A whole file, line by line: its rows with their lines, or the first fault; and where the sections begin that are sought again.
#![tactic(auto)]

ghost use Rattle.std.specs.Prelude.{◌≡◌, ◌≤◌, []};
ghost use Rattle.file.specs.Whole.{judged, ended, is_fault, row_count};
ghost use Rattle.file.specs.Rows.{row_at, rows_of, line_of, laid_row, answer_of, Scanning};
ghost use Rattle.file.specs.Steps.{SteppedOn, ReadOn};
ghost use Rattle.file.specs.Marks.{walk_start, Marking};
ghost use Rattle.file.specs.Inside.{Laid, is_met};

use places::{Fault, Found, State, Stepped};
use shape::Edition;

// What a whole file gives: the edition, how many rows and samples there are, and whether `[DEFINITIONS]` stands in the file.
#[derive(Clone, Copy)]
pub struct Summary {
    pub edition: Edition,
    pub rows: usize,
    pub samples: u64,
    pub defined: bool,
}

// The first fault of a file and its line, 0 at the end of the file.
#[derive(Clone, Copy)]
pub struct FaultAt {
    pub fault: Fault,
    pub line: usize,
}

// What reading all lines answers.
pub type Scanned = Result<Summary, FaultAt>;

// Where a walk over the lines of a file stands: the place, how many lines were passed, and the state there.
#[derive(Clone, Copy)]
pub struct Walk {
    pub at: usize,
    pub lines: usize,
    pub state: State,
}

impl Walk {
    // The line at which a walk stands and what it gives there; the walk goes on behind it. None at the end of the file.
    pub fn step<'a>(&mut self, file: &'a [u8]) -> Option<(&'a [u8], Stepped)>
        requires { self.old.lines ≤ self.old.at }
        ensures { SteppedOn file.now self.old result self.new }
    {
        let at = self.at;
        if file.len() <= at {
            return None;
        }
        let cut = text::next_line(file, at);
        let line = &file[at..cut.stop];
        let number = self.lines + 1;
        let did = grammar::step(self.state, number, line);
        *self = Walk {
            at: cut.next,
            lines: number,
            state: did.next,
        };
        Some((line, did))
    }

    // What the line gives at which a walk stands; the walk goes on behind it. None at the end of the file. The line is not cut off first if it is a row
    // or a stored value, as most are.
    pub fn read(&mut self, file: &[u8]) -> Option<Stepped>
        requires { self.old.lines ≤ self.old.at }
        ensures { ReadOn file.now self.old result self.new }
    {
        let at = self.at;
        if file.len() <= at {
            return None;
        }
        let number = self.lines + 1;
        let read = grammar::read_line(self.state, number, file, at);
        *self = Walk {
            at: read.next,
            lines: number,
            state: read.did.next,
        };
        Some(read.did)
    }
}

// What reading all lines answers, and where the walk stands that first met EXTENSIONS, and SHAPES; at the front of the file if it never did.
#[derive(Clone, Copy)]
pub struct Marked {
    pub scanned: Scanned,
    pub names: Walk,
    pub shapes: Walk,
}

// A walk at the front of a file.
pub fn walk_start() -> Walk
    ensures { result ≡ walk_start }
{
    Walk {
        at: 0,
        lines: 0,
        state: places::start(),
    }
}

// Does a file stand in a section for the first time? The place behind the line that led there is not noted yet: it is 0.
fn is_met(noted: usize, st: State, section: usize) -> bool
    ensures { result ≡ is_met section noted st }
{
    noted == 0 && places::section_in(st.place) == section
}

// Lays a row over the table, where there is room for it.
fn lay_row(rows: &mut [i64], k: usize, cells: [i64; 12])
    ensures { rows.new ≡ laid_row rows.old k cells }
{
    if k < rows.len() / 12 {
        let base = k * 12;
        for j in 0..12 {
            rows[base + j] = cells[j];
        }
    }
}

// Is this a fault?
pub fn is_fault(found: Found) -> bool
    ensures { result ≡ is_fault found }
{
    matches!(found, Found::Fault(_))
}

// How many rows this is: one or none.
pub fn row_count(found: Found) -> usize
    ensures { result ≡ row_count found }
{
    match found {
        Found::Row => 1,
        _ => 0,
    }
}

// The answer where a file ends in a state.
fn whole(st: State, rows: usize) -> Scanned
    ensures { result ≡ answer_of (ended st) rows }
{
    Ok(Summary {
        edition: st.edition,
        rows,
        samples: st.samples,
        defined: st.seen[2],
    })
}

// The answer of what was found at line n: a fault, or else where the file ends.
fn answer(found: Found, n: usize, st: State, rows: usize) -> Scanned
    ensures { result ≡ answer_of (judged found n (ended st)) rows }
{
    match found {
        Found::Fault(fault) => Err(FaultAt { fault, line: n }),
        Found::Nothing | Found::Row | Found::Definition => whole(st, rows),
    }
}

// Lays what a line gave over the table, if it is a row, and answers how many rows it is.
fn lay_found(rows: &mut [i64], k: usize, did: Stepped) -> usize
    ensures { Laid (row_at 0 [] did) k result rows.old rows.new }
{
    let count = row_count(did.found);
    if count == 1 {
        lay_row(rows, k, did.cells);
    }
    count
}

// Reads all lines of a file and lays its rows over the table, as many as there is room for; it counts on where there is none. Notes where EXTENSIONS
// and SHAPES begin.
pub fn scan_marked(file: &[u8], rows: &mut [i64]) -> Marked
    ensures { Marking file.now result rows.old rows.new }
{
    let mut names = walk_start();
    let mut shapes = walk_start();
    let mut walk = walk_start();
    let mut used: usize = 0;
    while let Some(did) = walk.read(file) {
        if let Found::Fault(fault) = did.found {
            return Marked {
                scanned: Err(FaultAt {
                    fault,
                    line: walk.lines,
                }),
                names,
                shapes,
            };
        }
        used += lay_found(rows, used, did);
        if is_met(names.at, walk.state, 8) {
            names = walk;
        }
        if is_met(shapes.at, walk.state, 9) {
            shapes = walk;
        }
    }
    let scanned = answer(places::ending(walk.state), 0, walk.state, used);
    Marked {
        scanned,
        names,
        shapes,
    }
}

// The same, without what is noted.
pub fn scan(file: &[u8], rows: &mut [i64]) -> Scanned
    ensures { Scanning file.now result rows.old rows.new }
{
    scan_marked(file, rows).scanned
}

// The line of row k of a file, from 0; 0 if there is none.
pub fn row_line(file: &[u8], k: usize) -> usize
    ensures { result ≡ line_of (rows_of file.now) k }
{
    let mut walk = walk_start();
    let mut left = k;
    while let Some(did) = walk.read(file) {
        if is_fault(did.found) {
            return 0;
        }
        let count = row_count(did.found);
        if left < count {
            return did.line;
        }
        left -= count;
    }
    0
}

// What is looked up in a file with a site's definitions: the value of a key, and the stored lines of a shape. Each is handed back as a part of the lent
// texts, or told by where it stands in them.
#![tactic(auto)]

ghost use Rattle.std.specs.Prelude.{◌≡◌};
ghost use Rattle.file.specs.Rows.{scanned_of};
ghost use Rattle.lookups.specs.Looking.{is_at_fault, is_faulty, looked_up, stored_up};
ghost use Rattle.lookups.specs.Spots.{source_number, spot_number, spot_start, spot_length, spot_in, definition_spot, stored_spot};

use fields::Part;

// Which of the two lent texts.
#[derive(Clone, Copy)]
pub enum Source {
    File,
    Site,
}

impl Source {
    // Its number: 1 for the file's text, 2 for the site's.
    pub fn number(self) -> u64
        ensures { result ≡ source_number self }
    {
        match self {
            Source::File => 1,
            Source::Site => 2,
        }
    }
}

// A part of one of the texts: from a place on, and so many bytes long.
#[derive(Clone, Copy)]
pub struct Stretch {
    pub source: Source,
    pub start: usize,
    pub length: usize,
}

// Where something stands that was looked up; none is nowhere.
pub type Spot = Option<Stretch>;

// The number of the text; 0 for none.
pub fn spot_number(spot: Spot) -> u64
    ensures { result ≡ spot_number spot }
{
    match spot {
        Some(part) => part.source.number(),
        None => 0,
    }
}

// Where it starts in that text.
pub fn spot_start(spot: Spot) -> usize
    ensures { result ≡ spot_start spot }
{
    match spot {
        Some(part) => part.start,
        None => 0,
    }
}

// How many bytes long it is.
pub fn spot_length(spot: Spot) -> usize
    ensures { result ≡ spot_length spot }
{
    match spot {
        Some(part) => part.length,
        None => 0,
    }
}

// Is a line of a file at fault?
fn has_fault(file: &[u8]) -> bool
    ensures { result ≡ is_at_fault (scanned_of file.now) }
{
    let mut none = [0i64; 1];
    file::scan(file, &mut none).is_err()
}

// Is there a fault for which nothing is looked up: 1 to 5, 8 or 9?
fn is_faulty(file: &[u8], site: &[u8]) -> bool
    ensures { result ≡ is_faulty file.now site.now }
{
    if questions::is_big(file, site) {
        return true;
    }
    if has_fault(file) {
        return true;
    }
    if definitions::site_fault(site) {
        return true;
    }
    repeats::duplicate_line(file) != 0
}

// The value of a key as a part of the file's text or of the site's: the file's if both define it; empty if neither does, or at a fault.
pub fn definition<'a>(file: &'a [u8], site: &'a [u8], key: &[u8]) -> &'a [u8]
    ensures { result.now ≡ looked_up file.now site.now key.now }
{
    if is_faulty(file, site) {
        return &file[..0];
    }
    definitions::definition(file, site, key)
}

// The stored lines of a shape as a part of the file's text; empty if there is no such shape, or at a fault.
pub fn stored_lines<'a>(file: &'a [u8], site: &'a [u8], id: i64) -> &'a [u8]
    ensures { result.now ≡ stored_up file.now site.now id }
{
    if is_faulty(file, site) {
        return &file[..0];
    }
    stored::stored_lines(file, id)
}

// A part of a text as a spot; nowhere if it is empty.
fn spot_in(source: Source, part: Part) -> Spot
    ensures { result ≡ spot_in source part }
{
    if part.stop <= part.start {
        return None;
    }
    Some(Stretch {
        source,
        start: part.start,
        length: part.stop - part.start,
    })
}

// Where the value of a key stands: in the file's text if the file defines it, else in the site's; nowhere if neither does, or at a fault.
pub fn definition_spot(file: &[u8], site: &[u8], key: &[u8]) -> Spot
    ensures { result ≡ definition_spot file.now site.now key.now }
{
    if is_faulty(file, site) {
        return None;
    }
    let first = spot_in(Source::File, definitions::file_place(file, key));
    let second = spot_in(Source::Site, definitions::site_place(site, key));
    first.or(second)
}

// Where the stored lines of a shape stand in the file's text; nowhere if there are none, or at a fault.
pub fn stored_spot(file: &[u8], site: &[u8], id: i64) -> Spot
    ensures { result ≡ stored_spot file.now site.now id }
{
    if is_faulty(file, site) {
        return None;
    }
    spot_in(Source::File, stored::stored_place(file, id))
}

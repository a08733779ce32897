// The definitions of a file and of a site: the value of a key and where it stands, and whether a site's text is at fault.
#![tactic(auto)]

ghost use Rattle.std.specs.Prelude.{◌≡◌, ◌&&◌, ◌-◌, ◌≤◌, length, take, drop};
ghost use Rattle.text.specs.Words.{same_bytes};
ghost use Rattle.grammar.specs.Definitions.{key_of, value_part};
ghost use Rattle.grammar.specs.Parts.{moved_by};
ghost use Rattle.file.specs.Whole.{is_defined};
ghost use Rattle.definitions.specs.Definitions.{definitions_of, site_line, site_definitions, site_fault, is_named, sought, definition_of};
ghost use Rattle.definitions.specs.Places.{file_place, site_place};

use fields::Part;
use places::{Fault, Found};
use text::Mark;

// Where a value stands that is not defined.
const NOWHERE: Part = Part { start: 0, stop: 0 };

// Is this a definition?
pub fn is_defined(found: Found) -> bool
    ensures { result ≡ is_defined found }
{
    matches!(found, Found::Definition)
}

// Is this line, which gave what was found, a definition of the key?
fn defines(line: &[u8], found: Found, key: &[u8]) -> bool
    ensures { result ≡ is_defined found && same_bytes (key_of line.now) key.now }
{
    is_defined(found) && text::same(fields::field(line, 0), key)
}

// Where the value stands of a line that stands in a text.
fn value_place(text: &[u8], at: usize, stop: usize) -> Part
    requires at_le_stop { at ≤ stop }
    requires stop_in_bounds { stop ≤ length text.now }
    ensures { result ≡ moved_by at (value_part (take (stop - at) (drop at text.now))) }
{
    let value = grammar::value_part(&text[at..stop]);
    Part {
        start: at + value.start,
        stop: at + value.stop,
    }
}

// Where the value of a key stands in a file; at the start, and empty, if it is not defined there. Nothing is read behind DEFINITIONS.
pub fn file_place(file: &[u8], key: &[u8]) -> Part
    ensures { result ≡ file_place file.now key.now }
{
    let mut walk = file::walk_start();
    while !passing::left_definitions(walk.state) {
        let at = walk.at;
        let Some((line, did)) = walk.step(file) else {
            return NOWHERE;
        };
        if file::is_fault(did.found) {
            return NOWHERE;
        }
        if defines(line, did.found, key) {
            return value_place(file, at, at + line.len());
        }
    }
    NOWHERE
}

// The value of a key in a file; empty if it is not defined there.
pub fn file_definition<'a>(file: &'a [u8], key: &[u8]) -> &'a [u8]
    ensures { result.now ≡ sought key.now (definitions_of file.now) }
{
    let place = file_place(file, key);
    &file[place.start..place.stop]
}

// What a line of a site's definitions is.
fn site_line(line: &[u8]) -> Found
    ensures { result ≡ site_line line.now }
{
    if text::breaks_line(line) {
        return Found::Fault(Fault::Line);
    }
    match text::mark_of(line) {
        Mark::Blank => Found::Nothing,
        Mark::Comment => Found::Nothing,
        Mark::Section => Found::Fault(Fault::Section),
        Mark::Plain => {
            if grammar::value(line).len() == 0 {
                return Found::Fault(Fault::Field);
            }
            Found::Definition
        }
    }
}

// Where the value of a key stands in a site's definitions; at the start, and empty, if it is not defined there.
pub fn site_place(site: &[u8], key: &[u8]) -> Part
    ensures { result ≡ site_place site.now key.now }
{
    let mut at: usize = 0;
    // Each line says itself where the next one starts.
    while at < site.len() {
        let line = text::next_line(site, at);
        let stop = line.stop;
        let found = site_line(&site[at..stop]);
        if file::is_fault(found) {
            return NOWHERE;
        }
        if defines(&site[at..stop], found, key) {
            return value_place(site, at, stop);
        }
        at = line.next;
    }
    NOWHERE
}

// The value of a key in a site's definitions; empty if it is not defined there.
pub fn site_definition<'a>(site: &'a [u8], key: &[u8]) -> &'a [u8]
    ensures { result.now ≡ sought key.now (site_definitions site.now) }
{
    let place = site_place(site, key);
    &site[place.start..place.stop]
}

// Does this line, which is what was found, define a key that the rest defines again?
fn repeats(line: &[u8], found: Found, rest: &[u8]) -> bool
    ensures { result ≡ is_defined found && is_named (key_of line.now) (site_definitions rest.now) }
{
    is_defined(found) && 0 < site_definition(rest, fields::field(line, 0)).len()
}

// Are a site's definitions at fault?
pub fn site_fault(site: &[u8]) -> bool
    ensures { result ≡ site_fault site.now }
{
    let mut at: usize = 0;
    // Each line says itself where the next one starts.
    while at < site.len() {
        let line = text::next_line(site, at);
        let stop = line.stop;
        let next = line.next;
        let found = site_line(&site[at..stop]);
        if file::is_fault(found) {
            return true;
        }
        if repeats(&site[at..stop], found, &site[next..]) {
            return true;
        }
        at = next;
    }
    false
}

// The value of a key: the file's, else the site's; empty if neither defines it.
pub fn definition<'a>(file: &'a [u8], site: &'a [u8], key: &[u8]) -> &'a [u8]
    ensures { result.now ≡ definition_of file.now site.now key.now }
{
    let value = file_definition(file, key);
    if value.len() == 0 {
        return site_definition(site, key);
    }
    value
}

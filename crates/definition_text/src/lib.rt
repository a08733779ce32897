// The section DEFINITIONS of a restated text: what the file defines, as read, and for 1.4.1 the site's value of each raster that the file lacks.
#![tactic(auto)]

ghost use Rattle.std.specs.Prelude.{◌≡◌, cond, [], ltb, length};
ghost use Rattle.output.specs.Over.{Put};
ghost use Rattle.grammar.specs.Definitions.{key_of, value_of};
ghost use Rattle.file.specs.Whole.{is_defined};
ghost use Rattle.definitions.specs.Definitions.{definitions_of, site_definitions};
ghost use Rattle.definition_text.specs.Definitions.{definition_line, definition_lines, absent_line, added_lines, definition_section};
ghost use Rattle.definition_text.specs.Inside.{has_lines};

use places::Found;
use shape::Edition;

// Writes a definition: its key, a space, its value, and the end of the line.
fn put_definition(out: &mut [u8], at: usize, key: &[u8], value: &[u8]) -> usize
    ensures { Put out.old at (definition_line key.now value.now) result out.new }
{
    let space = output::put_bytes(out, at, key);
    let start = output::put_bytes(out, space, b" ");
    let end = output::put_bytes(out, start, value);
    output::put_byte(out, end, b'\n')
}

// Writes the definition that a line is, if that was found.
fn put_found(out: &mut [u8], at: usize, found: Found, line: &[u8]) -> usize
    ensures { Put out.old at (cond (is_defined found) (definition_line (key_of line.now) (value_of line.now)) []) result out.new }
{
    if definitions::is_defined(found) {
        return put_definition(out, at, fields::field(line, 0), grammar::value(line));
    }
    at
}

// Writes the definitions of a file, in its order.
fn put_own(out: &mut [u8], at: usize, file: &[u8]) -> usize
    ensures { Put out.old at (definition_lines (definitions_of file.now)) result out.new }
{
    let mut place = at;
    let mut walk = file::walk_start();
    while let Some((line, did)) = walk.step(file) {
        if file::is_fault(did.found) {
            return place;
        }
        place = put_found(out, place, did.found, line);
    }
    place
}

// Writes the site's definition of a key, if the file has none.
fn put_absent(out: &mut [u8], at: usize, file: &[u8], site: &[u8], key: &[u8]) -> usize
    ensures { Put out.old at (absent_line (definitions_of file.now) (site_definitions site.now) key.now) result out.new }
{
    if definitions::file_definition(file, key).is_empty() {
        return put_definition(out, at, key, definitions::site_definition(site, key));
    }
    at
}

// Writes what is added for a target: the rasters that the file lacks, for 1.4.1.
fn put_added(out: &mut [u8], at: usize, target: Edition, file: &[u8], site: &[u8]) -> usize
    ensures { Put out.old at (added_lines target (definitions_of file.now) (site_definitions site.now)) result out.new }
{
    match target {
        Edition::V13 => at,
        Edition::V14 => {
            let rf = put_absent(out, at, file, site, b"GradientRasterTime");
            let adc = put_absent(out, rf, file, site, b"RadiofrequencyRasterTime");
            let block = put_absent(out, adc, file, site, b"AdcRasterTime");
            put_absent(out, block, file, site, b"BlockDurationRaster")
        }
    }
}

// Does a file define anything?
fn has_own(file: &[u8]) -> bool
    ensures { result ≡ ltb 0 (length (definitions_of file.now)) }
{
    let mut walk = file::walk_start();
    while let Some((_, did)) = walk.step(file) {
        if file::is_fault(did.found) {
            return false;
        }
        if definitions::is_defined(did.found) {
            return true;
        }
    }
    false
}

// Is there a line to write for a target? For 1.4.1 always: a raster that the file lacks is added.
fn has_lines(target: Edition, file: &[u8]) -> bool
    ensures { result ≡ has_lines target (definitions_of file.now) }
{
    match target {
        Edition::V13 => has_own(file),
        Edition::V14 => true,
    }
}

// Writes DEFINITIONS for a target: its head, the file's definitions, those that are added, and a blank line; or nothing where there is none.
pub fn put_definition_section(
    out: &mut [u8],
    at: usize,
    target: Edition,
    file: &[u8],
    site: &[u8],
) -> usize
    ensures { Put out.old at (definition_section target file.now site.now) result out.new }
{
    if has_lines(target, file) {
        let body = output::put_bytes(out, at, b"[DEFINITIONS]\n");
        let added = put_own(out, body, file);
        let end = put_added(out, added, target, file, site);
        return output::put_byte(out, end, b'\n');
    }
    at
}

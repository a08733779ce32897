// The text of a file restated to a target edition: all its sections in order, written over a lent output.
#![tactic(auto)]

ghost use Rattle.std.specs.Prelude.{◌≡◌};
ghost use Rattle.output.specs.Over.{Put};
ghost use Rattle.restated.specs.Text.{delays_for, event_sections, restated_text};

use columns::Form;
use shape::Edition;
use unit::Nanos;

// Writes DELAYS where the target has them.
fn put_delays_for(out: &mut [u8], at: usize, target: Edition, rows: &[i64], n: usize) -> usize
    ensures { Put out.old at (delays_for target rows.now n) result out.new }
{
    match target {
        Edition::V13 => section_text::put_delay_section(out, at, rows, n),
        Edition::V14 => at,
    }
}

// Writes RF, GRADIENTS, TRAP and ADC.
fn put_events(
    out: &mut [u8],
    at: usize,
    target: Edition,
    raster: Nanos,
    rows: &[i64],
    n: usize,
) -> usize
    ensures { Put out.old at (event_sections target raster.0 rows.now n) result out.new }
{
    let gradients = section_text::put_section(out, at, target, raster, Form::Rf, rows, n);
    let traps = section_text::put_section(out, gradients, target, raster, Form::Gradient, rows, n);
    let adc = section_text::put_section(out, traps, target, raster, Form::Trap, rows, n);
    section_text::put_section(out, adc, target, raster, Form::Adc, rows, n)
}

// Writes the text of n rows and their samples, with the definitions of the file and the site, from the front of the output. Returns its length.
pub fn put_text(
    out: &mut [u8],
    target: Edition,
    raster: Nanos,
    file: &[u8],
    site: &[u8],
    rows: &[i64],
    n: usize,
    samples: &[i64],
) -> usize
    ensures { Put out.old 0 (restated_text target raster.0 file.now site.now rows.now n samples.now) result out.new }
{
    let definitions = section_text::put_version(out, 0, target);
    let blocks = definition_text::put_definition_section(out, definitions, target, file, site);
    let events = section_text::put_section(out, blocks, target, raster, Form::Block, rows, n);
    let delays = put_events(out, events, target, raster, rows, n);
    let extensions = put_delays_for(out, delays, target, rows, n);
    let shapes = extension_text::put_extension_section(out, extensions, target, rows, n);
    shape_section::put_shape_section(out, shapes, target, rows, n, samples)
}

// SHAPES of a restated text: each shape with its ID, its count and its samples in the form that the target has for them.
#![tactic(auto)]

ghost use Rattle.output.specs.Over.{Put};
ghost use Rattle.shape_section.specs.Shapes.{word_line, shape_text, shape_line, shapes_text, shape_section};

use shape::Edition;

// Writes a word and a number, and ends the line.
fn put_word(out: &mut [u8], at: usize, word: &[u8], z: i64) -> usize
    ensures { Put out.old at (word_line word.now z) result out.new }
{
    let space = output::put_bytes(out, at, word);
    let number = output::put_byte(out, space, b' ');
    let feed = print::put_signed(out, number, z);
    output::put_byte(out, feed, b'\n')
}

// Writes the shape of row k as the target does, and a blank line.
fn put_shape(
    out: &mut [u8],
    at: usize,
    target: Edition,
    rows: &[i64],
    samples: &[i64],
    k: usize,
) -> usize
    ensures { Put out.old at (shape_text target rows.now samples.now k) result out.new }
{
    let count = put_word(out, at, b"shape_id", tables::number(rows, k, 1));
    let stored = put_word(out, count, b"num_samples", tables::number(rows, k, 2));
    let blank = shape_text::put_stored(out, stored, tables::samples_at(rows, k, samples), target);
    output::put_bytes(out, blank, b"\n")
}

// Writes row k if it is a shape.
fn put_if(
    out: &mut [u8],
    at: usize,
    target: Edition,
    rows: &[i64],
    samples: &[i64],
    k: usize,
) -> usize
    ensures { Put out.old at (shape_line target rows.now samples.now k) result out.new }
{
    if sayable::is_kind(rows, k, 11) {
        return put_shape(out, at, target, rows, samples, k);
    }
    at
}

// Writes all shapes among n rows.
fn put_shapes(
    out: &mut [u8],
    at: usize,
    target: Edition,
    rows: &[i64],
    n: usize,
    samples: &[i64],
) -> usize
    ensures { Put out.old at (shapes_text target rows.now n samples.now) result out.new }
{
    let mut place = at;
    for k in 0..n {
        place = put_if(out, place, target, rows, samples, k);
    }
    place
}

// Writes SHAPES as the target does: its head and all shapes, or nothing where there is none.
pub fn put_shape_section(
    out: &mut [u8],
    at: usize,
    target: Edition,
    rows: &[i64],
    n: usize,
    samples: &[i64],
) -> usize
    ensures { Put out.old at (shape_section target rows.now n samples.now) result out.new }
{
    if said::has_kind(11, rows, n) {
        let body = output::put_bytes(out, at, b"[SHAPES]\n");
        return put_shapes(out, body, target, rows, n, samples);
    }
    at
}

// The shapes of a whole file of which no line is at fault: the stored lines of each expanded into its part of the lent samples.
#![tactic(auto)]

ghost use Rattle.std.specs.Prelude.{◌≡◌, min, nat_abs, true};
ghost use Rattle.file.specs.Marks.{met_walk};
ghost use Rattle.passing.specs.Sound.{sound_of};
ghost use Rattle.stored.specs.Inside.{Walked};
ghost use Rattle.tables.specs.Tables.{number_at, NoneAgain};
ghost use Rattle.sampling.specs.Sampling.{failed, Sampled};
ghost use Rattle.sampling.specs.Inside.{ShapeSampled, NewTo, IsNew, RowSampled};

use file::Walk;
use shape::{Edition, Expanded};

// The size of number c of row k.
fn size_at(rows: &[i64], k: usize, c: usize) -> usize
    ensures { result ≡ nat_abs (number_at rows.now k c) }
{
    tables::number(rows, k, c).unsigned_abs() as usize
}

// Has expanding failed?
fn has_failed(expanded: Expanded) -> bool
    ensures { result ≡ failed expanded }
{
    expanded.is_err()
}

// Expands the shape of row k, whose stored lines these are, into its part of the lent samples. Has it failed?
fn expand_shape(
    stored: &[u8],
    edition: Edition,
    rows: &[i64],
    k: usize,
    samples: &mut [i64],
) -> bool
    ensures { ShapeSampled edition stored.now rows.now k samples.old result samples.new }
{
    let num = size_at(rows, k, 2);
    let from = size_at(rows, k, 3).min(samples.len());
    let to = from + num.min(samples.len() - from);
    has_failed(expanding::expand(stored, num, edition, &mut samples[from..to]))
}

// Expands row k, if it is a shape: its stored lines are sought from where the walk stands, which passed the shapes of the rows before. The walk behind
// them; none if the shape fails.
fn expand_row(
    file: &[u8],
    walk: Walk,
    edition: Edition,
    rows: &[i64],
    k: usize,
    samples: &mut [i64],
) -> Option<Walk>
    requires file_value { sound_of file.now ≡ true }
    requires walked { Walked file.now (NewTo rows.now k) walk }
    requires new { IsNew rows.now k }
    ensures { RowSampled edition file.now rows.now k samples.old result samples.new }
{
    if tables::number(rows, k, 0) != tables::SHAPE {
        return Some(walk);
    }
    let sought = stored::stored_next(file, walk, tables::number(rows, k, 1));
    let part = sought.part;
    if expand_shape(&file[part.start..part.stop], edition, rows, k, samples) {
        return None;
    }
    Some(sought.walk)
}

// Expands the shapes of n rows, each at its place among the lent samples, up to the first that fails; answers its row, n if none fails. Their stored
// lines are sought from where SHAPES begins.
pub fn expand_shapes(
    file: &[u8],
    shapes: Walk,
    edition: Edition,
    rows: &[i64],
    n: usize,
    samples: &mut [i64],
) -> usize
    requires file_value { sound_of file.now ≡ true }
    requires shapes_value { shapes ≡ met_walk 9 file.now }
    requires none_again { NoneAgain rows.now n }
    ensures { Sampled edition file.now rows.now n samples.old result samples.new }
{
    let mut walk = shapes;
    for k in 0..n {
        match expand_row(file, walk, edition, rows, k, samples) {
            Some(behind) => walk = behind,
            None => return k,
        }
    }
    n
}

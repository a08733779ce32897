// How long blocks and extension chains last, and what is asked of blocks: LONG and OUTLASTS, and in one pass all that a block can break.
#![tactic(auto)]

ghost use Rattle.tables.specs.Tables.{number_at};
ghost use Rattle.std.specs.Prelude.{◌≡◌, pos};
ghost use Rattle.unit.specs.Time.{capped};
ghost use Rattle.blocks.specs.Blocks.{met_length, entry_length, chain_length, reference_length, number_length, longest_event, block_length, is_long, outlasts_at};
ghost use Rattle.blocks.specs.Inside.{has_triggers, Timed, Timed-prop, found_length, number_breaks, some_breaks, block_breaks};

use finding::Rows;
use shape::Edition;
use tables::{BLOCK, ENTRY, TRIGGER};
use unit::{Nanos, RasterCount, Rasters};

// How long a block may last: 10^12 ns.
const MOST: u64 = 1_000_000_000_000;

// Rows, and whether a chain of extensions among them can take time: where it cannot, none of them is a trigger.
#[derive(Clone, Copy)]
pub struct Timing<'a> {
    pub rows: Rows<'a>,
    pub timed: bool,
    pub ghost told: { Timed timed rows.numbers.now rows.n } by { Timed-prop timed rows.numbers.now rows.n },
}

// Is any of n rows a trigger? Where none is, a chain of extensions takes no time: labels take none.
pub fn has_triggers(rows: &[i64], n: usize) -> bool
    ensures { result ≡ has_triggers rows.now n }
{
    for k in 0..n {
        if tables::number(rows, k, 0) == TRIGGER {
            return true;
        }
    }
    false
}

// The length of the event that a reference meets; 0 if it meets none.
fn met_length(rasters: Rasters, rows: Rows, samples: &[i64], class: i64, id: i64) -> Nanos
    ensures { result.0 ≡ capped (met_length rasters rows.entry.numbers.now rows.entry.n samples.now class id) }
{
    let k = rows.met_row(class, id);
    if k < rows.n {
        return lengths::row_length(rasters, rows, samples, k);
    }
    Nanos(0)
}

// The length of what entry k refers to. Of all that entries refer to only triggers take time, so no other row is looked up.
fn entry_length(rasters: Rasters, rows: Rows, samples: &[i64], k: usize) -> Nanos
    ensures { result.0 ≡ capped (entry_length rasters rows.entry.numbers.now rows.entry.n samples.now k) }
{
    let class = references::extension_ref(rows, rows.number(k, 2));
    if class == TRIGGER {
        return met_length(rasters, rows, samples, class, rows.number(k, 3));
    }
    Nanos(0)
}

// The longest event of the chain from entry k on, of which so many entries are left to count.
fn chain_length(rasters: Rasters, rows: Rows, samples: &[i64], k: usize, left: usize) -> Nanos
    ensures { result.0 ≡ capped (chain_length rasters rows.entry.numbers.now rows.entry.n samples.now left k) }
{
    let mut longest = Nanos(0);
    let mut at = k;
    for _counted in 0..left {
        if rows.n <= at {
            return longest;
        }
        longest = longest.longer(entry_length(rasters, rows, samples, at));
        at = chains::next_entry(rows, at);
    }
    longest
}

// How long that lasts which a number of this class refers to and which is row k: an event, or the first entry of a chain, which is followed where
// any row is a trigger.
fn found_length(rasters: Rasters, timing: Timing, samples: &[i64], class: i64, k: usize) -> Nanos
    ensures { result.0 ≡ capped (found_length rasters timing.entry.rows.numbers.now timing.entry.rows.n samples.now class k) }
{
    if class != ENTRY {
        return lengths::row_length(rasters, timing.rows, samples, k);
    }
    if timing.timed {
        return chain_length(rasters, timing.rows, samples, k, 256);
    }
    Nanos(0)
}

// How long that lasts which a number of a block refers to: an event, or a chain of entries; 0 if it meets none, or refers to no class.
fn reference_length(rasters: Rasters, timing: Timing, samples: &[i64], class: i64, id: i64) -> Nanos
    ensures { result.0 ≡ capped (reference_length rasters timing.entry.rows.numbers.now timing.entry.rows.n samples.now class id) }
{
    if class == 0 {
        return Nanos(0);
    }
    let k = timing.rows.met_row(class, id);
    if k < timing.rows.n {
        return found_length(rasters, timing, samples, class, k);
    }
    Nanos(0)
}

// How long that lasts which number c of block k refers to. Most numbers are 0, and refer to nothing.
fn number_length(
    edition: Edition,
    rasters: Rasters,
    timing: Timing,
    samples: &[i64],
    k: usize,
    c: usize,
) -> Nanos
    ensures { result.0 ≡ capped (number_length edition rasters timing.entry.rows.numbers.now timing.entry.rows.n samples.now k c) }
{
    let id = timing.rows.number(k, c);
    if id == 0 {
        return Nanos(0);
    }
    let class = references::ref_at(edition, timing.rows, k, c);
    reference_length(rasters, timing, samples, class, id)
}

// The longest event of block k.
pub fn longest_event(
    edition: Edition,
    rasters: Rasters,
    timing: Timing,
    samples: &[i64],
    k: usize,
) -> Nanos
    ensures { result.0 ≡ capped (longest_event edition rasters timing.entry.rows.numbers.now timing.entry.rows.n samples.now k) }
{
    let mut longest = Nanos(0);
    for c in 2..9 {
        longest = longest.longer(number_length(edition, rasters, timing, samples, k, c));
    }
    longest
}

// How long block k lasts.
pub fn block_length(
    edition: Edition,
    rasters: Rasters,
    timing: Timing,
    samples: &[i64],
    k: usize,
) -> Nanos
    ensures { result.0 ≡ capped (block_length edition rasters timing.entry.rows.numbers.now timing.entry.rows.n samples.now k) }
{
    match edition {
        Edition::V13 => longest_event(edition, rasters, timing, samples, k),
        Edition::V14 => {
            let duration = RasterCount(timing.rows.number(k, 2).unsigned_abs());
            duration.nanos(rasters.block)
        }
    }
}

// Is row k a block over 10^12 ns?
pub fn is_long(edition: Edition, rasters: Rasters, rows: Rows, samples: &[i64], k: usize) -> bool
    ensures { result ≡ is_long edition rasters rows.entry.numbers.now rows.entry.n samples.now k }
{
    if rows.number(k, 0) != BLOCK {
        return false;
    }
    let timing = Timing { rows, timed: true };
    block_length(edition, rasters, timing, samples, k).exceeds(Nanos(MOST))
}

// Is row k a block of 1.4 that an event outlasts?
pub fn outlasts(rasters: Rasters, rows: Rows, samples: &[i64], k: usize) -> bool
    ensures { result ≡ outlasts_at rasters rows.entry.numbers.now rows.entry.n samples.now k }
{
    if rows.number(k, 0) != BLOCK {
        return false;
    }
    let timing = Timing { rows, timed: true };
    let ns = block_length(Edition::V14, rasters, timing, samples, k);
    longest_event(Edition::V14, rasters, timing, samples, k).exceeds(ns)
}

// Does number c of block k refer to a row that is not among the n, or to what lasts longer than a cap? The row is looked up once.
fn number_breaks(
    edition: Edition,
    rasters: Rasters,
    timing: Timing,
    samples: &[i64],
    k: usize,
    cap: Nanos,
    c: usize,
) -> bool
    requires { number_at timing.rows.numbers.now k 0 ≡ pos 1 }
    ensures { result ≡ number_breaks edition rasters timing.entry.rows.numbers.now timing.entry.rows.n samples.now k cap.0 c }
{
    let id = timing.rows.number(k, c);
    if id == 0 {
        return false;
    }
    let class = references::block_ref(edition, c);
    if class == 0 {
        return false;
    }
    let found = timing.rows.find_once(class, id);
    if timing.rows.n <= found {
        return true;
    }
    found_length(rasters, timing, samples, class, found).exceeds(cap)
}

// Does a number of block k refer to a row that is not among the n, or to what lasts longer than a cap? Only numbers 2 to 8 refer to anything.
fn some_breaks(
    edition: Edition,
    rasters: Rasters,
    timing: Timing,
    samples: &[i64],
    k: usize,
    cap: Nanos,
) -> bool
    requires { number_at timing.rows.numbers.now k 0 ≡ pos 1 }
    ensures { result ≡ some_breaks edition rasters timing.entry.rows.numbers.now timing.entry.rows.n samples.now k cap.0 }
{
    for number in 2..9 {
        if number_breaks(edition, rasters, timing, samples, k, cap, number) {
            return true;
        }
    }
    false
}

// Does block k, of n rows, refer to a row that is not there, last over 10^12 ns, or have an event that outlasts it, which is asked in 1.4? Each
// of its numbers is looked up once.
pub fn block_breaks(
    edition: Edition,
    rasters: Rasters,
    timing: Timing,
    samples: &[i64],
    k: usize,
) -> bool
    requires { number_at timing.rows.numbers.now k 0 ≡ pos 1 }
    ensures { result ≡ block_breaks edition rasters timing.entry.rows.numbers.now timing.entry.rows.n samples.now k }
{
    let most = Nanos(MOST);
    match edition {
        Edition::V13 => some_breaks(edition, rasters, timing, samples, k, most),
        Edition::V14 => {
            let own = block_length(edition, rasters, timing, samples, k);
            own.exceeds(most) || some_breaks(edition, rasters, timing, samples, k, own)
        }
    }
}

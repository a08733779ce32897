// The rules over the tables, from REFERENCE to OUTLASTS: each is asked of one row, and answered at the first row for which it is broken. And what
// the tables hold when all have passed: a block's length.
#![tactic(auto)]

ghost use Rattle.std.specs.Prelude.{◌≡◌};
ghost use Rattle.tables.specs.Tables.{first_such, NoneAgain};
ghost use Rattle.blocks.specs.Inside.{Timed};
ghost use Rattle.rules.specs.Rules.{rule_number, align_broken, outlasts_broken, is_broken, first_broken};
ghost use Rattle.rules.specs.Inside.{breaks_other, breaks_any};
ghost use Rattle.rules.specs.Filled.{length_number, with_length, filled};

use blocks::Timing;
use finding::Rows;
use shape::Edition;
use tables::BLOCK;
use unit::Rasters;

// What is asked of each row, in the paper's order.
#[derive(Clone, Copy, PartialEq, Eq)]
pub enum Rule {
    Reference,
    Loop,
    Use,
    Align,
    Long,
    Outlasts,
}

impl Rule {
    // The paper's number of this rule.
    pub fn number(self) -> u64
        ensures { result ≡ rule_number self }
    {
        match self {
            Rule::Reference => 12,
            Rule::Loop => 13,
            Rule::Use => 14,
            Rule::Align => 15,
            Rule::Long => 16,
            Rule::Outlasts => 17,
        }
    }
}

// Does row k break ALIGN, which is asked in 1.4?
fn breaks_align(edition: Edition, rasters: Rasters, rows: &[i64], k: usize) -> bool
    ensures { result ≡ align_broken edition rasters rows.now k }
{
    match edition {
        Edition::V13 => false,
        Edition::V14 => events::misaligned(rasters, rows, k),
    }
}

// Does row k break OUTLASTS, which is asked in 1.4?
fn breaks_outlasts(
    edition: Edition,
    rasters: Rasters,
    rows: Rows,
    samples: &[i64],
    k: usize,
) -> bool
    ensures { result ≡ outlasts_broken edition rasters rows.entry.numbers.now rows.entry.n samples.now k }
{
    match edition {
        Edition::V13 => false,
        Edition::V14 => blocks::outlasts(rasters, rows, samples, k),
    }
}

// Does row k, of n rows, break a rule?
pub fn is_broken(
    rule: Rule,
    edition: Edition,
    rasters: Rasters,
    rows: Rows,
    samples: &[i64],
    k: usize,
) -> bool
    ensures { result ≡ is_broken rule edition rasters rows.entry.numbers.now rows.entry.n samples.now k }
{
    match rule {
        Rule::Reference => references::dangles(edition, rows, k),
        Rule::Loop => chains::loops(rows, k),
        Rule::Use => events::misfits(rows, samples, k),
        Rule::Align => breaks_align(edition, rasters, rows.numbers, k),
        Rule::Long => blocks::is_long(edition, rasters, rows, samples, k),
        Rule::Outlasts => breaks_outlasts(edition, rasters, rows, samples, k),
    }
}

// Does row k, of n rows, break any rule but USE? What can be broken by a block is asked in one pass over its numbers.
fn breaks_other(
    edition: Edition,
    rasters: Rasters,
    timing: Timing,
    samples: &[i64],
    k: usize,
) -> bool
    ensures { result ≡ breaks_other edition rasters timing.entry.rows.numbers.now timing.entry.rows.n samples.now k }
{
    let rows = timing.rows;
    if rows.number(k, 0) == BLOCK {
        return blocks::block_breaks(edition, rasters, timing, samples, k);
    }
    references::dangles(edition, rows, k)
        || chains::loops(rows, k)
        || breaks_align(edition, rasters, rows.numbers, k)
}

// The first of n rows that breaks any rule but USE; n if none does. Each row is looked at once.
fn first_other(edition: Edition, rasters: Rasters, timing: Timing, samples: &[i64]) -> usize
    ensures { result ≡ first_such (breaks_other edition rasters timing.entry.rows.numbers.now timing.entry.rows.n samples.now) 0 timing.entry.rows.n }
{
    for k in 0..timing.rows.n {
        if breaks_other(edition, rasters, timing, samples, k) {
            return k;
        }
    }
    timing.rows.n
}

// The first of n rows that breaks any rule; n if none does. USE is asked apart, since it looks at each shape once and not at each event's.
pub fn first_breaking(edition: Edition, rasters: Rasters, rows: Rows, samples: &[i64]) -> usize
    ensures { result ≡ first_such (breaks_any edition rasters rows.entry.numbers.now rows.entry.n samples.now) 0 rows.entry.n }
{
    let timed = blocks::has_triggers(rows.numbers, rows.n);
    let other = first_other(edition, rasters, Timing { rows, timed }, samples);
    other.min(events::first_misfit(rows, samples))
}

// The first of n rows that breaks a rule; n if none does.
pub fn first_broken(
    rule: Rule,
    edition: Edition,
    rasters: Rasters,
    rows: Rows,
    samples: &[i64],
) -> usize
    ensures { result ≡ first_broken rule edition rasters rows.entry.numbers.now rows.entry.n samples.now }
{
    if rule == Rule::Use {
        return events::first_misfit(rows, samples);
    }
    for k in 0..rows.n {
        if is_broken(rule, edition, rasters, rows, samples, k) {
            return k;
        }
    }
    rows.n
}

// How long block k lasts, as a number of its row.
fn length_number(
    edition: Edition,
    rasters: Rasters,
    timing: Timing,
    samples: &[i64],
    k: usize,
) -> i64
    ensures { result ≡ length_number edition rasters timing.entry.rows.numbers.now timing.entry.rows.n samples.now k }
{
    let ns = blocks::block_length(edition, rasters, timing, samples, k);
    i64::try_from(ns.0).unwrap_or(i64::MAX)
}

// Writes its length into row k, if that is a block.
fn fill_row(
    edition: Edition,
    rasters: Rasters,
    rows: &mut [i64],
    hints: &[u16],
    n: usize,
    samples: &[i64],
    k: usize,
    timed: bool,
)
    requires none_again { NoneAgain rows.old n }
    requires timed { Timed timed rows.old n }
    ensures { rows.new ≡ with_length edition rasters rows.old n samples.now rows.old k }
{
    if k < rows.len() / 12 && tables::number(rows, k, 0) == BLOCK {
        let table = Rows {
            numbers: rows,
            hints,
            n,
        };
        let timing = Timing { rows: table, timed };
        let ns = length_number(edition, rasters, timing, samples, k);
        rows[k * 12 + 9] = ns;
    }
}

// Can a chain take time, which the length of a 1.3 block asks?
fn is_timed(edition: Edition, rows: &[i64], n: usize) -> bool
    ensures { Timed result rows.now n }
{
    match edition {
        Edition::V13 => blocks::has_triggers(rows, n),
        Edition::V14 => true,
    }
}

// Writes the length of each block among n rows into its row, as its tenth number.
pub fn fill_lengths(
    edition: Edition,
    rasters: Rasters,
    rows: &mut [i64],
    hints: &[u16],
    n: usize,
    samples: &[i64],
)
    requires { NoneAgain rows.old n }
    ensures { rows.new ≡ filled edition rasters rows.old n samples.now rows.old 0 n }
{
    let timed = is_timed(edition, rows, n);
    for k in 0..n {
        fill_row(edition, rasters, rows, hints, n, samples, k, timed);
    }
}

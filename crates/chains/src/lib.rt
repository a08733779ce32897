// Extension chains, followed entry by entry with a count of entries left.
#![tactic(auto)]

ghost use Rattle.std.specs.Prelude.{◌≡◌};
ghost use Rattle.chains.specs.Chains.{next_entry, exceeds_of, loops_at};

use finding::Rows;
use tables::ENTRY;

// The row of the entry that follows entry k; n, the number of rows, if none does.
pub fn next_entry(rows: Rows, k: usize) -> usize
    ensures { result ≡ next_entry rows.entry.numbers.now rows.entry.n k }
{
    rows.met_row(ENTRY, rows.number(k, 4))
}

// Has the chain from entry k more entries than are left to count?
fn exceeds(rows: Rows, k: usize, left: usize) -> bool
    ensures { result ≡ exceeds_of rows.entry.numbers.now rows.entry.n left k }
{
    let mut at = k;
    for _counted in 0..left {
        at = next_entry(rows, at);
        if rows.n <= at {
            return false;
        }
    }
    true
}

// Is row k an entry whose chain is over 256 entries?
pub fn loops(rows: Rows, k: usize) -> bool
    ensures { result ≡ loops_at rows.entry.numbers.now rows.entry.n k }
{
    rows.number(k, 0) == ENTRY && exceeds(rows, k, 256)
}

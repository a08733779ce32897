// What is asked of a whole file beside its lines and its rows: BIG, MISSING, ROOM and SITE; the order of the rules over its rows; and the refusals.
#![tactic(auto)]

ghost use Rattle.std.specs.Prelude.{◌≡◌};
ghost use Rattle.file.specs.Rows.{rows_of};
ghost use Rattle.questions.specs.Asked.{is_big, fault_refusal, rule_refusal, any_block, is_missing, lacks_room, bad_site, rule_at};
ghost use Rattle.questions.specs.Inside.{gives_block};

use answers::Refusal;
use places::{Fault, Stepped};
use rules::Rule;
use shape::Edition;

// The refusal of a line's fault.
pub fn fault_refusal(fault: Fault) -> Refusal
    ensures { result ≡ fault_refusal fault }
{
    match fault {
        Fault::Line => Refusal::Line,
        Fault::Version => Refusal::Version,
        Fault::Section => Refusal::Section,
        Fault::Field => Refusal::Field,
    }
}

// The refusal of a broken rule.
pub fn rule_refusal(rule: Rule) -> Refusal
    ensures { result ≡ rule_refusal rule }
{
    match rule {
        Rule::Reference => Refusal::Reference,
        Rule::Loop => Refusal::Loop,
        Rule::Use => Refusal::Use,
        Rule::Align => Refusal::Align,
        Rule::Long => Refusal::Long,
        Rule::Outlasts => Refusal::Outlasts,
    }
}

// BIG: is one of the texts too long?
pub fn is_big(file: &[u8], site: &[u8]) -> bool
    ensures { result ≡ is_big file.now site.now }
{
    16777216 < file.len() || 4096 < site.len()
}

// Has a line given a block?
fn gives_block(did: Stepped) -> bool
    ensures { result ≡ gives_block did }
{
    if file::row_count(did.found) == 0 {
        return false;
    }
    tables::number(&did.cells, 0, 0) == tables::BLOCK
}

// Has a file a block row, among those too that a table has no room for?
pub fn has_block(file: &[u8]) -> bool
    ensures { result ≡ any_block (rows_of file.now) }
{
    let mut walk = file::walk_start();
    while let Some((_, did)) = walk.step(file) {
        if file::is_fault(did.found) {
            return false;
        }
        if gives_block(did) {
            return true;
        }
    }
    false
}

// MISSING: no block row; in 1.4 no definitions.
pub fn is_missing(edition: Edition, block: bool, defined: bool) -> bool
    ensures { result ≡ is_missing edition block defined }
{
    if !block {
        return true;
    }
    match edition {
        Edition::V13 => false,
        Edition::V14 => !defined,
    }
}

// ROOM: more rows or samples than the lent tables hold.
pub fn lacks_room(rows: usize, count: u64, room: usize, size: usize) -> bool
    ensures { result ≡ lacks_room rows count room size }
{
    room / 12 < rows || (size as u64) < count
}

// SITE: a 1.3 file with a site's definitions at fault.
pub fn has_bad_site(edition: Edition, site: &[u8]) -> bool
    ensures { result ≡ bad_site edition site.now }
{
    match edition {
        Edition::V13 => definitions::site_fault(site),
        Edition::V14 => false,
    }
}

// The rules over the rows, in order.
pub fn rule_at(i: usize) -> Rule
    ensures { result ≡ rule_at i }
{
    match i {
        0 => Rule::Reference,
        1 => Rule::Loop,
        2 => Rule::Use,
        3 => Rule::Align,
        4 => Rule::Long,
        _ => Rule::Outlasts,
    }
}

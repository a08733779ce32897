// Expanding: the stored lines of a shape expanded into its samples, exactly as its edition says.
#![tactic(auto)]

ghost use Rattle.std.specs.Prelude.{◌≡◌, ◌≤◌, pos, set};
ghost use Rattle.text.specs.Lines.{lines_of};
ghost use Rattle.text.specs.Marks.{mark_of};
ghost use Rattle.shape.specs.Stored.{all_sound, values_of, count_of};
ghost use Rattle.shape.specs.Samples.{is_plain};
ghost use Rattle.expanding.specs.Expand.{plain_of, sums_of, fresh_of, trace_of};
ghost use Rattle.expanding.specs.Alone.{Expansion};
ghost use Rattle.expanding.specs.Inside.{mark_holds, lines_hold, NextIs, judged, soundly, told, Ran, Begun, Went, PairWent, refusal_of, LaidAll};

use numeral::Decimal;
use shape::{Edition, Expanded, Item, Unexpanded};
use text::Mark;

// The next value from a place on, with the place behind its line; or that there is none, or that a line in front of it is at fault.
#[derive(Clone, Copy)]
enum Next {
    Value(Decimal, usize),
    End,
    Bad,
}

// Where expanding stands: the place in the text, how many samples there are, and their sum so far; also the value in front of that place, which
// is fresh and not laid yet, or laid and possibly repeated.
#[derive(Clone, Copy)]
enum State {
    Fresh {
        from: usize,
        at: usize,
        sum: i64,
        value: Decimal,
    },
    Repeat {
        from: usize,
        at: usize,
        sum: i64,
        last: Decimal,
    },
    Done(usize),
    Bad,
}

// How many values a line holds, if it is not at fault: its mark tells.
fn line_holds(line: &[u8]) -> usize
    ensures { result ≡ mark_holds (mark_of line.now) }
{
    match text::mark_of(line) {
        Mark::Blank => 1,
        Mark::Comment => 0,
        Mark::Section => 1,
        Mark::Plain => 1,
    }
}

// How many values the lines hold, if none is at fault. No value is read.
fn lines_hold(stored: &[u8]) -> usize
    ensures { result ≡ lines_hold (lines_of stored.now) }
{
    let mut at = 0;
    let mut n = 0;
    // Each line says itself where the next one starts.
    while at < stored.len() {
        let line = text::next_line(stored, at);
        let stop = line.stop;
        n += line_holds(&stored[at..stop]);
        at = line.next;
    }
    n
}

// Are the stored values the samples themselves, if no line is at fault? Only 1.4 asks how many they are.
fn are_samples(stored: &[u8], num: usize, edition: Edition) -> bool
    ensures { result ≡ is_plain edition num (lines_hold (lines_of stored.now)) }
{
    match edition {
        Edition::V13 => false,
        Edition::V14 => shape::is_plain(edition, num, lines_hold(stored)),
    }
}

// The next value from a place on. Comments are passed over.
fn next_value(stored: &[u8], from: usize) -> Next
    ensures { NextIs stored.now from result }
{
    let mut at = from;
    // Each line says itself where the next one starts.
    while at < stored.len() {
        let line = shape::item_at(stored, at);
        let item = line.item;
        let behind = line.next;
        match item {
            Item::Value(d) => {
                return Next::Value(d, behind);
            }
            Item::Skipped => {
                at = behind;
            }
            Item::Bad => {
                return Next::Bad;
            }
        }
    }
    Next::End
}

// Stores a sample at a place, if that place is there.
fn store(samples: &mut [i64], at: usize, z: i64)
    ensures { samples.new ≡ set samples.old at z }
{
    if at < samples.len() {
        samples[at] = z;
    }
}

// Lays the samples of a value that stands n times, if so many are still due.
fn lay_run(
    samples: &mut [i64],
    num: usize,
    at: usize,
    sum: i64,
    d: Decimal,
    n: usize,
) -> Option<i64>
    requires { at ≤ num }
    ensures { Ran num samples.old samples.new at n sum d result }
{
    if num - at < n {
        return None;
    }
    let mut s = sum;
    for k in 0..n {
        s = shape::add_value(s, d)?;
        store(samples, at + k, s);
    }
    Some(s)
}

// Where the next value is fresh: that value, or the end, or a fault.
fn next_fresh(stored: &[u8], from: usize, at: usize, sum: i64) -> State
    ensures { Begun stored.now from at sum result }
{
    match next_value(stored, from) {
        Next::Value(d, behind) => State::Fresh {
            from: behind,
            at: at,
            sum: sum,
            value: d,
        },
        Next::End => State::Done(at),
        Next::Bad => State::Bad,
    }
}

// Behind a pair of equal values, the second of which is d and not laid yet: its count, and the run that it makes.
fn take_pair(
    stored: &[u8],
    samples: &mut [i64],
    num: usize,
    from: usize,
    at: usize,
    sum: i64,
    d: Decimal,
) -> State
    requires { at ≤ num }
    ensures { PairWent stored.now num samples.old samples.new from at sum d result }
{
    match next_value(stored, from) {
        Next::Value(c, behind) => match numeral::whole_worth(c, 0, 0, 1000000) {
            Some(n) => {
                let more = n as usize + 1;
                match lay_run(samples, num, at, sum, d, more) {
                    Some(s) => next_fresh(stored, behind, at + more, s),
                    None => State::Bad,
                }
            }
            None => State::Bad,
        },
        Next::End => State::Bad,
        Next::Bad => State::Bad,
    }
}

// Behind the value `last`: takes a pair with its count, or hands back another value, which is fresh.
fn take_repeat(
    stored: &[u8],
    samples: &mut [i64],
    num: usize,
    from: usize,
    at: usize,
    sum: i64,
    last: Decimal,
) -> State
    requires { at ≤ num }
    ensures { Went stored.now num samples.old samples.new (State.Repeat from at sum last) result }
{
    match next_value(stored, from) {
        Next::Value(d, behind) => {
            if decimals::same_decimal(d, last) {
                return take_pair(stored, samples, num, behind, at, sum, d);
            }
            State::Fresh {
                from: behind,
                at: at,
                sum: sum,
                value: d,
            }
        }
        Next::End => State::Done(at),
        Next::Bad => State::Bad,
    }
}

// A fresh value is laid and hands on to a possible repeat. When no more calls may be open, the state goes back to whoever called first.
#[cycle(fresh_repeat)]
fn fresh(
    stored: &[u8],
    samples: &mut [i64],
    num: usize,
    from: usize,
    at: usize,
    sum: i64,
    value: Decimal,
    open: usize,
) -> State
    requires { at ≤ num }
    ensures { Went stored.now num samples.old samples.new (State.Fresh from at sum value) result }
{
    let Some(s) = lay_run(samples, num, at, sum, value, 1) else {
        return State::Bad;
    };
    let next = at + 1;
    if open == 0 {
        return State::Repeat {
            from: from,
            at: next,
            sum: s,
            last: value,
        };
    }
    repeat(stored, samples, num, from, next, s, value, open - 1)
}

// A repeat hands back after its count.
#[cycle(fresh_repeat)]
fn repeat(
    stored: &[u8],
    samples: &mut [i64],
    num: usize,
    from: usize,
    at: usize,
    sum: i64,
    last: Decimal,
    open: usize,
) -> State
    requires { at ≤ num }
    ensures { Went stored.now num samples.old samples.new (State.Repeat from at sum last) result }
{
    let state = take_repeat(stored, samples, num, from, at, sum, last);
    if open == 0 {
        return state;
    }
    let State::Fresh {
        from,
        at,
        sum,
        value,
    } = state
    else {
        return state;
    };
    fresh(stored, samples, num, from, at, sum, value, open - 1)
}

// Lays run-length samples, if no line is at fault: at most 256 calls are open, and then this loop goes on.
fn lay_runs(stored: &[u8], samples: &mut [i64], num: usize) -> bool
    ensures { told result samples.new ≡ soundly (all_sound (lines_of stored.now)) (judged num samples.old 0 (sums_of (pos 0) (fresh_of (values_of stored.now)))) }
{
    let mut state = next_fresh(stored, 0, 0, 0);
    // The state says what comes next.
    loop {
        match state {
            State::Fresh {
                from,
                at,
                sum,
                value,
            } => {
                state = fresh(stored, samples, num, from, at, sum, value, 255);
            }
            State::Repeat {
                from,
                at,
                sum,
                last,
            } => {
                state = repeat(stored, samples, num, from, at, sum, last, 255);
            }
            State::Done(n) => {
                return n == num;
            }
            State::Bad => {
                return false;
            }
        }
    }
}

// Lays plain samples, if no line is at fault: each value is one.
fn lay_plain(stored: &[u8], samples: &mut [i64], num: usize) -> bool
    ensures { told result samples.new ≡ soundly (all_sound (lines_of stored.now)) (judged num samples.old 0 (plain_of (values_of stored.now))) }
{
    let mut from = 0;
    let mut at = 0;
    // Each value says itself where the next one starts.
    loop {
        match next_value(stored, from) {
            Next::Value(d, behind) => {
                if num <= at {
                    return false;
                }
                match shape::add_value(0, d) {
                    Some(z) => {
                        store(samples, at, z);
                        from = behind;
                        at += 1;
                    }
                    None => {
                        return false;
                    }
                }
            }
            Next::End => {
                return at == num;
            }
            Next::Bad => {
                return false;
            }
        }
    }
}

// Lays the samples in one form or the other, and tells whether no line is at fault and they are as many as declared.
fn lay(stored: &[u8], samples: &mut [i64], num: usize, plain: bool) -> bool
    ensures { told result samples.new ≡ soundly (all_sound (lines_of stored.now)) (judged num samples.old 0 (trace_of plain (values_of stored.now))) }
{
    if plain {
        return lay_plain(stored, samples, num);
    }
    lay_runs(stored, samples, num)
}

// Why stored lines are refused that were not laid: one is at fault, or they do not expand.
fn refusal(stored: &[u8]) -> Expanded
    ensures { result ≡ refusal_of (count_of stored.now) }
{
    match shape::count_values(stored) {
        Some(_) => Err(Unexpanded::Shape),
        None => Err(Unexpanded::Field),
    }
}

// Lays the samples and answers, before what was lent is cleared.
fn lay_all(stored: &[u8], num: usize, edition: Edition, samples: &mut [i64]) -> Expanded
    ensures { LaidAll edition num stored.now samples.old samples.new result }
{
    if num == 0 {
        return Err(Unexpanded::Field);
    }
    if 1000000 < num {
        return Err(Unexpanded::Field);
    }
    if !lay(stored, samples, num, are_samples(stored, num, edition)) {
        return refusal(stored);
    }
    if samples.len() < num {
        return Err(Unexpanded::Room);
    }
    Ok(num)
}

// Expands stored lines into num samples, in steps of 10^-12. What is lent holds the samples and then zeros; on a refusal, zeros.
pub fn expand(stored: &[u8], num: usize, edition: Edition, samples: &mut [i64]) -> Expanded
    ensures { Expansion edition num stored.now samples.old result samples.new }
{
    let laid = lay_all(stored, num, edition, samples);
    output::clear_numbers(samples, shape::used_of(laid));
    laid
}

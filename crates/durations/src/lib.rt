// Delay rows for 1.3.1: one for each distinct nonzero duration of the blocks, numbered from 1 by first use.
#![tactic(auto, unfolding(crate::specs::Durations::is_alike, crate::specs::Durations::is_first, crate::specs::Durations::use_count, crate::specs::Durations::delay_number, crate::specs::Durations::is_new, crate::specs::Durations::new_use, blocks::specs::Blocks::is_block, sayable::specs::Sayable::is_kind))]

ghost use Rattle.std.specs.Prelude.{◌+◌, ◌<◌, ◌≡◌, length, take};
ghost use Rattle.output.specs.Over.{over};
ghost use Rattle.durations.specs.Durations.{is_alike, first_use, is_first, use_count, uses_in, delay_number, Listed, uses_list, stands_at, is_new, new_use};

// A table of n rows, and a list that holds the first durations of its blocks in the order of first use.
#[derive(Clone, Copy)]
pub struct Uses<'a> {
    pub list: &'a [u64],
    pub rows: &'a [i64],
    pub n: usize,
    pub ghost first_used: { list.now ≡ take (length list.now) (uses_list rows.now n 0 n) },
}

// Is row j a block that lasts as long as row k?
fn is_alike(rows: &[i64], k: usize, j: usize) -> bool
    ensures { result ≡ is_alike rows.now k j }
{
    sayable::is_kind(rows, j, 1) && sayable::nanos_at(rows, j) == sayable::nanos_at(rows, k)
}

// The first of n rows that is a block and lasts as long as row k; n if there is none.
fn first_use(rows: &[i64], n: usize, k: usize) -> usize
    ensures { result ≡ first_use rows.now n k }
{
    for j in 0..n {
        if is_alike(rows, k, j) {
            return j;
        }
    }
    n
}

// Is row k, of n rows, the first use of a nonzero duration?
pub fn is_first(rows: &[i64], n: usize, k: usize) -> bool
    ensures { result ≡ is_first rows.now n k }
{
    sayable::nanos_at(rows, k).0 != 0 && first_use(rows, n, k) == k
}

// How many first uses row k, of n rows, is: one or none.
fn use_count(rows: &[i64], n: usize, k: usize) -> usize
    ensures { result ≡ use_count rows.now n k }
{
    usize::from(is_first(rows, n, k))
}

// How many of the first m rows, of n, are first uses of a nonzero duration.
fn uses_in(rows: &[i64], n: usize, m: usize) -> usize
    ensures { result ≡ uses_in rows.now n 0 m }
{
    let mut count = 0;
    for k in 0..m {
        count += use_count(rows, n, k);
    }
    count
}

// The number of the delay row for the duration of row k, of n rows; 0 for none.
pub fn delay_number(rows: &[i64], n: usize, k: usize) -> usize
    ensures { result ≡ delay_number rows.now n k }
{
    if sayable::nanos_at(rows, k).0 == 0 {
        return 0;
    }
    let first = first_use(rows, n, k);
    if first < n {
        return uses_in(rows, n, first) + 1;
    }
    0
}

// Where a number stands in a list, from 0; the list's length if it does not.
pub fn stands_at(list: &[u64], x: u64) -> usize
    ensures { result ≡ stands_at list.now x }
{
    list.iter().position(|y| *y == x).unwrap_or(list.len())
}

// Is row k a block with a duration other than 0 that does not stand in a list?
fn is_new(list: &[u64], rows: &[i64], k: usize) -> bool
    ensures { result ≡ is_new list.now rows.now k }
{
    if !sayable::is_kind(rows, k, 1) {
        return false;
    }
    let ns = sayable::nanos_at(rows, k).0;
    ns != 0 && stands_at(list, ns) == list.len()
}

// Lays the duration of row k behind the first `count` of a list, if it is new there; how many there are then.
fn note(list: &mut [u64], count: usize, rows: &[i64], k: usize) -> usize
    requires { count < length list.old }
    ensures value { result ≡ count + length (new_use (take count list.old) rows.now k) }
    ensures list_after { list.new ≡ over list.old count (new_use (take count list.old) rows.now k) }
{
    if is_new(&list[..count], rows, k) {
        list[count] = sayable::nanos_at(rows, k).0;
        return count + 1;
    }
    count
}

// Lays the durations of n rows over a list in the order of first use, as many as there is room for; how many those are.
pub fn list_uses(list: &mut [u64], rows: &[i64], n: usize) -> usize
    ensures { Listed rows.now n list.old result list.new }
{
    let mut count = 0;
    for k in 0..n {
        if list.len() <= count {
            return count;
        }
        count = note(list, count, rows, k);
    }
    count
}

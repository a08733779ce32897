// Bytes laid over a lent output, what was laid from its front on, and what is lent, cleared.
#![tactic(auto)]

ghost use Rattle.std.specs.Prelude.{◌≡◌, [], ◌∷◌, pos, take};
ghost use Rattle.output.specs.Over.{Put, cleared_from};

// The first n bytes, or all where there are fewer: of an output, what was laid over it.
pub fn front(bytes: &[u8], n: usize) -> &[u8]
    ensures { result.now ≡ take n bytes.now }
{
    &bytes[..n.min(bytes.len())]
}

// Lays a byte over the output at a place, if that place is there. Returns the next place.
pub fn put_byte(out: &mut [u8], at: usize, b: u8) -> usize
    ensures { Put out.old at (b ∷ []) result out.new }
{
    if at < out.len() {
        out[at] = b;
    }
    at.saturating_add(1)
}

// Lays bytes over the output from a place on, as far as it goes. Returns the place behind them.
pub fn put_bytes(out: &mut [u8], at: usize, bytes: &[u8]) -> usize
    ensures { Put out.old at bytes.now result out.new }
{
    let mut place = at;
    for b in bytes {
        place = put_byte(out, place, *b);
    }
    place
}

// Fills what is lent with one value from a place on.
fn fill_from<T: Copy>(table: &mut [T], from: usize, value: T)
    ensures { table.new ≡ cleared_from value from table.old }
{
    // Not by `fill`, which asks for a copy of the value that cannot fail.
    for i in from..table.len() {
        table[i] = value;
    }
}

// Fills a lent output with zeros from a place on.
pub fn clear_bytes(out: &mut [u8], from: usize)
    ensures { out.new ≡ cleared_from 0 from out.old }
{
    fill_from(out, from, 0)
}

// Fills a lent table with zeros from a place on.
pub fn clear_numbers(table: &mut [i64], from: usize)
    ensures { table.new ≡ cleared_from (pos 0) from table.old }
{
    fill_from(table, from, 0)
}

// A set of small numbers in a lent slice of bytes, in which each number has a bit of its own.
#![tactic(auto)]

ghost use Rattle.std.specs.Prelude.{◌≡◌, ◌%◌, ◌^◌};
ghost use Rattle.marks.specs.Marks.{is_marked, marked};

// The worth of the bit of a number in its byte.
fn worth_of(j: usize) -> u8
    ensures { result ≡ 2 ^ (j % 8) }
{
    1 << (j % 8)
}

// Is a number in the set? One that has no place is not.
pub fn is_marked(marks: &[u8], j: usize) -> bool
    ensures { result ≡ is_marked marks.now j }
{
    let i = j / 8;
    i < marks.len() && marks[i] & worth_of(j) != 0
}

// Puts a number into the set, if there is a place for it.
pub fn mark(marks: &mut [u8], j: usize)
    ensures { marks.new ≡ marked marks.old j }
{
    let i = j / 8;
    if i < marks.len() {
        marks[i] |= worth_of(j);
    }
}

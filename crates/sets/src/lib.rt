// A set of numbers in a lent slice, in which 0 is an empty place: a number is kept, or was kept before, or finds no place.
#![tactic(auto)]

ghost use Rattle.std.specs.Prelude.{◌≡◌};
ghost use Rattle.sets.specs.Sets.{way_of, kept_of, places_after, mixed, mixed_all, is_in};

// How many places the way of a number has.
const STEPS: usize = 128;

// What spreads a number made of two evenly.
const PRIME: u64 = 17592186044399;

const FACTOR: u64 = 1000003;

// What the way of a number meets first: the number itself, an empty place, or neither.
#[derive(Clone, Copy)]
enum Way {
    Held,
    Free(usize),
    Blocked,
}

// Whether a number was new to a set and is kept now, or was kept before, or finds no place.
#[derive(Clone, Copy)]
pub enum Kept {
    New,
    Old,
    Full,
}

// What the way of a number meets first, from its home on.
fn look(set: &[u64], key: u64) -> Way
    ensures { result ≡ way_of set.now key }
{
    if key == 0 || set.is_empty() {
        return Way::Blocked;
    }
    let long = set.len();
    let home = (key % long as u64) as usize;
    for j in 0..STEPS {
        let at = (home + j) % long;
        let here = set[at];
        if here == key {
            return Way::Held;
        }
        if here == 0 {
            return Way::Free(at);
        }
    }
    Way::Blocked
}

// Keeps a number, other than 0, in a set, if it is new there and its way has an empty place.
pub fn keep(set: &mut [u64], key: u64) -> Kept
    ensures value { result ≡ kept_of set.old key }
    ensures set_after { set.new ≡ places_after set.old key }
{
    match look(set, key) {
        Way::Held => Kept::Old,
        Way::Free(at) => {
            set[at] = key;
            Kept::New
        }
        Way::Blocked => Kept::Full,
    }
}

// A number made of two: of the first as it is, of the second by its remainder.
pub fn mix(a: u64, b: u64) -> u64
    ensures { result ≡ mixed a b }
{
    (a % PRIME * FACTOR + b % FACTOR) % PRIME
}

// A number made of a number and bytes, one after the other.
pub fn mix_all(start: u64, bytes: &[u8]) -> u64
    ensures { result ≡ mixed_all start bytes.now }
{
    bytes.iter().fold(start, |made, b| mix(made, u64::from(*b)))
}

// Is a number in a part, of so many, by its remainder? Where there are no parts, it is in each.
pub fn is_in(x: u64, parts: u64, part: u64) -> bool
    ensures { result ≡ is_in x parts part }
{
    parts == 0 || x % parts == part
}

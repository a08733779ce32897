// The tables: a row's numbers, the class that its ID belongs to, the first row with an ID, and the samples of a shape.
#![tactic(auto)]

ghost use Rattle.std.specs.Prelude.{◌≡◌, pos, take, drop};
ghost use Rattle.tables.specs.Tables.{number_at, class_number, class_at, is_row_of, first_row, is_again, samples_at};

// The kinds of rows, each row's first number. The class of an ID has the number of its rows' kind, but traps are of the class of gradients, and
// labels that are incremented have a class of their own.
pub const BLOCK: i64 = 1;

pub const RF: i64 = 2;

pub const GRADIENT: i64 = 3;

pub const TRAP: i64 = 4;

pub const ADC: i64 = 5;

pub const DELAY: i64 = 6;

pub const ENTRY: i64 = 7;

pub const EXTENSION: i64 = 8;

pub const TRIGGER: i64 = 9;

pub const LABEL: i64 = 10;

pub const SHAPE: i64 = 11;

pub const INCREMENT: i64 = 12;

// 1 in steps of 10^-12, in which samples are counted.
pub const ONE: u64 = 1_000_000_000_000;

// What an ID is unique in.
#[derive(Clone, Copy)]
pub enum Class {
    Block,
    Rf,
    Gradient,
    Adc,
    Delay,
    Entry,
    Extension,
    Trigger,
    Set,
    Shape,
    Increment,
}

// Number c of row k, kind first; 0 where the table has no such row.
pub fn number(rows: &[i64], k: usize, c: usize) -> i64
    ensures { result ≡ number_at rows.now k c }
{
    if c < 12 && k < rows.len() / 12 {
        return rows[k * 12 + c];
    }
    0
}

// The number of a class: the kind of its rows, that of gradients for traps too.
pub fn class_number(class: Class) -> i64
    ensures { result ≡ pos (class_number class) }
{
    match class {
        Class::Block => BLOCK,
        Class::Rf => RF,
        Class::Gradient => GRADIENT,
        Class::Adc => ADC,
        Class::Delay => DELAY,
        Class::Entry => ENTRY,
        Class::Extension => EXTENSION,
        Class::Trigger => TRIGGER,
        Class::Set => LABEL,
        Class::Shape => SHAPE,
        Class::Increment => INCREMENT,
    }
}

// The number of the class that row k belongs to.
pub fn row_class(rows: &[i64], k: usize) -> i64
    ensures { result ≡ class_at rows.now k }
{
    match number(rows, k, 0) {
        TRAP => GRADIENT,
        LABEL => {
            if number(rows, k, 2) == 1 {
                INCREMENT
            } else {
                LABEL
            }
        }
        kind => kind,
    }
}

// Is row k the one of this class with this ID?
pub fn is_row_of(rows: &[i64], k: usize, class: i64, id: i64) -> bool
    ensures { result ≡ is_row_of rows.now class id k }
{
    number(rows, k, 1) == id && row_class(rows, k) == class
}

// The first of n rows that is of this class and has this ID; n if none is.
pub fn find(rows: &[i64], n: usize, class: i64, id: i64) -> usize
    ensures { result ≡ first_row rows.now n class id }
{
    for k in 0..n {
        if is_row_of(rows, k, class, id) {
            return k;
        }
    }
    n
}

// Does row k have the ID of a row before it in its class?
pub fn is_again(rows: &[i64], k: usize) -> bool
    ensures { result ≡ is_again rows.now k }
{
    let class = row_class(rows, k);
    let id = number(rows, k, 1);
    find(rows, k, class, id) < k
}

// So many samples from a place on, as far as there are any.
fn part(samples: &[i64], from: usize, count: usize) -> &[i64]
    ensures { result.now ≡ take count (drop from samples.now) }
{
    let rest = samples.get(from..).unwrap_or(&[]);
    rest.get(..count).unwrap_or(rest)
}

// The samples of the shape of row k: those that it counts from its place on.
pub fn samples_at<'a>(rows: &[i64], k: usize, samples: &'a [i64]) -> &'a [i64]
    ensures { result.now ≡ samples_at rows.now k samples.now }
{
    let count = number(rows, k, 2).unsigned_abs() as usize;
    let from = number(rows, k, 3).unsigned_abs() as usize;
    part(samples, from, count)
}

// Columns: which columns each kind of row has, and the number of each kind of row.
#![tactic(auto)]

ghost use Rattle.std.specs.Prelude.{◌≡◌, pos, length, get_or};
ghost use Rattle.columns.specs.Columns.{columns_of, form_number, is_absent};
ghost use Rattle.columns.specs.Inside.{kind_of, packed};

use shape::Edition;

// What kind of number a column holds, and so its form and range.
#[derive(Clone, Copy)]
pub enum Kind {
    Id,
    Reference,
    Required,
    Micros,
    Duration,
    Count,
    Natural,
    Decimal,
    Dwell,
    Absent,
}

// The rows that are read by a list of columns.
#[derive(Clone, Copy)]
pub enum Form {
    Block,
    Rf,
    Gradient,
    Trap,
    Adc,
    Delay,
    Entry,
    Trigger,
}

// The number of a form in its rows.
pub fn form_number(form: Form) -> i64
    ensures { result ≡ pos (form_number form) }
{
    match form {
        Form::Block => 1,
        Form::Rf => 2,
        Form::Gradient => 3,
        Form::Trap => 4,
        Form::Adc => 5,
        Form::Delay => 6,
        Form::Entry => 7,
        Form::Trigger => 9,
    }
}

// The kind that a digit stands for; 9 also stands where there is no column.
fn kind_of(n: u64) -> Kind
    ensures { result ≡ kind_of n }
{
    match n {
        0 => Kind::Id,
        1 => Kind::Reference,
        2 => Kind::Required,
        3 => Kind::Micros,
        4 => Kind::Duration,
        5 => Kind::Count,
        6 => Kind::Natural,
        7 => Kind::Decimal,
        8 => Kind::Dwell,
        _ => Kind::Absent,
    }
}

// The kinds of nine columns of a form as the digits of a number to the base 16, the first column's lowest: one
// shift reads a kind, which is asked for every field.
fn kinds_of(edition: Edition, form: Form) -> u64
    ensures { result ≡ packed 9 (columns_of edition form) }
{
    match form {
        Form::Block => match edition {
            Edition::V13 => 0x911111110,
            Edition::V14 => 0x911111140,
        },
        Form::Rf => match edition {
            Edition::V13 => 0x977392270,
            Edition::V14 => 0x977312270,
        },
        Form::Gradient => match edition {
            Edition::V13 => 0x999939270,
            Edition::V14 => 0x999931270,
        },
        Form::Trap => 0x999333370,
        Form::Adc => 0x999773850,
        Form::Delay => 0x999999930,
        Form::Entry => 0x999991200,
        Form::Trigger => 0x999933660,
    }
}

// The kind of a column; past the last there is none.
pub fn kind_at(edition: Edition, form: Form, j: usize) -> Kind
    ensures { result ≡ get_or (columns_of edition form) j Kind.Absent }
{
    if 8 < j {
        return Kind::Absent;
    }
    kind_of((kinds_of(edition, form) >> (4 * j)) % 16)
}

// How many columns a form has, in every edition; a block's last is its ns, which no field stands for.
pub fn column_count(form: Form, edition: Edition) -> usize
    ensures { result ≡ length (columns_of edition form) }
{
    match form {
        Form::Block => 9,
        Form::Rf => 8,
        Form::Gradient => 5,
        Form::Trap => 6,
        Form::Adc => 6,
        Form::Delay => 2,
        Form::Entry => 4,
        Form::Trigger => 5,
    }
}

// Is this a column that no field stands for?
pub fn is_absent(kind: Kind) -> bool
    ensures { result ≡ is_absent kind }
{
    matches!(kind, Kind::Absent)
}

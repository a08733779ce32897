// Sections of a restated text: VERSION, the sections whose rows are written by their columns, and the delay rows made for durations.
#![tactic(auto)]

ghost use Rattle.std.specs.Prelude.{◌≡◌, suc, min, ◌<◌, pos};
ghost use Rattle.output.specs.Over.{Put};
ghost use Rattle.signed.specs.Signed.{largest};
ghost use Rattle.durations.specs.Durations.{is_first, uses_in};
ghost use Rattle.section_text.specs.Sections.{version_text, head_text, section_text, delays_text, delay_section};
ghost use Rattle.section_text.specs.Inside.{new_line};

use columns::Form;
use durations::Uses;
use shape::Edition;
use unit::Nanos;

// Writes VERSION for a target, of revision 1, with a blank line behind it.
pub fn put_version(out: &mut [u8], at: usize, target: Edition) -> usize
    ensures { Put out.old at (version_text target) result out.new }
{
    match target {
        Edition::V13 => output::put_bytes(out, at, b"[VERSION]\nmajor 1\nminor 3\nrevision 1\n\n"),
        Edition::V14 => output::put_bytes(out, at, b"[VERSION]\nmajor 1\nminor 4\nrevision 1\n\n"),
    }
}

// Writes the head of the section of a form; entries and triggers have none of their own.
fn put_head(out: &mut [u8], at: usize, form: Form) -> usize
    ensures { Put out.old at (head_text form) result out.new }
{
    let head: &[u8] = match form {
        Form::Block => b"[BLOCKS]\n",
        Form::Rf => b"[RF]\n",
        Form::Gradient => b"[GRADIENTS]\n",
        Form::Trap => b"[TRAP]\n",
        Form::Adc => b"[ADC]\n",
        Form::Delay => b"[DELAYS]\n",
        Form::Entry | Form::Trigger => b"",
    };
    output::put_bytes(out, at, head)
}

// Writes the section of a form, as the target says it: its head, its rows and a blank line, or nothing where there is no row.
pub fn put_section(
    out: &mut [u8],
    at: usize,
    target: Edition,
    raster: Nanos,
    form: Form,
    rows: &[i64],
    n: usize,
) -> usize
    ensures { Put out.old at (section_text target raster.0 form rows.now n) result out.new }
{
    if said::has_kind(columns::form_number(form), rows, n) {
        let body = put_head(out, at, form);
        let end = said::put_rows(out, body, target, raster, form, rows, n);
        return output::put_byte(out, end, b'\n');
    }
    at
}

// A number of a row that is not negative.
fn plain_number(n: u64) -> i64
    ensures { result ≡ pos (min n largest) }
{
    signed::with_sign(false, n)
}

// Is row k the first use of a duration, where so many are used before it? By where its duration stands in the list, or by the rows if it is not listed.
fn is_next(uses: &Uses<'_>, used: usize, k: usize) -> bool
    requires used_value { used ≡ uses_in uses.now.rows.now uses.now.n 0 k }
    requires k_lt_n { k < uses.now.n }
    ensures { result ≡ is_first uses.now.rows.now uses.now.n k }
{
    if !sayable::is_kind(uses.rows, k, 1) {
        return false;
    }
    let place = durations::stands_at(uses.list, sayable::nanos_at(uses.rows, k).0);
    if place < uses.list.len() {
        return place == used;
    }
    durations::is_first(uses.rows, uses.n, k)
}

// How many durations are used with row k, where so many are used before it.
fn used_with(uses: Uses<'_>, used: usize, k: usize) -> usize
    requires used_value { used ≡ uses_in uses.rows.now uses.n 0 k }
    requires k_lt_n { k < uses.n }
    ensures { result ≡ uses_in uses.entry.rows.now uses.entry.n 0 (suc k) }
{
    used + usize::from(is_next(&uses, used, k))
}

// Writes the delay row of row k, if more durations are used with it than before it: the row's number is how many.
fn put_delay(out: &mut [u8], at: usize, used: usize, next: usize, rows: &[i64], k: usize) -> usize
    ensures { Put out.old at (new_line used next rows.now k) result out.new }
{
    if used < next {
        let id = plain_number(next as u64);
        let micros = sayable::nanos_at(rows, k).micros();
        let row = [6, id, plain_number(micros.map_or(0, |whole| whole.0))];
        return said::put_line(out, at, Edition::V13, Form::Delay, &row);
    }
    at
}

// Writes the delay rows of all rows.
fn put_delays(out: &mut [u8], at: usize, uses: &Uses<'_>) -> usize
    ensures { Put out.old at (delays_text uses.now.rows.now uses.now.n) result out.new }
{
    let mut place = at;
    let mut used = 0;
    for k in 0..uses.n {
        let next = used_with(*uses, used, k);
        place = put_delay(out, place, used, next, uses.rows, k);
        used = next;
    }
    place
}

// Writes DELAYS for 1.3.1: one row for each distinct nonzero duration, or nothing where there is none; the first 4,096 durations are found in a list.
pub fn put_delay_section(out: &mut [u8], at: usize, rows: &[i64], n: usize) -> usize
    ensures { Put out.old at (delay_section rows.now n) result out.new }
{
    let mut found = [0; 4096];
    let count = durations::list_uses(&mut found, rows, n);
    if count == 0 {
        return at;
    }
    let body = put_head(out, at, Form::Delay);
    let uses = Uses {
        list: &found[..count],
        rows,
        n,
    };
    let end = put_delays(out, body, &uses);
    output::put_byte(out, end, b'\n')
}

// Reads number fields from standard input, one to a line, and writes what each is worth in every way that the library reads and prints one.
#![tactic(auto)]

use numeral::Decimal;

// The descriptors of standard input and output.
const STDIN_FILENO: i32 = 0;

const STDOUT_FILENO: i32 = 1;

// The largest ID, type and counter.
const LARGEST_ID: u64 = 2147483647;

// Writes what parts two worths, and the name of the next one.
fn put_name(out: &mut [u8], at: usize, name: &[u8]) -> usize {
    let behind = output::put_bytes(out, at, b" | ");
    let next = output::put_bytes(out, behind, name);
    output::put_byte(out, next, b' ')
}

// Writes a minus alone: there is no such worth.
fn put_refused(out: &mut [u8], at: usize) -> usize {
    output::put_byte(out, at, b'-')
}

// Writes a natural number under its name.
fn put_natural(out: &mut [u8], at: usize, name: &[u8], n: Option<u64>) -> usize {
    let next = put_name(out, at, name);
    match n {
        Some(v) => print::put_integer(out, next, v),
        None => put_refused(out, next),
    }
}

// Writes a signed number under its name.
fn put_signed(out: &mut [u8], at: usize, name: &[u8], z: Option<i64>) -> usize {
    let next = put_name(out, at, name);
    match z {
        Some(v) => print::put_signed(out, next, v),
        None => put_refused(out, next),
    }
}

// Writes a number of steps as a sample.
fn put_sample(out: &mut [u8], at: usize, steps: Option<i64>) -> usize {
    let next = put_name(out, at, b"sample");
    match steps {
        Some(v) => print::put_sample(out, next, v),
        None => put_refused(out, next),
    }
}

// Writes what a field is worth as an integer and as a counter.
fn put_integers(out: &mut [u8], at: usize, field: &[u8]) -> usize {
    let behind = put_natural(
        out,
        at,
        b"integer",
        numeral::read_integer(field, 0, LARGEST_ID),
    );
    put_signed(
        out,
        behind,
        b"counter",
        numeral::read_counter(field, LARGEST_ID),
    )
}

// Writes the pair that a decimal is kept as.
fn put_pair(out: &mut [u8], at: usize, d: Decimal) -> usize {
    let next = put_name(out, at, b"decimal");
    let behind = print::put_signed(out, next, d.mantissa);
    let last = output::put_byte(out, behind, b' ');
    print::put_signed(out, last, d.exponent)
}

// Writes what a decimal is worth as a dwell in ns, as a raster in seconds, and as a count.
fn put_wholes(out: &mut [u8], at: usize, d: Decimal) -> usize {
    let a = put_natural(out, at, b"dwell", numeral::whole_worth(d, 0, 1, 1000000000));
    let b = put_natural(out, a, b"raster", numeral::whole_worth(d, 9, 1, 1000000));
    put_natural(out, b, b"count", numeral::whole_worth(d, 0, 0, 1000000))
}

// Writes a decimal in steps of 10^-12, then as it is printed, then its steps as they are printed.
fn put_texts(out: &mut [u8], at: usize, d: Decimal) -> usize {
    let steps = numeral::rounded(d);
    let a = put_signed(out, at, b"steps", steps);
    let b = put_name(out, a, b"again");
    let c = print::put_decimal(out, b, d);
    put_sample(out, c, steps)
}

// Writes that a field is no decimal.
fn put_no_decimal(out: &mut [u8], at: usize) -> usize {
    output::put_bytes(
        out,
        at,
        b" | decimal - | dwell - | raster - | count - | steps - | again - | sample -",
    )
}

// Writes all that a field is worth as a decimal.
fn put_decimal(out: &mut [u8], at: usize, field: &[u8]) -> usize {
    match decimals::read_decimal(field) {
        Some(d) => {
            let a = put_pair(out, at, d);
            let b = put_wholes(out, a, d);
            put_texts(out, b, d)
        }
        None => put_no_decimal(out, at),
    }
}

// Writes the line for one field.
fn show(field: &[u8]) {
    let mut out = [0u8; 1024];
    let a = output::put_bytes(&mut out, 0, field);
    let b = put_integers(&mut out, a, field);
    let c = put_decimal(&mut out, b, field);
    let d = output::put_byte(&mut out, c, b'\n');
    io::write_all(STDOUT_FILENO, output::front(&out, d));
}

// Writes a line for each line of the input.
fn show_all(input: &[u8]) {
    let mut at = 0;
    // Each line says itself where the next one starts.
    while at < input.len() {
        let line = text::next_line(input, at);
        show(&input[at..line.stop]);
        at = line.next;
    }
}

// Reads the input, as much as the buffer holds, and writes its lines.
fn main() {
    let mut input = [0u8; 16384];
    let n = io::read_full(STDIN_FILENO, &mut input);
    show_all(&input[..n]);
}

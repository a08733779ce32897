// Finding a row by its class and ID. Hints, noted once for all rows, tell where a row may stand; a hint is looked at, never believed.
#![tactic(auto)]

ghost use Rattle.std.specs.Prelude.{◌-◌, ◌≤◌, ◌<◌, ◌≡◌, true};
ghost use Rattle.tables.specs.Tables.{number_at, is_row_of, first_row, NoneAgain, met_row, met_number, samples_of};
ghost use Rattle.tables.proofs.Found.{NoneAgain-prop};
ghost use Rattle.finding.specs.Hints.{group_of, room_of, home_of, free_from, laid_on, mark_of, first_event, base_mark, based_on, base_of, noted_row, noted_all};

// The first n rows of a table, of which none repeats an ID of its class, and hints for finding them.
#[derive(Clone, Copy)]
pub struct Rows<'a> {
    pub numbers: &'a [i64],
    pub hints: &'a [u16],
    pub n: usize,
    pub ghost once: { NoneAgain numbers.now n } by { NoneAgain-prop numbers.now n },
}

// How many rows share a hint, so that a hint of 16 bits can name any of n rows from the base on.
fn group_of(n: usize) -> usize
    ensures { result ≡ group_of n }
{
    // Most tables are no longer, and a division takes longer than to ask.
    if n < 65535 {
        return 1;
    }
    (n / 65535).min(1000000) + 1
}

// Among how many of so many places a hint can have its home: 63 more stand behind each, and behind all the base.
fn room_of(count: usize) -> u64
    ensures { result ≡ room_of count }
{
    count.min(4294967296).saturating_sub(64) as u64
}

// The home of the hint for an ID of a class, among so many places. An ID is mixed, so that IDs in any order spread.
fn home_of(count: usize, class: i64, id: i64) -> usize
    ensures { result ≡ home_of count class id }
{
    let own = id.unsigned_abs() % 4294967296 * 2654435769;
    let mixed = (own + class.unsigned_abs() % 16 * 268435456) % 4294967296;
    (mixed * room_of(count) / 4294967296) as usize
}

// The first place from a home on that has no hint; where there is none among 64, the place behind them.
fn free_from(hints: &[u16], home: usize) -> usize
    ensures { result ≡ free_from hints.now home 64 }
{
    let mut at = home;
    for _tried in 0..64usize {
        if at >= hints.len() || hints[at] == 0 {
            return at;
        }
        at += 1;
    }
    at
}

// The hint for row k of n: the number of its group, from 1, counted from the base on.
fn mark_of(k: usize, n: usize, base: usize) -> u16
    ensures { result ≡ mark_of k n base }
{
    let group = k.saturating_sub(base) / group_of(n.saturating_sub(base));
    (group.min(65534) + 1) as u16
}

// Lays a hint at a place, if that is there and has none.
fn lay_hint(hints: &mut [u16], at: usize, mark: u16)
    ensures { hints.new ≡ laid_on hints.old at mark }
{
    if at < hints.len() && hints[at] == 0 {
        hints[at] = mark;
    }
}

// Notes where row k of n stands. Nothing refers to blocks, which are not noted.
fn note_row(hints: &mut [u16], rows: &[i64], n: usize, base: usize, k: usize)
    ensures { hints.new ≡ noted_row hints.old rows.now n base k }
{
    let class = tables::row_class(rows, k);
    if class == tables::BLOCK {
        return;
    }
    let home = home_of(hints.len(), class, tables::number(rows, k, 1));
    let at = free_from(hints, home);
    lay_hint(hints, at, mark_of(k, n, base));
}

// The first of n rows that is no block; n if all are.
fn first_event(rows: &[i64], n: usize) -> usize
    ensures { result ≡ first_event rows.now n }
{
    for k in 0..n {
        if tables::row_class(rows, k) != tables::BLOCK {
            return k;
        }
    }
    n
}

// The mark of a base at a row or up to 255 rows before it.
fn base_mark(k: usize) -> u16
    ensures { result ≡ base_mark k }
{
    (k / 256).min(65535) as u16
}

// Lays the base behind all hints: blocks, which are not noted, stand before all other rows in most files.
fn lay_base(hints: &mut [u16], rows: &[i64], n: usize)
    ensures { hints.new ≡ based_on hints.old rows.now n }
{
    let last = hints.len().saturating_sub(1);
    lay_hint(hints, last, base_mark(first_event(rows, n)));
}

// The base from which rows are counted in hints.
fn base_in(hints: &[u16]) -> usize
    ensures { (result ≡ base_of hints.now) × (result ≤ 16776960) }
{
    usize::from(hints.last().copied().unwrap_or(0)) * 256
}

// Notes where each of n rows stands.
pub fn note_rows(hints: &mut [u16], rows: &[i64], n: usize)
    ensures { hints.new ≡ noted_all hints.old rows.now n }
{
    lay_base(hints, rows, n);
    let base = base_in(hints);
    for k in 0..n {
        note_row(hints, rows, n, base, k);
    }
}

// The row of this class with this ID among so many rows from a row on; n if none is.
fn row_from(rows: &[i64], n: usize, from: usize, size: usize, class: i64, id: i64) -> usize
    ensures { result < n → is_row_of rows.now class id result ≡ true }
{
    let mut k = from;
    for _tried in 0..size {
        if n <= k {
            return n;
        }
        if tables::is_row_of(rows, k, class, id) {
            return k;
        }
        k += 1;
    }
    n
}

// The row of this class with this ID in the group of a hint; n if none is.
fn row_in(rows: &[i64], n: usize, base: usize, mark: u16, class: i64, id: i64) -> usize
    requires { (1 ≤ mark) × (base ≤ 16776960) }
    ensures { result < n → is_row_of rows.now class id result ≡ true }
{
    let size = group_of(n.saturating_sub(base));
    let from = usize::from(mark - 1) * size + base;
    row_from(rows, n, from, size, class, id)
}

// The row of this class with this ID by its hint, which stands at its home or up to 63 places behind; n if no hint leads there.
fn hinted(rows: &[i64], hints: &[u16], n: usize, class: i64, id: i64) -> usize
    ensures { result < n → is_row_of rows.now class id result ≡ true }
{
    let base = base_in(hints);
    let mut at = home_of(hints.len(), class, id);
    for _tried in 0..64usize {
        if hints.len() <= at {
            return n;
        }
        let mark = hints[at];
        if mark == 0 {
            return n;
        }
        let k = row_in(rows, n, base, mark, class, id);
        if k < n {
            return k;
        }
        at += 1;
    }
    n
}

impl<'a> Rows<'a> {
    // Number c of row k, kind first; 0 where the table has no such row.
    pub fn number(self, k: usize, c: usize) -> i64
        ensures { result ≡ number_at self.entry.numbers.now k c }
    {
        tables::number(self.numbers, k, c)
    }

    // The row of this class with this ID; n if there is none. Where its hint leads is looked at first.
    pub fn find_once(self, class: i64, id: i64) -> usize
        ensures { result ≡ first_row self.entry.numbers.now self.entry.n class id }
    {
        let k = hinted(self.numbers, self.hints, self.n, class, id);
        if k < self.n {
            return k;
        }
        tables::find(self.numbers, self.n, class, id)
    }

    // The row that a reference meets; n if it is 0 or meets none.
    pub fn met_row(self, class: i64, id: i64) -> usize
        ensures { result ≡ met_row self.entry.numbers.now self.entry.n class id }
    {
        if id == 0 {
            return self.n;
        }
        self.find_once(class, id)
    }

    // Number c of the row that a reference meets; 0 if it meets none.
    pub fn met_number(self, class: i64, id: i64, c: usize) -> i64
        ensures { result ≡ met_number self.entry.numbers.now self.entry.n class id c }
    {
        let k = self.met_row(class, id);
        if k < self.n {
            return self.number(k, c);
        }
        0
    }

    // The samples of the shape with this ID; none if there is no such shape.
    pub fn samples_of<'s>(self, samples: &'s [i64], id: i64) -> &'s [i64]
        ensures { result.now ≡ samples_of self.entry.numbers.now self.entry.n samples.now id }
    {
        let k = self.met_row(tables::SHAPE, id);
        if k < self.n {
            return tables::samples_at(self.numbers, k, samples);
        }
        &[]
    }
}

// Restating a file to a target edition, in one call for every byte string: the text and the tables it was made of, or a numbered refusal with its line
// and zeros throughout.
#![tactic(auto)]

ghost use Rattle.std.specs.Prelude.{◌≡◌};
ghost use Rattle.restater.specs.Answers.{restated_number, restated_line, rows_read, samples_read, text_length, is_text};
ghost use Rattle.restater.specs.Restating.{Restating};
ghost use Rattle.restater.specs.Inside.{SaidJudged, AnswerJudged};

use answers::{Answer, Counts, RefusedAt};
use shape::Edition;

// How many rows and samples were read of a restated file, and how long its text is.
#[derive(Clone, Copy)]
pub struct Text {
    pub rows: usize,
    pub samples: usize,
    pub length: usize,
}

// Why a file is not restated: a refusal of reading, UNSAYABLE or OUTPUT.
#[derive(Clone, Copy)]
pub enum Unrestated {
    Unread(RefusedAt),
    Unsayable,
    Output,
}

// What restating answers.
pub type Restated = Result<Text, Unrestated>;

// The paper's number of an answer.
pub fn number(restated: Restated) -> u64
    ensures { result ≡ restated_number restated }
{
    match restated {
        Ok(_) => 0,
        Err(Unrestated::Unread(refused)) => refused.refusal.number(),
        Err(Unrestated::Unsayable) => 18,
        Err(Unrestated::Output) => 19,
    }
}

// The line of an answer.
pub fn line(restated: Restated) -> usize
    ensures { result ≡ restated_line restated }
{
    match restated {
        Err(Unrestated::Unread(refused)) => refused.line,
        Ok(_) | Err(Unrestated::Unsayable) | Err(Unrestated::Output) => 0,
    }
}

// How many rows of the lent table are used.
pub fn rows(restated: Restated) -> usize
    ensures { result ≡ rows_read restated }
{
    match restated {
        Ok(text) => text.rows,
        Err(_) => 0,
    }
}

// How many of the lent samples are used.
pub fn samples(restated: Restated) -> usize
    ensures { result ≡ samples_read restated }
{
    match restated {
        Ok(text) => text.samples,
        Err(_) => 0,
    }
}

// How long the text is.
pub fn length(restated: Restated) -> usize
    ensures { result ≡ text_length restated }
{
    match restated {
        Ok(text) => text.length,
        Err(_) => 0,
    }
}

// Is there a text?
pub fn is_text(restated: Restated) -> bool
    ensures { result ≡ is_text restated }
{
    restated.is_ok()
}

// UNSAYABLE and OUTPUT, of a file that was accepted with n rows and so many samples; writes the text.
fn say<'a>(
    target: Edition,
    file: &'a [u8],
    site: &'a [u8],
    rows: &[i64],
    n: usize,
    samples: &[i64],
    count: usize,
    out: &mut [u8],
) -> Restated
    ensures { SaidJudged target file.now site.now rows.now n samples.now count out.old result out.new }
{
    let own = sources::own_rasters(file, site);
    if sayable::is_unsayable(target, own, needs::site_rasters(site), rows, n) {
        return Err(Unrestated::Unsayable);
    }
    let raster = own.block;
    let length = restated::put_text(out, target, raster, file, site, rows, n, samples);
    if out.len() < length {
        return Err(Unrestated::Output);
    }
    if 16777216 < length {
        return Err(Unrestated::Output);
    }
    Ok(Text {
        rows: n,
        samples: count,
        length,
    })
}

// What follows of what was asked of the source: its refusal, or what can be said.
fn answer<'a>(
    asked: Answer,
    target: Edition,
    file: &'a [u8],
    site: &'a [u8],
    rows: &[i64],
    samples: &[i64],
    out: &mut [u8],
) -> Restated
    ensures { AnswerJudged asked target file.now site.now rows.now samples.now out.old result out.new }
{
    match asked {
        Ok(
            Counts {
                rows: n,
                samples: count,
            },
        ) => say(target, file, site, rows, n, samples, count, out),
        Err(refused) => Err(Unrestated::Unread(refused)),
    }
}

// Restates a file with a site's definitions to a target edition: reads it into the lent tables, and writes its text over the lent output, with zeros
// behind it; on a refusal all three hold zeros throughout.
pub fn restate<'a>(
    file: &'a [u8],
    site: &'a [u8],
    target: Edition,
    rows: &mut [i64],
    samples: &mut [i64],
    out: &mut [u8],
) -> Restated
    ensures { Restating target file.now site.now rows.old samples.old out.old result rows.new samples.new out.new }
{
    let read = reader::read(file, site, rows, samples);
    let asked = sources::ask_also(target, file, site, read);
    let restated = answer(asked, target, file, site, rows, samples, out);
    output::clear_bytes(out, length(restated));
    if !is_text(restated) {
        output::clear_numbers(rows, 0);
        output::clear_numbers(samples, 0);
    }
    restated
}

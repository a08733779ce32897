// What reading answers: an acceptance with its counts, or a numbered refusal with its line.
#![tactic(auto)]

ghost use Rattle.std.specs.Prelude.{◌≡◌};
ghost use Rattle.answers.specs.Outcome.{Refused};
ghost use Rattle.answers.specs.Answers.{refusal_number, answer_number, answer_line, rows_used, samples_used, is_accepted};

// Why a file is refused, in the paper's order.
#[derive(Clone, Copy)]
pub enum Refusal {
    Big,
    Line,
    Version,
    Section,
    Field,
    Missing,
    Room,
    Site,
    Duplicate,
    Raster,
    Shape,
    Reference,
    Loop,
    Use,
    Align,
    Long,
    Outlasts,
}

impl Refusal {
    // The paper's number of this refusal.
    pub fn number(self) -> u64
        ensures { result ≡ refusal_number self }
    {
        match self {
            Refusal::Big => 1,
            Refusal::Line => 2,
            Refusal::Version => 3,
            Refusal::Section => 4,
            Refusal::Field => 5,
            Refusal::Missing => 6,
            Refusal::Room => 7,
            Refusal::Site => 8,
            Refusal::Duplicate => 9,
            Refusal::Raster => 10,
            Refusal::Shape => 11,
            Refusal::Reference => 12,
            Refusal::Loop => 13,
            Refusal::Use => 14,
            Refusal::Align => 15,
            Refusal::Long => 16,
            Refusal::Outlasts => 17,
        }
    }
}

// How many rows and samples an accepted file has.
#[derive(Clone, Copy)]
pub struct Counts {
    pub rows: usize,
    pub samples: usize,
}

// Why a file is refused and at which line, where 0 is none.
#[derive(Clone, Copy)]
pub struct RefusedAt {
    pub refusal: Refusal,
    pub line: usize,
}

// What reading answers.
pub type Answer = Result<Counts, RefusedAt>;

// A refusal at a line.
pub fn refused(refusal: Refusal, line: usize) -> Answer
    ensures { result ≡ Refused refusal line }
{
    Err(RefusedAt { refusal, line })
}

// The paper's number of an answer.
pub fn number(answer: Answer) -> u64
    ensures { result ≡ answer_number answer }
{
    match answer {
        Ok(_) => 0,
        Err(refused) => refused.refusal.number(),
    }
}

// The line of an answer.
pub fn line(answer: Answer) -> usize
    ensures { result ≡ answer_line answer }
{
    match answer {
        Ok(_) => 0,
        Err(refused) => refused.line,
    }
}

// How many rows of the lent table are used.
pub fn rows(answer: Answer) -> usize
    ensures { result ≡ rows_used answer }
{
    match answer {
        Ok(counts) => counts.rows,
        Err(_) => 0,
    }
}

// How many of the lent samples are used.
pub fn samples(answer: Answer) -> usize
    ensures { result ≡ samples_used answer }
{
    match answer {
        Ok(counts) => counts.samples,
        Err(_) => 0,
    }
}

// Is this an acceptance?
pub fn is_accepted(answer: Answer) -> bool
    ensures { result ≡ is_accepted answer }
{
    answer.is_ok()
}

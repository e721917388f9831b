// The answers of the calls, with the paper's numbers and values, and the running total of a page.
#![tactic(auto)]

ghost use Rattle.std.specs.Prelude.{◌≡◌};
ghost use Rattle.page_answers.specs.Answers.{number_of, value_of, end_number, end_strip, plain_answer};
ghost use Rattle.page_answers.specs.Totals.{no_total, added, answer_for};

use refusals::{Refusal, refusal_number};

// The answer of a write, and of a price: done with the cost, spent with the strip's number, or refused.
#[derive(Clone, Copy, Drop)]
pub enum Answer {
    Done(u32),
    Spent(u32),
    Refused(Refusal),
}

// How a list of writes ended: every data is written, the page is spent for the next one, with the strip's number, or it is refused. Three
// cases, as those of an answer: a Result would put two of them into one.
#[derive(Clone, Copy, Drop)]
pub enum End {
    Done,
    Spent(u32),
    Refused(Refusal),
}

// The answer of a list of writes: how many of its datas are written, what they cost together, and how it ended.
#[derive(Clone, Copy, Drop)]
pub struct ListAnswer {
    pub written: u32,
    pub cost: u32,
    pub end: End,
}

// The answer of a write in a band: done with the cost and the value stored, spent, or refused.
#[derive(Clone, Copy, Drop)]
pub enum BandAnswer {
    Done(u32, u16),
    Spent,
    Refused(Refusal),
}

// The running total of a page: the cost and the number of the strips so far, and whether one was spent, which leaves both as they are.
#[derive(Clone, Copy, Drop)]
pub struct Total {
    pub cost: u64,
    pub strips: u32,
    pub spent: bool,
}

impl Total {
    // No strip yet.
    pub fn new() -> Total
        ensures { result ≡ no_total }
    {
        Total {
            cost: 0,
            strips: 0,
            spent: false,
        }
    }

    // The total with a strip's outcome added, the cost or None where the strip is spent; once spent it stays.
    pub fn add(self, outcome: Option<u32>) -> Total
        ensures { result ≡ added self outcome }
    {
        if self.spent {
            return self;
        }
        match outcome {
            Some(cost) => Total {
                cost: self.cost.wrapping_add(u64::from(cost)),
                strips: self.strips.wrapping_add(1),
                spent: false,
            },
            None => Total {
                spent: true,
                ..self
            },
        }
    }

    // What it answers.
    pub fn answer(self) -> Answer
        ensures { result ≡ answer_for self }
    {
        if self.spent {
            Answer::Spent(self.strips)
        } else {
            Answer::Done((self.cost % 4294967296) as u32)
        }
    }
}

// The number of a write's answer: 0, 7 where the page is spent, or the refusal's.
pub fn number(answer: Answer) -> u32
    ensures { result ≡ number_of answer }
{
    match answer {
        Answer::Done(_) => 0,
        Answer::Spent(_) => 7,
        Answer::Refused(refusal) => refusal_number(refusal),
    }
}

// The value of a write's answer: the cost, the strip's number where the page is spent, or 0.
pub fn value(answer: Answer) -> u32
    ensures { result ≡ value_of answer }
{
    match answer {
        Answer::Done(cost) => cost,
        Answer::Spent(strip) => strip,
        Answer::Refused(_) => 0,
    }
}

// The number of a list's end: 0, 7 where the page is spent, or the refusal's.
pub fn end_number(end: End) -> u32
    ensures { result ≡ end_number end }
{
    match end {
        End::Done => 0,
        End::Spent(_) => 7,
        End::Refused(refusal) => refusal_number(refusal),
    }
}

// The strip that is spent, or 0.
pub fn end_strip(end: End) -> u32
    ensures { result ≡ end_strip end }
{
    match end {
        End::Done => 0,
        End::Spent(strip) => strip,
        End::Refused(_) => 0,
    }
}

// What a write in a band answers, without the value stored: as a write does.
pub fn plain(answer: BandAnswer) -> Answer
    ensures { result ≡ plain_answer answer }
{
    match answer {
        BandAnswer::Done(cost, _) => Answer::Done(cost),
        BandAnswer::Spent => Answer::Spent(0),
        BandAnswer::Refused(refusal) => Answer::Refused(refusal),
    }
}

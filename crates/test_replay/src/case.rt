use crate::lent::BEFORE;
use crate::runs::Reader;
use trestlejay::Answer;

// The questions' numbers; those below are of types alone, and those between of operations on a table.
pub(crate) const FIXING: u64 = 31;

pub(crate) const UPDATE: u64 = 32;

pub(crate) const PUT_NOTHING: u64 = 33;

pub(crate) const PUT_TYPE: u64 = 34;

pub(crate) const PUT_POISON: u64 = 35;

pub(crate) const FORWARD_TYPE: u64 = 36;

pub(crate) const GET: u64 = 38;

pub(crate) const AUTODEREF: u64 = 39;

pub(crate) const WALK: u64 = 40;

// A line: the question, what the Rust answered, and the runs.
#[derive(Clone, Copy)]
pub(crate) struct Case<'a> {
    pub question: u64,
    pub answer: Answer,
    pub written: &'a [u64],
    pub a: &'a [u64],
    pub b: &'a [u64],
    pub target: &'a [u64],
    pub steps: &'a [u64],
    pub table: &'a [u64],
}

impl<'a> From<&'a [u64]> for Case<'a> {
    fn from(line: &'a [u64]) -> Case<'a> {
        let mut line = Reader { rest: line };
        Case {
            question: line.word(),
            answer: Answer {
                refusal: line.word(),
                value: line.word(),
            },
            written: line.run(),
            a: line.run(),
            b: line.run(),
            target: line.run(),
            steps: line.run(),
            table: line.rest,
        }
    }
}

impl Case<'_> {
    // Whether an answer is the Rust's.
    pub(crate) fn is_answer(&self, a: Answer) -> bool {
        a.refusal == self.answer.refusal && a.value == self.answer.value
    }

    // What the Rust left in a word that was lent.
    pub(crate) fn word_written(&self, i: usize) -> u64 {
        self.written.get(i).copied().unwrap_or(BEFORE)
    }
}

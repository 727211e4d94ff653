// Numbers that must not be mixed, a run of bytes, and the answers of every operation.
#![tactic(auto)]

ghost use Rattle.std.specs.Prelude.{◌≡◌, ◌+◌, ◌≤◌, length, take, drop, ok_or};
ghost use Rattle.units.specs.Answers.{number_of, answer_of};

use std::error::Error;
use std::fmt;

// A place in the commit log.
#[derive(Clone, Copy)]
pub struct LogPosition(pub u64);

// A place in a consume queue.
#[derive(Clone, Copy)]
pub struct QueueOffset(pub u64);

// A run of bytes: where it begins, how long it is.
#[derive(Clone, Copy, Default)]
pub struct Place {
    pub at: usize,
    pub len: usize,
}

impl Place {
    // The bytes that stand there.
    pub fn of(self, bytes: &[u8]) -> &[u8]
        requires { self.at + self.len ≤ length bytes.now }
        ensures { result.now ≡ take self.len (drop self.at bytes.now) }
    {
        let end = self.at + self.len;
        &bytes[self.at..end]
    }
}

// What an operation answers, in the order of document 01's table.
#[derive(Clone, Copy)]
pub enum Answer {
    // done, caught up, chain ended or enough found
    Done,
    // a size breaks its limit, or log or index has another length
    BadSizes,
    // position, readable end or entry count is bad
    BadPosition,
    // directory or queue buffer is bad
    BadDirectory,
    // index header is bad
    BadHeader,
    // append request is outside the record rules
    BadRequest,
    // no room is left in the log
    LogFull,
    // blank written: try again at the new position
    BlankWritten,
    // record is not wholly below the readable end
    NotReadable,
    // no step is left of the budget
    BudgetSpent,
    // record is damaged
    Damaged,
    // record's queue is not in the directory
    QueueNotListed,
    // record's queue offset is not the queue's entry count
    OutOfStep,
    // queue has no entry left
    QueueFull,
    // index has no room for the record's items
    IndexFull,
    // index holds an item at or past the record
    IndexAhead,
    // slot, link or item is damaged
    ChainBroken,
    // query or queue reading is malformed
    Malformed,
}

// A number that no answer has.
#[derive(Clone, Copy, Debug, PartialEq, Eq)]
pub struct UnknownAnswer(pub u32);

impl From<Answer> for u32 {
    ghost from_gives = { λ answer number. number ≡ number_of answer };

    fn from(answer: Answer) -> u32 {
        match answer {
            Answer::Done => 0,
            Answer::BadSizes => 1,
            Answer::BadPosition => 2,
            Answer::BadDirectory => 3,
            Answer::BadHeader => 4,
            Answer::BadRequest => 5,
            Answer::LogFull => 6,
            Answer::BlankWritten => 7,
            Answer::NotReadable => 8,
            Answer::BudgetSpent => 9,
            Answer::Damaged => 10,
            Answer::QueueNotListed => 11,
            Answer::OutOfStep => 12,
            Answer::QueueFull => 13,
            Answer::IndexFull => 14,
            Answer::IndexAhead => 15,
            Answer::ChainBroken => 16,
            Answer::Malformed => 17,
        }
    }
}

// The way back, for whoever is given a number; no function of the store asks for it.
impl TryFrom<u32> for Answer {
    type Error = UnknownAnswer;

    ghost try_from_gives = { λ number r. r ≡ ok_or (answer_of number) (record { 0 = number }) };

    #[tactic(auto, unfolding(crate::specs::Answers::answer_of, crate::specs::Answers::row_at, crate::specs::Answers::answers))]
    fn try_from(number: u32) -> Result<Self, UnknownAnswer> {
        match number {
            0 => Ok(Answer::Done),
            1 => Ok(Answer::BadSizes),
            2 => Ok(Answer::BadPosition),
            3 => Ok(Answer::BadDirectory),
            4 => Ok(Answer::BadHeader),
            5 => Ok(Answer::BadRequest),
            6 => Ok(Answer::LogFull),
            7 => Ok(Answer::BlankWritten),
            8 => Ok(Answer::NotReadable),
            9 => Ok(Answer::BudgetSpent),
            10 => Ok(Answer::Damaged),
            11 => Ok(Answer::QueueNotListed),
            12 => Ok(Answer::OutOfStep),
            13 => Ok(Answer::QueueFull),
            14 => Ok(Answer::IndexFull),
            15 => Ok(Answer::IndexAhead),
            16 => Ok(Answer::ChainBroken),
            17 => Ok(Answer::Malformed),
            18..=4294967295 => Err(UnknownAnswer(number)),
        }
    }
}

impl fmt::Display for UnknownAnswer {
    ghost use Rattle.std.specs.Prelude.{Some};
    ghost use Rattle.units.specs.Answers.{unknown_text};

    ghost output = { λ unknown. Some (unknown_text unknown.0) };

    fn fmt<W: fmt::Write>(&self, f: &mut fmt::Formatter<W>) -> fmt::Result {
        write!(f, "no answer has number {}", self.0)
    }
}

impl Error for UnknownAnswer {}

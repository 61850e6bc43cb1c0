// What goes out to C. It has no enum whose cases carry values, and no slice as a result, so these are structs of numbers.
ghost use Rattle.std.specs.Prelude.{◌≡◌};

use refusals::Numbered;
use rules::{Refusal, Settlement};

// The number and the position of a refusal; number 0 says that there is none. Not `refusals::Numbered`: the layout is C's.
#[repr(C)]
#[derive(Clone, Copy, Default)]
pub struct Answer {
    pub number: u32,
    pub position: usize,
}

// A part of the lent table: the byte at which it begins, and how many bytes it has.
#[repr(C)]
#[derive(Clone, Copy, Default)]
pub struct Part {
    pub begin: usize,
    pub length: usize,
}

// What a settlement gives: number 0 and the counts, or a refusal's number and position with every count 0.
#[repr(C)]
#[derive(Clone, Copy)]
pub struct SettledNumbers {
    pub number: u32,
    pub position: usize,
    pub records: usize,
    pub highest: u32,
    pub undecided: u32,
    pub written: usize,
    pub equivocators: usize,
}

impl From<Result<(), Refusal>> for Answer {
    ghost use Rattle.rules.specs.Refusals.{tells};
    ghost use Rattle.exports.specs.Answers.{answer_as};

    ghost from_gives = { λ c answer. answer ≡ answer_as (tells c) };

    fn from(c: Result<(), Refusal>) -> Answer {
        match c {
            Ok(()) => Answer::default(),
            Err(why) => {
                let Numbered { number, position } = Numbered::from(why);
                Answer { number, position }
            }
        }
    }
}

impl From<Settlement> for SettledNumbers {
    ghost use Rattle.rules.specs.Refusals.{tells};
    ghost use Rattle.exports.specs.Answers.{settled_as};

    ghost from_gives = { λ s numbers. numbers ≡ settled_as (tells s.outcome) };

    fn from(s: Settlement) -> SettledNumbers {
        let c = s.outcome.unwrap_or_default();
        let why = Answer::from(s.outcome.map(|_| ()));
        SettledNumbers {
            number: why.number,
            position: why.position,
            records: c.records,
            highest: c.highest,
            undecided: c.undecided,
            written: c.written,
            equivocators: c.equivocators,
        }
    }
}

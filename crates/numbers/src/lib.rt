// Outcomes as numbers: each answer about tables and points in two numbers, the first of them 0 or document 01's number of the refusal.
#![tactic(auto)]

ghost use Rattle.std.specs.Prelude.{◌≡◌};
ghost use Rattle.tables.specs.Numbers.{accepted_numbers, refused_numbers};
ghost use Rattle.numbers.specs.Line.{line_of, reading_line, trial_line, place_line};

use tables::Refusal;

// An outcome in two numbers: 0 or the refusal's number, then the answer or the refusal's record.
#[derive(Clone, Copy, Debug, PartialEq, Eq)]
pub struct Line {
    pub outcome: u32,
    pub value: u32,
}

fn accepted(value: u32) -> Line
    ensures { result ≡ line_of (accepted_numbers value) }
{
    Line { outcome: 0, value }
}

fn refused(why: Refusal) -> Line
    ensures { result ≡ line_of (refused_numbers why) }
{
    Line {
        outcome: u32::from(why.reason),
        value: why.at,
    }
}

// A reading.
impl From<Result<(), Refusal>> for Line {
    ghost from_gives = { λ read line. line ≡ reading_line read };

    fn from(read: Result<(), Refusal>) -> Line {
        match read {
            Ok(()) => accepted(0),
            Err(why) => refused(why),
        }
    }
}

// A trial: yes or no.
impl From<Result<bool, Refusal>> for Line {
    ghost from_gives = { λ tried line. line ≡ trial_line tried };

    fn from(tried: Result<bool, Refusal>) -> Line {
        match tried {
            Ok(true) => accepted(1),
            Ok(false) => accepted(0),
            Err(why) => refused(why),
        }
    }
}

// A place.
impl From<Result<u32, Refusal>> for Line {
    ghost from_gives = { λ placed line. line ≡ place_line placed };

    fn from(placed: Result<u32, Refusal>) -> Line {
        match placed {
            Ok(k) => accepted(k),
            Err(why) => refused(why),
        }
    }
}

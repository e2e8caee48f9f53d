// Term tables: the definitions of the record format and of reading (`specs/`), and how an operation on a table is refused.
//
// A table is a lent run of 32-bit words in records of four, numbered from 0. Chains run by index to higher records; index 0 ends one.

#![tactic(auto)]

ghost use Rattle.std.specs.Prelude.{◌≡◌};
ghost use Rattle.tables.specs.Reason.{number};

// Why a call is refused.
#[derive(Clone, Copy, Debug, PartialEq, Eq)]
pub enum Reason {
    Shape,
    Prime,
    Variables,
    Index,
    Head,
    Coefficient,
    Exponent,
    Order,
    Terms,
    Degree,
    Room,
    Steps,
    Output,
    Point,
    Broken,
}

// An index that leads to no record above the one that holds it.
#[derive(Clone, Copy, Debug, PartialEq, Eq)]
pub struct Astray;

// A refusal: why, and at which record. Outside of reading the record is 0.
#[derive(Clone, Copy, Debug, PartialEq, Eq)]
pub struct Refusal {
    pub reason: Reason,
    pub at: u32,
}

// The number of a refusal.
impl From<Reason> for u32 {
    ghost from_gives = { λ why n. n ≡ number why };

    #[tactic(auto, unfolding(crate::specs::Reason::number))]
    fn from(why: Reason) -> u32 {
        match why {
            Reason::Shape => 1,
            Reason::Prime => 2,
            Reason::Variables => 3,
            Reason::Index => 4,
            Reason::Head => 5,
            Reason::Coefficient => 6,
            Reason::Exponent => 7,
            Reason::Order => 8,
            Reason::Terms => 9,
            Reason::Degree => 10,
            Reason::Room => 11,
            Reason::Steps => 12,
            Reason::Output => 13,
            Reason::Point => 14,
            Reason::Broken => 15,
        }
    }
}

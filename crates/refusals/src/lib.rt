// Document 01's number and position of a refusal, for all that tell it: the lines and the exports.
#![tactic(auto)]

use rules::Refusal;

#[derive(Clone, Copy)]
pub struct Numbered {
    pub number: u32,
    pub position: usize,
}

// The record's position; 0 for a refusal that is of no record.
impl From<Refusal> for Numbered {
    ghost use Rattle.std.specs.Prelude.{◌≡◌};
    ghost use Rattle.rules.specs.Refusals.{refusal_tells};
    ghost use Rattle.refusals.specs.Numbers.{numbered_as};

    ghost from_gives = { λ why told. told ≡ numbered_as {A = Unit {0}} (refusal_tells why) };

    fn from(why: Refusal) -> Numbered {
        let (number, position) = match why {
            Refusal::Authors => (1, 0),
            Refusal::Length => (2, 0),
            Refusal::Records => (3, 0),
            Refusal::Sum { position } => (4, position),
            Refusal::Padding { position } => (5, position),
            Refusal::Rising { position } => (6, position),
            Refusal::Entries { position } => (7, position),
            Refusal::Earlier { position } => (8, position),
            Refusal::Lent => (10, 0),
            Refusal::Unnamed => (11, 0),
            Refusal::Input => (12, 0),
            Refusal::RoundZero { position } => (18, position),
            Refusal::MarkZero { position } => (19, position),
            Refusal::AuthorPast { position } => (20, position),
        };
        Numbered { number, position }
    }
}

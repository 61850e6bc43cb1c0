// What a decision cell says: the words of document 01 for its numbers.
ghost use Rattle.std.specs.Prelude.{◌≡◌};

// A committed slot has the position of its vertex.
#[derive(Clone, Copy, PartialEq, Eq)]
pub enum Cell {
    Undecided,
    Skipped,
    Committed { position: usize },
}

impl From<u32> for Cell {
    ghost use Rattle.rules.specs.Decision.{said};
    ghost use Rattle.stops.specs.Cells.{says};

    ghost from_gives = { λ number cell. says cell ≡ said number };

    fn from(number: u32) -> Cell {
        match number {
            0 => Cell::Undecided,
            1 => Cell::Skipped,
            _ => Cell::Committed {
                position: number as usize - 2,
            },
        }
    }
}

// Where the records of a round, and of an author in it, begin. Names rise, so they stand side by side.
ghost use Rattle.std.specs.Prelude.{◌≡◌};
ghost use Rattle.decide.specs.Ready.{vertices_of};
ghost use Rattle.decide.specs.Range.{start_of};

use crate::passed::Passed;
use rules::Name;
use search::place;

// The first record of the round by that author or a higher one, or of a higher round.
#[tactic(auto, using(crate::proofs::Ranges::start_is))]
pub(crate) fn begin(t: Passed, round: u32, author: u8) -> usize
    ensures { result ≡ start_of (vertices_of t.entry.table.now) round author }
{
    place(
        t.table,
        record::records_of(t.table),
        Name {
            round,
            author,
            mark: 0,
        },
    )
}

// The counts of a settled table.
ghost use Rattle.std.specs.Prelude.{◌≡◌, ◌+◌, ◌<◌, eqb, length, get_or};
ghost use Rattle.folds.specs.Folds.{first_to, tabulate};
ghost use Rattle.rules.specs.Settlement.{equivocates, equivocators};
ghost use Rattle.settlement.specs.Twins.{side};
ghost use Rattle.decide.specs.Ready.{vertices_of, records_of};

use decide::passed::Passed;
use stops::Cell;

// The first slot whose cell says that it is undecided, counted from 1; past the last if there is none.
pub(crate) fn first_undecided(cells: &[u32]) -> usize
    ensures { result ≡ 1 + first_to (λ t. eqb (get_or cells.now t 0) 0) (length cells.now) }
{
    1 + cells
        .iter()
        .position(|c| Cell::from(*c) == Cell::Undecided)
        .unwrap_or(cells.len())
}

// Whether the record at p and the one after it are of one author and one round.
#[tactic(auto, using(crate::proofs::Counting::sides))]
fn twins(t: Passed, p: usize) -> bool
    requires { p + 1 < records_of t.table.now }
    ensures { result ≡ side (vertices_of t.entry.table.now) p }
{
    let x = record::name_at(t.table, p);
    let y = record::name_at(t.table, p + 1);
    (x.round, x.author) == (y.round, y.author)
}

// Tells for each author whether it has two records in some one round. Names rise, so two such records stand side by side.
fn split_authors(t: Passed) -> [bool; 31]
    ensures { result ≡ tabulate (λ a. equivocates (vertices_of t.entry.table.now) a) 31 }
{
    let mut split = [false; 31];
    for p in 1..record::records_of(t.table) {
        if twins(t, p - 1) {
            let x = record::name_at(t.table, p);
            split[x.author as usize] = true;
        }
    }
    split
}

#[tactic(auto, using(crate::proofs::Counting::set_count))]
pub(crate) fn equivocators_of(t: Passed) -> usize
    ensures { result ≡ equivocators t.entry.n (vertices_of t.entry.table.now) }
{
    let split = split_authors(t);
    split[..t.n as usize].iter().filter(|x| **x).count()
}

// What decision cells say, and where the indirect search for an anchor stops.
#![tactic(auto)]

ghost use Rattle.std.specs.Prelude.{◌≡◌, ◌+◌, get_or};
ghost use Rattle.stops.specs.Stops.{stop_at};

mod cell;

pub use cell::Cell;

// The cell of a slot counted from 0; past the cells it is 0, that of an undecided one. A number and no `Cell`: so says its promise.
pub fn cell_at(cells: &[u32], slot: usize) -> u32
    ensures { result ≡ get_or cells.now slot 0 }
{
    cells.get(slot).copied().unwrap_or(0)
}

// The round at which the indirect search for a round's anchor stops: from three rounds up, the first that isn't skipped, or the one past
// the highest. A loop that yields by break, and a round for none: so document 01's form and `stop_at`.
#[tactic(auto, using(crate::proofs::Stops::stop_found, crate::proofs::Stops::stop_past))]
pub fn stop_at(cells: &[u32], round: u32, highest: u32) -> usize
    ensures { result ≡ 1 + stop_at cells.now (round + 2) highest }
{
    let top = highest as usize;
    let mut t = round as usize + 3;
    loop {
        if top < t {
            break 1 + top;
        }
        if Cell::from(cell_at(cells, t - 1)) != Cell::Skipped {
            break t;
        }
        t += 1;
    }
}

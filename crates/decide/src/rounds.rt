// The decision of every round, from the highest down, in the cells.
ghost use Rattle.std.specs.Prelude.{◌≡◌, map, ◌-◌, ◌≤◌, ◌<◌, length};
ghost use Rattle.rules.specs.Authors.{leader};
ghost use Rattle.rules.specs.Record.{first};
ghost use Rattle.rules.specs.Decision.{cell};
ghost use Rattle.rules.specs.Support.{references};
ghost use Rattle.rules.specs.Decide.{box_setting, highest, decisions, decision_at, through_anchor};
ghost use Rattle.rules.specs.Settlement.{written_over};
ghost use Rattle.stops.specs.Cells.{says};
ghost use Rattle.decide.specs.Ready.{vertices_of, records_of, last_round};
ghost use Rattle.decide.specs.Cells.{indirectly, anchor_of, done_of, InHand, AtAnchor, InCell};

use crate::direct::{cell_of, directly};
use crate::history::{Walk, certified_in, walk_to};
use crate::passed::{Passed, Slot};
use crate::range::begin;
use search::highest_of;
use stops::{Cell, cell_at, stop_at};

// What is decided of a round, and how far the history of an anchor is marked then.
#[derive(Clone, Copy)]
pub(crate) struct Round {
    pub cell: Cell,
    pub walk: Option<Walk>,
}

// The number that stands in a cell. No `From`, since not every position has one.
fn cell_number(decided: Cell) -> u32
    requires { cell (says decided) ≤ 4097 }
    ensures { result ≡ cell (says decided) }
{
    match decided {
        Cell::Undecided => 0,
        Cell::Skipped => 1,
        Cell::Committed { position } => 2 + position as u32,
    }
}

// The slot of a round: who leads it.
#[tactic(auto, unfolding(rules::specs::Authors::leader))]
fn slot_of(n: u8, round: u32) -> Slot
    requires n_nonzero { 0 < n }
    requires from_one { 0 < round }
    requires low { round ≤ last_round }
    ensures round { result.round ≡ round }
    ensures leader { result.leader ≡ leader n result.round }
{
    Slot {
        round,
        leader: ((round - 1) % n as u32) as u8,
    }
}

// The round through its anchor, the vertex at a.
fn through_anchor(t: Passed, s: Slot, a: usize, walk: Option<Walk>, work: &mut [u8]) -> Round
    requires leads { s.leader ≡ leader t.n s.round }
    requires at_anchor { AtAnchor references first t.n t.table.now s.round a
        (anchor_of (vertices_of t.table.now) walk) (done_of walk) work.old }
    ensures { InCell references (vertices_of t.entry.table.now)
        (through_anchor (box_setting t.entry.n) t.entry.n (vertices_of t.entry.table.now) (s.round - 1) a)
        work.old (cell (says result.cell)) (anchor_of (vertices_of t.entry.table.now) result.walk) (done_of result.walk) work.new }
{
    let down = walk_to(t, a, begin(t, s.round + 3, 0), walk, work);
    let found = certified_in(t, s, a, down.done, work);
    Round {
        cell: cell_of(found, Cell::Skipped),
        walk: Some(down),
    }
}

// One round by the indirect rule.
fn by_anchor(t: Passed, s: Slot, cells: &[u32], walk: Option<Walk>, work: &mut [u8]) -> Round
    requires { InHand (box_setting t.n) first t.n t.table.now (s.round - 1) s.round s.leader cells.now
        (anchor_of (vertices_of t.table.now) walk) (done_of walk) work.old }
    ensures { InCell references (vertices_of t.entry.table.now)
        (indirectly (box_setting t.entry.n) t.entry.n (vertices_of t.entry.table.now) (s.round - 1))
        work.old (cell (says result.cell)) (anchor_of (vertices_of t.entry.table.now) result.walk) (done_of result.walk) work.new }
{
    let top = highest_of(t.table);
    let stop = stop_at(cells, s.round, top);
    if stop <= top as usize {
        if let Cell::Committed { position } = Cell::from(cell_at(cells, stop - 1)) {
            return through_anchor(t, s, position, walk, work);
        }
    }
    Round {
        cell: Cell::Undecided,
        walk,
    }
}

// One round: by the direct rules, and else by the indirect one.
fn decide_one(t: Passed, s: Slot, cells: &[u32], walk: Option<Walk>, work: &mut [u8]) -> Round
    requires { InHand (box_setting t.n) first t.n t.table.now (s.round - 1) s.round s.leader cells.now
        (anchor_of (vertices_of t.table.now) walk) (done_of walk) work.old }
    ensures { InCell references (vertices_of t.entry.table.now)
        (decision_at (decisions (box_setting t.entry.n) t.entry.n (vertices_of t.entry.table.now)) (s.round - 1))
        work.old (cell (says result.cell)) (anchor_of (vertices_of t.entry.table.now) result.walk) (done_of result.walk) work.new }
{
    match directly(t, s, work) {
        Cell::Undecided => by_anchor(t, s, cells, walk, work),
        cell => Round { cell, walk },
    }
}

// Every round up to the highest.
pub(crate) fn decide_all(t: Passed, cells: &mut [u32], work: &mut [u8])
    requires room { records_of t.table.now ≤ length work.old }
    requires table_in_bounds { highest (vertices_of t.table.now) ≤ length cells.old }
    ensures cells_after { cells.new ≡ written_over
        (map cell (decisions (box_setting t.entry.n) t.entry.n (vertices_of t.entry.table.now))) cells.old }
    ensures work_len_unchanged { length work.new ≡ length work.old }
{
    let mut walk = None;
    for round in (1..=highest_of(t.table)).rev() {
        let s = slot_of(t.n, round);
        let r = decide_one(t, s, cells, walk, work);
        cells[round as usize - 1] = cell_number(r.cell);
        walk = r.walk;
    }
}

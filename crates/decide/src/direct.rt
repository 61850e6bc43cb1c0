// The direct rules.
ghost use Rattle.std.specs.Prelude.{◌≡◌, false, cond, ◌+◌, ◌-◌, ◌≤◌, ◌<◌, length, MatchOption};
ghost use Rattle.rules.specs.Authors.{leader};
ghost use Rattle.decide.specs.Ready.{vertices_of, records_of};
ghost use Rattle.rules.specs.Support.{direct_commit, direct_skip};
ghost use Rattle.rules.specs.Decide.{box_setting};
ghost use Rattle.stops.specs.Cells.{says};
ghost use Rattle.decide.specs.Work.{Retagged, Window};
ghost use Rattle.decide.specs.Cells.{first_in, FailTo, FirstPass, Found, committed_or, directly};

use crate::passed::{Passed, Slot};
use crate::range::begin;
use crate::tags::{authors_tagged, tag_blank, tag_certified};
use stops::Cell;
use tally::quorum_of;

// The first vertex from b up to e that a quorum certifies. The tags say who certifies which.
fn commit_in(t: Passed, s: Slot, b: usize, e: usize, work: &[u8]) -> Option<usize>
    requires room { records_of t.table.now ≤ length work.now }
    requires window { Window t.n (vertices_of t.table.now) s.round s.leader b e work.now }
    ensures { MatchOption result (FailTo (vertices_of t.entry.table.now) (direct_commit t.entry.n (vertices_of t.entry.table.now)) b e)
        (λ p. FirstPass (vertices_of t.entry.table.now) (direct_commit t.entry.n (vertices_of t.entry.table.now)) b e p) }
{
    let q = quorum_of(t.n);
    for p in b..e {
        let tag = (p - b) as u8 + 1;
        if q <= authors_tagged(t, s.round + 2, tag, work) {
            return Some(p);
        }
    }
    None
}

// The lowest-mark vertex of the slot that is a direct commit. A tag tells 127 vertices apart, so as many are looked at in one go.
#[tactic(auto, using(crate::proofs::Ranges::start_bound))]
fn direct_commit(t: Passed, s: Slot, work: &mut [u8]) -> Option<usize>
    requires room { records_of t.table.now ≤ length work.old }
    requires leader_lt_n { s.leader < t.n }
    ensures value { Found result
        (first_in (vertices_of t.entry.table.now) s.round s.leader (direct_commit t.entry.n (vertices_of t.entry.table.now)))
        (records_of t.entry.table.now) }
    ensures retagged { Retagged work.old work.new }
{
    let end = begin(t, s.round, s.leader + 1);
    for b in (begin(t, s.round, s.leader)..end).step_by(127) {
        let e = end.min(b + 127);
        tag_certified(t, s, b, e, work);
        if let Some(p) = commit_in(t, s, b, e, work) {
            return Some(p);
        }
    }
    None
}

#[tactic(auto, using(crate::proofs::Tagging::skip_tagged))]
fn direct_skip(t: Passed, s: Slot, work: &mut [u8]) -> bool
    requires room { records_of t.table.now ≤ length work.old }
    ensures value { result ≡ direct_skip t.entry.n (vertices_of t.entry.table.now) s.round s.leader }
    ensures retagged { Retagged work.old work.new }
{
    tag_blank(t, s, work);
    quorum_of(t.n) <= authors_tagged(t, s.round + 1, 1, work)
}

// Direct skip, tried only if there is no direct commit. By itself, so that an edit that tries it always changes one word (DECISIONS 53).
fn skip_unless(t: Passed, s: Slot, committed: bool, work: &mut [u8]) -> bool
    requires room { records_of t.table.now ≤ length work.old }
    ensures value { result ≡ cond committed false (direct_skip t.entry.n (vertices_of t.entry.table.now) s.round s.leader) }
    ensures retagged { Retagged work.old work.new }
{
    if committed {
        return false;
    }
    direct_skip(t, s, work)
}

// Committed with the vertex that is found, and else `other`.
pub(crate) fn cell_of(found: Option<usize>, other: Cell) -> Cell
    ensures { says result ≡ committed_or found (says other) }
{
    match found {
        Some(position) => Cell::Committed { position },
        None => other,
    }
}

// What the direct rules decide of a round; undecided if neither applies.
#[tactic(auto, using(crate::proofs::InCells::leader_low))]
pub(crate) fn directly(t: Passed, s: Slot, work: &mut [u8]) -> Cell
    requires room { records_of t.table.now ≤ length work.old }
    requires leads { s.leader ≡ leader t.n s.round }
    ensures value { says result ≡ directly (box_setting t.entry.n) t.entry.n (vertices_of t.entry.table.now) (s.round - 1) }
    ensures retagged { Retagged work.old work.new }
{
    let found = direct_commit(t, s, work);
    if skip_unless(t, s, found.is_some(), work) {
        return Cell::Skipped;
    }
    cell_of(found, Cell::Undecided)
}

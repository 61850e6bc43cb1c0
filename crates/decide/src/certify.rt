// Which vertex of a slot a vertex two rounds up certifies. More than half of its references would have to back it, so there is one at most.
ghost use Rattle.std.specs.Prelude.{◌≡◌, cond, ◌+◌, ◌≤◌, ◌<◌, ltb};
ghost use Rattle.rules.specs.Record.{at, entry};
ghost use Rattle.decide.specs.Ready.{vertices_of, records_of};
ghost use Rattle.references.specs.Places.{HoldsAll};
ghost use Rattle.decide.specs.Certify.{backs, certified_at};

use crate::passed::{Passed, Slot};
use record::entry_at;
use references::places_of;
use rules::Name;
use search::find;
use tally::{enough_of, quorum_of};

// The mark that the vertex at q holds for the leader, if q is below `count`, and else 0 (no reference; so says `backs`).
fn back(t: Passed, q: usize, count: usize, leader: u8) -> u32
    requires { count ≤ records_of t.table.now }
    ensures { result ≡ cond (ltb q count) (entry (at (vertices_of t.entry.table.now) q) leader) 0 }
{
    if q < count {
        entry_at(t.table, q, leader as usize)
    } else {
        0
    }
}

// The marks that the references of the vertex at w back, one for each author. They are among the first `count` records. One array (by value:
// document 01's form) serves for both: each place gives way to the mark that stands there. A place that is `count` backs none, as that of an author from n on.
fn backing(t: Passed, w: usize, count: usize, leader: u8) -> [u32; 31]
    requires w_bound { w < records_of t.table.now }
    requires holds_all { HoldsAll (vertices_of t.table.now) w count }
    ensures { result ≡ backs (vertices_of t.entry.table.now) w leader }
{
    let mut marks = places_of(t.n, t.table, w, count as u32);
    for m in &mut marks {
        *m = back(t, *m as usize, count, leader);
    }
    marks
}

// Where the vertex of that slot stands that the vertex at w certifies, or the number of records. What the vertex at w references is among
// the first `count` records. No vertex has mark 0, so none is looked for. No `Option`: the
// lowest of several is their least number.
pub(crate) fn certified_at(t: Passed, w: usize, count: usize, s: Slot) -> usize
    requires w_bound { w < records_of t.table.now }
    requires holds_all { HoldsAll (vertices_of t.table.now) w count }
    requires w_value { (at (vertices_of t.table.now) w).round ≡ s.round + 2 }
    ensures { result ≡ certified_at t.entry.n (vertices_of t.entry.table.now) s.round s.leader w }
{
    let marks = backing(t, w, count, s.leader);
    let mark = enough_of(marks, quorum_of(t.n));
    let k = record::records_of(t.table);
    if mark == 0 {
        return k;
    }
    find(
        t.table,
        k,
        Name {
            round: s.round,
            author: s.leader,
            mark,
        },
    )
}

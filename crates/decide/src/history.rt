// The history of an anchor, marked in the upper part of the work bytes from the anchor downward. References are to earlier records, so
// one pass finds all; it stops where the round in hand needs no more, and goes on from there for the next.
ghost use Rattle.std.specs.Prelude.{◌≡◌, ℕ, suc, ◌+◌, ◌%◌, ◌≤◌, ◌<◌, min, length};
ghost use Rattle.decide.specs.Ready.{vertices_of, records_of};
ghost use Rattle.rules.specs.Support.{references};
ghost use Rattle.rules.specs.History.{history};
ghost use Rattle.rules.specs.Decide.{certified_in};
ghost use Rattle.decide.specs.Range.{start_of};
ghost use Rattle.decide.specs.Work.{history_at};
ghost use Rattle.decide.specs.Sweep.{Swept, Handed};
ghost use Rattle.decide.specs.Cells.{first_in, Found, Walked, anchor_of, done_of};

use crate::certify::certified_at;
use crate::passed::{Passed, Slot};
use crate::range::begin;
use references::places_of;

// How far the history of an anchor is marked: from `done` on, all are looked at.
#[derive(Clone, Copy)]
pub(crate) struct Walk {
    pub anchor: usize,
    pub done: usize,
}

fn with_history(byte: u8) -> u8
    ensures { result ≡ 128 + byte % 128 }
{
    128 + byte % 128
}

// No vertex is in the history.
fn forget(work: &mut [u8])
    ensures work_len_unchanged { length work.new ≡ length work.old }
    ensures by_index { (q : ℕ) → history_at work.new q ≡ 0 }
{
    for b in work {
        *b %= 128;
    }
}

// The anchor alone is in its history yet.
fn start(t: Passed, a: usize, work: &mut [u8])
    requires room { records_of t.table.now ≤ length work.old }
    requires a_bound { a < records_of t.table.now }
    ensures work_len_unchanged { length work.new ≡ length work.old }
    ensures swept { Swept references (vertices_of t.entry.table.now) a (suc a) work.new }
{
    forget(work);
    work[a] = with_history(work[a]);
}

// What the vertex at p references is in the history too. Written out here and in `mark_more` of `settlement`: one function for both would
// take a closure that changes the bytes, and its clauses would be longer than the loop.
fn mark_refs(t: Passed, p: usize, work: &mut [u8])
    requires room { records_of t.table.now ≤ length work.old }
    requires p_bound { p < records_of t.table.now }
    ensures work_len_unchanged { length work.new ≡ length work.old }
    ensures handed { Handed references (vertices_of t.entry.table.now) p work.old work.new }
{
    let places = places_of(t.n, t.table, p, p as u32);
    for place in &places[..t.n as usize] {
        let q = *place as usize;
        if q < p {
            work[q] = with_history(work[q]);
        }
    }
}

// From one position down to another, what belongs hands on to what it references.
fn sweep(t: Passed, a: usize, from: usize, to: usize, work: &mut [u8])
    requires room { records_of t.table.now ≤ length work.old }
    requires swept { Swept references (vertices_of t.table.now) a from work.old }
    ensures work_len_unchanged { length work.new ≡ length work.old }
    ensures swept_2 { Swept references (vertices_of t.entry.table.now) a (min from to) work.new }
{
    for p in (to..from).rev() {
        if 128 <= work[p] {
            mark_refs(t, p, work);
        }
    }
}

// How far the history of the anchor at a is marked. The walk in hand goes on if it is of the same anchor.
fn take_up(t: Passed, a: usize, walk: Option<Walk>, work: &mut [u8]) -> usize
    requires room { records_of t.table.now ≤ length work.old }
    requires a_bound { a < records_of t.table.now }
    requires walked { Walked references (vertices_of t.table.now) (anchor_of (vertices_of t.table.now) walk) (done_of walk) work.old }
    ensures work_len_unchanged { length work.new ≡ length work.old }
    ensures swept { Swept references (vertices_of t.entry.table.now) a result work.new }
{
    match walk {
        Some(w) if w.anchor == a => w.done,
        _ => {
            start(t, a, work);
            a + 1
        }
    }
}

// The history of the anchor at a, as far down as `to`.
pub(crate) fn walk_to(t: Passed, a: usize, to: usize, walk: Option<Walk>, work: &mut [u8]) -> Walk
    requires room { records_of t.table.now ≤ length work.old }
    requires a_bound { a < records_of t.table.now }
    requires walked { Walked references (vertices_of t.table.now) (anchor_of (vertices_of t.table.now) walk) (done_of walk) work.old }
    ensures work_len_unchanged { length work.new ≡ length work.old }
    ensures anchor_value { result.anchor ≡ a }
    ensures done_le_to { result.done ≤ to }
    ensures swept { Swept references (vertices_of t.entry.table.now) a result.done work.new }
{
    let from = take_up(t, a, walk, work);
    sweep(t, a, from, to, work);
    Walk {
        anchor: a,
        done: from.min(to),
    }
}

// The lowest-mark vertex of the slot that some vertex in the history certifies.
#[tactic(auto, using(crate::proofs::Ranges::start_bound, crate::proofs::Members::two_up_in, crate::proofs::Ranges::round_holds))]
pub(crate) fn certified_in(t: Passed, s: Slot, a: usize, done: usize, work: &[u8]) -> Option<usize>
    requires room { records_of t.table.now ≤ length work.now }
    requires swept { Swept references (vertices_of t.table.now) a done work.now }
    requires done_bound { done ≤ start_of (vertices_of t.table.now) (s.round + 3) 0 }
    ensures { Found result (first_in (vertices_of t.entry.table.now) s.round s.leader
        (certified_in t.entry.n (vertices_of t.entry.table.now) (history references (vertices_of t.entry.table.now) a)))
        (records_of t.entry.table.now) }
{
    let end = begin(t, s.round + 3, 0);
    let from = begin(t, s.round + 2, 0);
    let k = record::records_of(t.table);
    let mut best = k;
    for w in from..end {
        if 128 <= work[w] {
            best = best.min(certified_at(t, w, from, s));
        }
    }
    if best < k { Some(best) } else { None }
}

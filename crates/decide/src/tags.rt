// Tags on the vertices of one round, kept in the lower part of the work bytes (which are bytes that the caller lends), and the count of different authors that have a tag.
ghost use Rattle.std.specs.Prelude.{◌≡◌, ℕ, ◌+◌, ◌/◌, ◌%◌, ◌≤◌, ◌<◌, eqb, length, count_by};
ghost use Rattle.folds.specs.Folds.{bit};
ghost use Rattle.rules.specs.Record.{at, entry};
ghost use Rattle.decide.specs.Ready.{vertices_of, records_of};
ghost use Rattle.decide.specs.Certify.{certified_at};
ghost use Rattle.decide.specs.Work.{TaggedTo, Tagged, authors_tagged, window_tag};

use crate::certify::certified_at;
use crate::passed::{Passed, Slot};
use crate::range::begin;
use record::entry_at;

// The byte with another tag; whether it is in the history stays.
fn with_tag(byte: u8, tag: u8) -> u8
    requires { tag < 128 }
    ensures { (result / 128 ≡ byte / 128) × (result % 128 ≡ tag) }
{
    byte / 128 * 128 + tag
}

// Each byte from one position up to another gets the tag of its position.
fn tag_each<F: Fn(usize) -> u8>(work: &mut [u8], from: usize, to: usize, tag_of: F)
    requires to_in_bounds { to ≤ length work.old }
    requires callable { (q : ℕ) → from ≤ q → q < to → F.pre tag_of q }
    requires small { (q tag : ℕ) → from ≤ q → q < to → F.post tag_of q tag → tag < 128 }
    ensures { (tag : ℕ → ℕ) → ((q given : ℕ) → from ≤ q → q < to → F.post tag_of q given → given ≡ tag q)
        → TaggedTo from tag work.old to work.new }
{
    for q in from..to {
        work[q] = with_tag(work[q], tag_of(q));
    }
}

// Tag 1 on the vertices of the round after that are blank for the leader, 0 on the others there.
#[tactic(auto, using(crate::proofs::Ranges::start_bound))]
pub(crate) fn tag_blank(t: Passed, s: Slot, work: &mut [u8])
    requires room { records_of t.table.now ≤ length work.old }
    ensures { Tagged (vertices_of t.entry.table.now) (s.round + 1) (λ q. bit (eqb (entry (at (vertices_of t.entry.table.now) q) s.leader) 0))
        work.old work.new }
{
    let round = s.round + 1;
    let from = begin(t, round, 0);
    let to = begin(t, round + 1, 0);
    let blank = |q| u8::from(entry_at(t.table, q, s.leader as usize) == 0);
    tag_each(work, from, to, blank);
}

// How far above b the position stands, from 1 on; 0 if it is not from b up to e.
fn window_tag(p: usize, b: usize, e: usize) -> u8
    requires { e ≤ b + 127 }
    ensures { result ≡ window_tag p b e }
{
    if (b..e).contains(&p) {
        (p - b) as u8 + 1
    } else {
        0
    }
}

// On the vertices two rounds up, which of the vertices from b up to e of the slot they certify. Two ends and no struct: `commit_in` knows more of
// them (`Window`), `window_tag` less.
#[tactic(auto, using(crate::proofs::Ranges::start_bound, crate::proofs::Ranges::in_round, crate::proofs::Ranges::round_holds))]
pub(crate) fn tag_certified(t: Passed, s: Slot, b: usize, e: usize, work: &mut [u8])
    requires room { records_of t.table.now ≤ length work.old }
    requires e_bound { e ≤ b + 127 }
    ensures { Tagged (vertices_of t.entry.table.now) (s.round + 2)
        (λ w. window_tag (certified_at t.entry.n (vertices_of t.entry.table.now) s.round s.leader w) b e) work.old work.new }
{
    let round = s.round + 2;
    let from = begin(t, round, 0);
    let to = begin(t, round + 1, 0);
    let certified = |w| window_tag(certified_at(t, w, from, s), b, e);
    tag_each(work, from, to, certified);
}

// How many of the bytes have the tag. The count has 16 bits, so that sixteen bytes are counted at a time.
fn count_tagged(bytes: &[u8], tag: u8) -> u16
    requires few { length bytes.now ≤ 4096 }
    ensures { result ≡ count_by (λ b. eqb (b % 128) tag) bytes.now }
{
    let mut c: u16 = 0;
    // a loop and no chain: with `filter(..).count()` a settlement of twins takes up to 45 parts in a hundred more instructions
    for b in bytes {
        if b % 128 == tag {
            c += 1;
        }
    }
    c
}

// How many different authors have a vertex of the round with the tag. An author counts once, however many of its vertices there are.
#[tactic(auto, using(crate::proofs::Ranges::start_bound, crate::proofs::Ranges::start_mono, folds::proofs::Laws::count_start), unfolding(crate::specs::Work::authors_tagged))]
pub(crate) fn authors_tagged(t: Passed, round: u32, tag: u8, work: &[u8]) -> usize
    requires room { records_of t.table.now ≤ length work.now }
    ensures { result ≡ authors_tagged t.entry.n (vertices_of t.entry.table.now) round tag work.now }
{
    let mut c: usize = 0;
    let mut from = begin(t, round, 0);
    for a in 0..t.n {
        let to = begin(t, round, a + 1);
        let tagged = count_tagged(&work[from..to], tag);
        c += usize::from(tagged.min(1));
        from = to;
    }
    c
}

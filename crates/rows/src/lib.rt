// Rows of the check that look at one decoded record by itself: 5, 18, 19 and 20, which tell which field is wrong, and 7.
#![tactic(auto)]

ghost use Rattle.std.specs.Prelude.{◌≡◌, not, ◌≤◌, eqb, get_or};
ghost use Rattle.folds.specs.Folds.{count_to};
ghost use Rattle.rules.specs.Refusals.{tells};
ghost use Rattle.rules.specs.Check.{entries_wrong};
ghost use Rattle.rows.specs.Fields.{check_fields};

use rules::{Refusal, Vertex};
use tally::quorum_of;

const ENTRIES: usize = 31;

// Rows 5, 18, 19 and 20 of the record at p, in document 02's order. Staff replace the card for the first and call the author's owner for the others. By early returns:
// the first field that is wrong is told.
#[tactic(auto, using(crate::proofs::Fields::told_padding, crate::proofs::Fields::told_round, crate::proofs::Fields::told_mark, crate::proofs::Fields::told_author, crate::proofs::Fields::told_none))]
pub fn check_fields(n: u8, p: usize, v: Vertex) -> Result<(), Refusal>
    ensures { tells result ≡ check_fields n p v }
{
    if v.padding != 0 {
        return Err(Refusal::Padding { position: p });
    }
    if v.round == 0 {
        return Err(Refusal::RoundZero { position: p });
    }
    if v.mark == 0 {
        return Err(Refusal::MarkZero { position: p });
    }
    if v.author < n {
        return Ok(());
    }
    Err(Refusal::AuthorPast { position: p })
}

// How many of the first k entries are references. By a chain (`filter`, `count`) a check took 37 parts in a hundred more instructions at n = 4.
#[tactic(auto, using(crate::proofs::Entries::filled_none, crate::proofs::Entries::filled_more, crate::proofs::Entries::filled_same))]
fn filled(refs: [u32; 31], k: usize) -> usize
    requires { k ≤ 31 }
    ensures { result ≡ count_to (λ i. not (eqb (get_or refs i 0) 0)) k }
{
    let mut c = 0;
    for m in &refs[..k] {
        if *m != 0 {
            c += 1;
        }
    }
    c
}

// Row 7.
#[tactic(auto, using(crate::proofs::Entries::entries_first))]
pub fn entries_wrong(n: u8, v: Vertex) -> bool
    ensures { result ≡ entries_wrong n v }
{
    let refs = v.refs;
    let all = filled(refs, ENTRIES);
    if v.round == 1 && 0 < all {
        return true;
    }
    if filled(refs, (n as usize).min(ENTRIES)) < all {
        return true;
    }
    1 < v.round && all < quorum_of(n)
}

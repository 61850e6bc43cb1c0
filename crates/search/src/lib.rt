// The search by name in a table, by halves, and the highest round. Nothing is asked of the table: what is answered on names that do not
// rise is defined too.
#![tactic(auto)]

ghost use Rattle.std.specs.Prelude.{◌≡◌, ◌≤◌, min};
ghost use Rattle.rules.specs.Record.{first, records, vertices};
ghost use Rattle.rules.specs.Decide.{highest};
ghost use Rattle.search.specs.Search.{place_of, find_below};

use record::{name_at, records_of};
use rules::Name;

// ---- the search by halves

// Where x stands or would stand among the first k records, if their names rise. By hand, since `place_of` says what is answered on names that do not
// rise too; the library's searches promise that of a sorted list alone.
fn place_of(table: &[u8], k: usize, x: Name) -> usize
    requires { k ≤ records first table.now }
    ensures { result ≡ place_of table.now k x }
{
    let all = records_of(table);
    let mut lo: usize = 0;
    let mut hi: usize = k;
    while lo < hi {
        let m = lo + (hi - lo) / 2;
        // Never so, since m is below hi. Said here, it spares each reading of a name its own test.
        if all <= m {
            return lo;
        }
        let y = name_at(table, m);
        if y < x {
            lo = m + 1;
        } else {
            hi = m;
        }
    }
    lo
}

// The place among the first `count` records, or all if there are fewer, where the name stands or would stand if their names rise.
pub fn place(table: &[u8], count: usize, x: Name) -> usize
    ensures { result ≡ place_of table.now (min count (records first table.now)) x }
{
    place_of(table, count.min(records_of(table)), x)
}

// The position of the name among the first `count` records, or how many those are: all, if there are fewer. No `Option`: so says `find_below`.
#[tactic(auto, using(crate::proofs::Names::name_at_lem, crate::proofs::Search::found_here, crate::proofs::Search::found_other, crate::proofs::Search::found_past, names::proofs::Names::eq_is))]
pub fn find(table: &[u8], count: usize, x: Name) -> usize
    ensures { result ≡ find_below table.now (min count (records first table.now)) x }
{
    let k = count.min(records_of(table));
    let m = place_of(table, k, x);
    if m < k && name_at(table, m) == x {
        m
    } else {
        k
    }
}

// ---- the highest round

// The round of the last record; 0 for an empty table.
#[tactic(auto, using(crate::proofs::Names::name_at_lem, crate::proofs::Highest::highest_empty, crate::proofs::Highest::highest_last))]
pub fn highest_of(table: &[u8]) -> u32
    ensures { result ≡ highest (vertices first table.now) }
{
    let k = records_of(table);
    if k == 0 {
        return 0;
    }
    name_at(table, k - 1).round
}

// The written order, and the taken bytes.
ghost use Rattle.std.specs.Prelude.{◌≡◌, cond, ◌+◌, ◌<◌, ◌≤◌, length, get_or};
ghost use Rattle.folds.specs.Folds.{count_to, filter_to, bytes_over};
ghost use Rattle.rules.specs.Support.{references};
ghost use Rattle.rules.specs.Decide.{box_setting, highest};
ghost use Rattle.rules.specs.Settlement.{written_over};
ghost use Rattle.decide.specs.Ready.{vertices_of, records_of};
ghost use Rattle.settlement.specs.Write.{DueTo, Decided, written, due, WrittenSoFar, MarkedOne, MarkedMore, MarkedDown, Led, Ordered};

use decide::passed::Passed;
use references::places_of;
use stops::Cell;

// What a record's taken byte says: the caller lends them as bytes (C interface).
const UNTAKEN: u8 = 0;

const WRITTEN: u8 = 1;

const DUE: u8 = 2;

// A position becomes due unless it is written or due already. Answers the lower of it and `low` if it does, and else `low`.
fn mark_one(q: usize, low: usize, taken: &mut [u8]) -> usize
    requires { q < length taken.old }
    ensures { MarkedOne q low taken.old result taken.new }
{
    if taken[q] != UNTAKEN {
        return low;
    }
    taken[q] = DUE;
    low.min(q)
}

// What the vertex at p references becomes due, unless it is written or due already. Answers the lowest position that becomes due here, or
// `low` if that is lower. Written out here and in `mark_refs` of `decide`, where the reason stands.
fn mark_more(t: Passed, p: usize, low: usize, taken: &mut [u8]) -> usize
    requires room { records_of t.table.now ≤ length taken.old }
    requires p_bound { p < records_of t.table.now }
    ensures { MarkedMore references (vertices_of t.entry.table.now) p low taken.old result taken.new }
{
    let places = places_of(t.n, t.table, p, p as u32);
    let mut lowest = low;
    for &place in &places[..t.n as usize] {
        let q = place as usize;
        if q < p {
            lowest = mark_one(q, lowest, taken);
        }
    }
    lowest
}

// What is to be written for the leader vertex at a becomes due, from it downward, as far as anything is due. Answers how far.
fn mark_down(t: Passed, a: usize, taken: &mut [u8]) -> usize
    requires room { records_of t.table.now ≤ length taken.old }
    requires a_bound { a < records_of t.table.now }
    requires written_so_far { WrittenSoFar references (vertices_of t.table.now) taken.old }
    ensures { MarkedDown references (vertices_of t.entry.table.now) a taken.old result taken.new }
{
    let mut low = mark_one(a, a, taken);
    for p in (0..a + 1).rev() {
        if p < low {
            return low;
        }
        if taken[p] == DUE {
            low = mark_more(t, p, low, taken);
        }
    }
    low
}

// What is due from `low` up to a is written, in table order. Answers how many: of lent places the count stands beside (C interface). Up to
// a + 1, since at the last turn of ..=a every fact would be proved twice.
fn write_marked(a: usize, low: usize, order: &mut [u32], taken: &mut [u8]) -> usize
    requires { DueTo a low order.old taken.old }
    ensures order_after { order.new ≡ written_over (filter_to (due taken.old) (a + 1)) order.old }
    ensures taken_after { taken.new ≡ bytes_over (λ q. cond (due taken.old q) 1 (get_or taken.old q 0)) (a + 1) taken.old }
    ensures value { result ≡ count_to (due taken.old) (a + 1) }
{
    let mut count = 0;
    for p in low..a + 1 {
        if taken[p] == DUE {
            taken[p] = WRITTEN;
            order[count] = p as u32;
            count += 1;
        }
    }
    count
}

// One committed leader vertex more, in the order places that are left. Answers how many are written.
fn write_leader(t: Passed, a: usize, order: &mut [u32], taken: &mut [u8]) -> usize
    requires room { records_of t.table.now ≤ length taken.old }
    requires places { records_of t.table.now ≤ count_to (written taken.old) (records_of t.table.now) + length order.old }
    requires a_bound { a < records_of t.table.now }
    requires written_so_far { WrittenSoFar references (vertices_of t.table.now) taken.old }
    ensures { Led references (vertices_of t.entry.table.now) a order.old taken.old result order.new taken.new }
{
    let low = mark_down(t, a, taken);
    write_marked(a, low, order, taken)
}

// Writes what the committed rounds before the first undecided one bring, as the cells tell. Answers how many are written.
pub(crate) fn write_order(t: Passed, cells: &[u32], order: &mut [u32], taken: &mut [u8]) -> usize
    requires decided { Decided (box_setting t.n) t.n (vertices_of t.table.now) cells.now order.old taken.old }
    requires rounds { length cells.now ≡ highest (vertices_of t.table.now) }
    ensures { Ordered (box_setting t.entry.n) t.entry.n (vertices_of t.entry.table.now) order.old
        taken.old result order.new taken.new }
{
    let mut count = 0;
    for &cell in cells {
        match Cell::from(cell) {
            Cell::Undecided => return count,
            Cell::Committed { position } => {
                count += write_leader(t, position, &mut order[count..], taken);
            }
            // A skipped one.
            _ => {}
        }
    }
    count
}

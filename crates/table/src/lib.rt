// The check of a table: each row of document 01's list is a function that answers, and the first that refuses is the answer.
#![tactic(auto)]

ghost use Rattle.std.specs.Prelude.{◌≡◌, true, not, ◌<◌, eqb};
ghost use Rattle.rules.specs.contracts.NameOrd.TheImpl.{cmp-value};
ghost use Rattle.rules.specs.Authors.{is_count};
ghost use Rattle.rules.specs.Record.{first, sum_of, records, vertices};
ghost use Rattle.rules.specs.Refusals.{refusal_tells, tells, ◌when◌, each_to};
ghost use Rattle.rules.specs.Check.{not_above, not_earlier, check_record, check_table};
ghost use Rattle.rules.specs.Check.{check as checked};
ghost use Rattle.table.specs.Ready.{Reached, Ready};
ghost use Rattle.table.specs.Rows.{four_to_seven};

use record::{RECORD, name_at, part, records_of};
use rows::{check_fields, entries_wrong};
use rules::{Name, Refusal, Vertex};
use std::cmp::Ordering;

const MOST: usize = 4096;

// The refusal is the answer when its test holds.
#[tactic(auto, using(rules::proofs::Refusals::when_yes, rules::proofs::Refusals::when_no))]
fn row(why: Refusal, wrong: bool) -> Result<(), Refusal>
    ensures { tells result ≡ refusal_tells why when wrong }
{
    if wrong { Err(why) } else { Ok(()) }
}

// ---- 1: the author count

fn is_count(n: u8) -> bool
    ensures { result ≡ is_count n }
{
    match n {
        4..=31 => n % 3 == 1,
        _ => false,
    }
}

// ---- 4, 6 and 8: the test of each row

fn sum_differs(b: &[u8], sum: u16) -> bool
    ensures { result ≡ not (eqb (sum_of first b.now) sum) }
{
    sum::sum_of(b) != sum
}

// Position above 0, and the name is not above the one before it.
#[tactic(auto, using(crate::proofs::Above::first_above, crate::proofs::Above::above_is, names::proofs::Names::le_is))]
fn not_above(table: &[u8], p: usize) -> bool
    ensures { result ≡ not_above (vertices first table.now) p }
{
    if p == 0 {
        return false;
    }
    name_at(table, p) <= name_at(table, p - 1)
}

// How a name stands to the one that is looked for. By itself, so that an edit of what is compared changes no name that the search's proof cites.
fn compared(y: Name, x: Name) -> Ordering
    ensures { result ≡ cmp-value.it y x }
{
    y.cmp(&x)
}

// Whether some entry names no earlier record. Each reference is looked for by halves among the earlier records, whose names rise, and past
// the reference before it, which has a lower author; the first that stands nowhere leaves both loops
// (document 01's form: each loop gives its answer where it is left, as no `for` does).
fn not_earlier(n: u8, table: &[u8], p: usize, v: Vertex) -> bool
    requires { Ready n table.now p v }
    ensures { result ≡ not_earlier (vertices first table.now) p }
{
    let refs = v.refs;
    let k = n as usize;
    let all = records_of(table);
    let mut i: usize = 0;
    let mut from: usize = 0;
    'entries: loop {
        if k <= i {
            break 'entries false;
        }
        let mark = refs[i];
        if mark != 0 {
            let x = Name {
                round: v.round - 1,
                author: i as u8,
                mark,
            };
            let mut lo = from;
            let mut hi: usize = p;
            let found = loop {
                if hi <= lo {
                    break 'entries true;
                }
                let m = lo + (hi - lo) / 2;
                // Never so, since m is below p. Said here, it spares each reading of a name its own test.
                if all <= m {
                    break 'entries true;
                }
                let y = name_at(table, m);
                match compared(y, x) {
                    Ordering::Equal => break m,
                    Ordering::Less => lo = m + 1,
                    Ordering::Greater => hi = m,
                }
            };
            from = found + 1;
        }
        i += 1;
    }
}

// ---- the rows in order

// What needs no search: 4, the rows of the fields, 6 and 7. All records before p have passed. No struct of the four parameters: what is known
// of them differs from here (`Reached`) to row 8 (`Ready`).
fn four_to_seven(n: u8, table: &[u8], p: usize, v: Vertex) -> Result<(), Refusal>
    requires { Reached n table.now p v }
    ensures { tells result ≡ four_to_seven n table.now p }
{
    let four = row(
        Refusal::Sum { position: p },
        sum_differs(part(table, p), v.sum),
    );
    let fields = check_fields(n, p, v);
    let six = row(Refusal::Rising { position: p }, not_above(table, p));
    let seven = row(Refusal::Entries { position: p }, entries_wrong(n, v));
    four.and(fields).and(six).and(seven)
}

// All rows of a record. The search of row 8 relies on what the rows before it say.
fn check_record(n: u8, table: &[u8], p: usize, v: Vertex) -> Result<(), Refusal>
    requires { Reached n table.now p v }
    ensures { tells result ≡ check_record first n table.now (vertices first table.now) p }
{
    four_to_seven(n, table, p, v)?;
    row(
        Refusal::Earlier { position: p },
        not_earlier(n, table, p, v),
    )
}

// Records are taken by position from 0.
fn check_records(n: u8, table: &[u8]) -> Result<(), Refusal>
    requires { is_count n ≡ true }
    ensures { tells result
        ≡ each_to (check_record first n table.now (vertices first table.now)) (records first table.now) }
{
    for p in 0..records_of(table) {
        check_record(n, table, p, record::decode(part(table, p)))?;
    }
    Ok(())
}

// ---- the whole

// 2 and 3, then the records.
fn check_table(n: u8, table: &[u8]) -> Result<(), Refusal>
    requires { is_count n ≡ true }
    ensures { tells result ≡ check_table first n table.now }
{
    let two = row(Refusal::Length, table.len() % RECORD != 0);
    let three = row(Refusal::Records, MOST < records_of(table));
    two.and(three)?;
    check_records(n, table)
}

// 1, then the table. n and the table apart, here and in every call on a table that is not checked yet: so the calls of document 01 and of C have
// them.
pub fn check(n: u8, table: &[u8]) -> Result<(), Refusal>
    ensures { tells result ≡ checked first n table.now }
{
    row(Refusal::Authors, !is_count(n))?;
    check_table(n, table)
}

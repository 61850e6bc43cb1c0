// What C and Rust call: thin functions over the calls of the library, each equal to its call on all inputs. C has no enum whose
// cases carry values, so an answer goes out as document 01's number and position. This is a library, for Rattle's crates and for what
// `base` says of the exports. The symbols that C and Rust link are of `exports_c`, the static library over it: four functions with the
// names and the promises of those at the end of this file, each only calling the one here. include/record_box.h has the declarations.
#![tactic(auto)]

ghost use Rattle.std.specs.Prelude.{◌≡◌};
ghost use Rattle.rules.specs.Record.{first, named};
ghost use Rattle.rules.specs.Check.{check as checked};
ghost use Rattle.rules.specs.Lookup.{lookup_check};
ghost use Rattle.rules.specs.Settlement.{lent};
ghost use Rattle.exports.specs.Answers.{answer_as, part_as, SettlesAs};

use record::RECORD;
use rules::Name;

mod answers;

pub use answers::{Answer, Part, SettledNumbers};

// ---- the exports, under the names that `exports_c` gives to C

// `table::check`. Number 0: the table passes.
pub fn record_box_check(n: u8, table: &[u8]) -> Answer
    ensures { result ≡ answer_as (checked first n table.now) }
{
    Answer::from(table::check(n, table))
}

// `lookup::lookup`. An exported function cannot return a reference, so it gives where in the lent table the part that
// `lookup::lookup` hands back begins, and how long it is: the record's 138 bytes, or the first zero bytes on any refusal.
#[tactic(auto, using(lookup::proofs::Lookups::within, lookup::proofs::Lookups::begin_found, lookup::proofs::Lookups::length_found, lookup::proofs::Lookups::begin_refused, lookup::proofs::Lookups::length_refused))]
pub fn record_box_lookup(n: u8, table: &[u8], round: u32, author: u8, mark: u32) -> Part
    ensures { result ≡ part_as first n table.now (named round author mark) }
{
    let x = Name {
        round,
        author,
        mark,
    };
    match lookup::stands_at(n, table, x) {
        Ok(position) => Part {
            begin: RECORD * position,
            length: RECORD,
        },
        Err(_) => Part::default(),
    }
}

// `lookup::lookup_answer`. Number 0: the name is found.
pub fn record_box_lookup_answer(n: u8, table: &[u8], round: u32, author: u8, mark: u32) -> Answer
    ensures { result ≡ answer_as (lookup_check first n table.now (named round author mark)) }
{
    Answer::from(lookup::lookup_answer(n, table, round, author, mark))
}

// `settlement::settle`. Number 0: the table is settled. The three buffers hold what that call leaves in them.
pub fn record_box_settle(
    n: u8,
    table: &[u8],
    cells: &mut [u32],
    order: &mut [u32],
    taken: &mut [u8],
) -> SettledNumbers
    ensures { SettlesAs n table.now
        (lent cells.old order.old taken.old) result
        (lent cells.new order.new taken.new) }
{
    SettledNumbers::from(settlement::settle(n, table, cells, order, taken))
}

// The static library that C links: the four exports under their own names, each calling the function of that name of `exports` and
// promising what that promises, word for word. include/record_box.h has the declarations.
#![tactic(auto)]

ghost use Rattle.std.specs.Prelude.{◌≡◌};
ghost use Rattle.rules.specs.Record.{first, named};
ghost use Rattle.rules.specs.Check.{check as checked};
ghost use Rattle.rules.specs.Lookup.{lookup_check};
ghost use Rattle.rules.specs.Settlement.{lent};
ghost use Rattle.exports.specs.Answers.{answer_as, part_as, SettlesAs};

use exports::{Answer, Part, SettledNumbers};

#[unsafe(no_mangle)]
pub extern "C" fn record_box_check(n: u8, table: &[u8]) -> Answer
    ensures { result ≡ answer_as (checked first n table.now) }
{
    exports::record_box_check(n, table)
}

#[unsafe(no_mangle)]
pub extern "C" fn record_box_lookup(n: u8, table: &[u8], round: u32, author: u8, mark: u32) -> Part
    ensures { result ≡ part_as first n table.now (named round author mark) }
{
    exports::record_box_lookup(n, table, round, author, mark)
}

#[unsafe(no_mangle)]
pub extern "C" fn record_box_lookup_answer(
    n: u8,
    table: &[u8],
    round: u32,
    author: u8,
    mark: u32,
) -> Answer
    ensures { result ≡ answer_as (lookup_check first n table.now (named round author mark)) }
{
    exports::record_box_lookup_answer(n, table, round, author, mark)
}

#[unsafe(no_mangle)]
pub extern "C" fn record_box_settle(
    n: u8,
    table: &[u8],
    cells: &mut [u32],
    order: &mut [u32],
    taken: &mut [u8],
) -> SettledNumbers
    ensures { SettlesAs n table.now
        (lent cells.old order.old taken.old) result
        (lent cells.new order.new taken.new) }
{
    exports::record_box_settle(n, table, cells, order, taken)
}

// The decisions of a table in lent cells, one for each round.
#![tactic(auto)]

ghost use Rattle.rules.specs.Settlement.{lent};
ghost use Rattle.decide.specs.Promise.{DecidesTo};

use passed::Passed;
use rules::Refusal;

mod certify;
mod direct;
mod history;
pub mod passed;
mod range;
mod rounds;
mod tags;

// Checks the table and what is lent for its settlement, and decides every round. The order places are only counted. The taken bytes of the
// records serve as work space and are 0 then. A refusal changes no lent byte.
pub fn decide(
    n: u8,
    table: &[u8],
    cells: &mut [u32],
    order: &[u32],
    taken: &mut [u8],
) -> Result<(), Refusal>
    ensures { DecidesTo n table.now
        (lent cells.old order.now taken.old) result cells.new taken.new }
{
    lent::lent_check(n, table, cells, order, taken)?;
    let t = Passed { n, table };
    let work = &mut taken[..record::records_of(table)];
    rounds::decide_all(t, cells, work);
    work.fill(0);
    Ok(())
}

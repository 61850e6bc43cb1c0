// The settlement: the decisions, the written order and the counts of a table, in lent buffers.
#![tactic(auto)]

ghost use Rattle.rules.specs.Settlement.{lent};
ghost use Rattle.settlement.specs.Promise.{SettlesTo};

use decide::passed::Passed;
use rules::{Counts, Refusal, Settlement};

mod counts;
mod order;

// The counts of the settled table, or why it is refused.
fn decide_and_write(
    n: u8,
    table: &[u8],
    cells: &mut [u32],
    order: &mut [u32],
    taken: &mut [u8],
) -> Result<Counts, Refusal>
    ensures { SettlesTo n table.now
        (lent cells.old order.old taken.old) (record { outcome = result })
        (lent cells.new order.new taken.new) }
{
    decide::decide(n, table, cells, order, taken)?;
    let t = Passed { n, table };
    let highest = search::highest_of(table);
    let decided = &cells[..highest as usize];
    let written = order::write_order(t, decided, order, taken);
    Ok(Counts {
        records: record::records_of(table),
        highest,
        undecided: counts::first_undecided(decided) as u32,
        written,
        equivocators: counts::equivocators_of(t),
    })
}

// Checks the table, decides every round and writes the order. A refusal changes no lent byte.
pub fn settle(
    n: u8,
    table: &[u8],
    cells: &mut [u32],
    order: &mut [u32],
    taken: &mut [u8],
) -> Settlement
    ensures { SettlesTo n table.now
        (lent cells.old order.old taken.old) result
        (lent cells.new order.new taken.new) }
{
    Settlement {
        outcome: decide_and_write(n, table, cells, order, taken),
    }
}

// The check of a table together with what is lent for its settlement.
#![tactic(auto)]

ghost use Rattle.std.specs.Prelude.{◌≡◌};
ghost use Rattle.rules.specs.Record.{first};
ghost use Rattle.rules.specs.Refusals.{tells};
ghost use Rattle.rules.specs.Decide.{box_setting};
ghost use Rattle.rules.specs.Settlement.{lent, lent_check};

use rules::Refusal;

// The table's refusal, or 10: a decision cell for each round, an order place and a taken byte for each record. Three buffers and no
// struct here and above: so C lends them, and a struct over `&mut` slices would have to say of each what it keeps.
#[tactic(auto, using(crate::proofs::Lent::short_cells, crate::proofs::Lent::short_order, crate::proofs::Lent::short_taken))]
pub fn lent_check(
    n: u8,
    table: &[u8],
    cells: &[u32],
    order: &[u32],
    taken: &[u8],
) -> Result<(), Refusal>
    ensures { tells result ≡ lent_check (box_setting n) first n table.now
        (lent cells.now order.now taken.now) }
{
    table::check(n, table)?;
    let k = record::records_of(table);
    let top = search::highest_of(table) as usize;
    if cells.len() < top || order.len() < k || taken.len() < k {
        return Err(Refusal::Lent);
    }
    Ok(())
}

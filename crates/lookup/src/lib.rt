// The lookup of one record by its name, and the second question: why there is none.
#![tactic(auto)]

ghost use Rattle.std.specs.Prelude.{◌≡◌};
ghost use Rattle.rules.specs.Record.{first, named};
ghost use Rattle.rules.specs.Refusals.{tells};
ghost use Rattle.rules.specs.Lookup.{lookup_check, lookup_place, lookup_begin, lookup_length};
ghost use Rattle.record.specs.Part.{PartOf};

use record::{part, records_of};
use rules::{Name, Refusal};

// Where the record of that name stands, or why it stands nowhere: what every lookup asks.
pub fn stands_at(n: u8, table: &[u8], x: Name) -> Result<usize, Refusal>
    ensures { tells result ≡ lookup_place first n table.now x }
{
    table::check(n, table)?;
    let k = records_of(table);
    let p = search::find(table, k, x);
    if p < k {
        return Ok(p);
    }
    Err(Refusal::Unnamed)
}

// The caller's own bytes of the record of that name, or the first zero bytes of the table. Three numbers and no `Name`: so asks C, and so the
// promise says (`named`).
pub fn lookup<'a>(n: u8, table: &'a [u8], round: u32, author: u8, mark: u32) -> &'a [u8]
    ensures { PartOf table.entry result
        (lookup_begin first n table.now (named round author mark))
        (lookup_length first n table.now (named round author mark)) }
{
    let x = Name {
        round,
        author,
        mark,
    };
    match stands_at(n, table, x) {
        Ok(position) => part(table, position),
        Err(_) => &table[0..0],
    }
}

// Whether there is such a record, and if not, why.
#[tactic(auto, using(crate::proofs::Lookups::stands, crate::proofs::Lookups::nowhere))]
pub fn lookup_answer(n: u8, table: &[u8], round: u32, author: u8, mark: u32) -> Result<(), Refusal>
    ensures { tells result ≡ lookup_check first n table.now (named round author mark) }
{
    let x = Name {
        round,
        author,
        mark,
    };
    stands_at(n, table, x)?;
    Ok(())
}

// The sum that a record should carry, of lent bytes. A read past the end is 0, so nothing is asked of the caller.
#![tactic(auto)]

ghost use Rattle.std.specs.Prelude.{◌≡◌};
ghost use Rattle.rules.specs.Record.{first, sum_of};

use numbers::u16_at;

// What the sum covers: the bytes before it, the padding among them.
const COVERED: usize = 136;

// The sum that the record should carry: the 68 words of the covered bytes, read where they are lent. Every carry out of the top is dropped.
#[tactic(auto, using(crate::proofs::Covered::covered_number, folds::proofs::Laws::sum_start, folds::proofs::Laws::sum_next), unfolding(rules::specs::Record::sum_of))]
pub fn sum_of(b: &[u8]) -> u16
    ensures { result ≡ sum_of first b.now }
{
    let covered = &b[..b.len().min(COVERED)];
    let mut sum: u16 = 0;
    for i in 0..68 {
        sum = sum.wrapping_add(u16_at(covered, 2 * i));
    }
    sum
}

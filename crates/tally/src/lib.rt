// Counts of marks, by value (document 01's form): what a quorum is, and which mark enough references back.
#![tactic(auto)]

ghost use Rattle.std.specs.Prelude.{◌≡◌};
ghost use Rattle.rules.specs.Authors.{quorum};
ghost use Rattle.tally.specs.Marks.{count_mark, enough_of};

// 2f+1, with n = 3f+1.
pub fn quorum_of(n: u8) -> usize
    ensures { result ≡ quorum n }
{
    2 * (n as usize / 3) + 1
}

// How many of the references back the mark. By a chain (`filter`, `count`) a settlement took up to half as many instructions again.
#[tactic(auto, using(crate::proofs::Marks::counted_none, crate::proofs::Marks::counted_hit, crate::proofs::Marks::counted_miss, crate::proofs::Marks::counted_all))]
fn count_mark(marks: [u32; 31], mark: u32) -> usize
    ensures { result ≡ count_mark marks mark }
{
    let mut c = 0;
    for m in marks {
        if m == mark {
            c += 1;
        }
    }
    c
}

// The mark that at least q of the references back, or 0. No `Option`: so says `enough_of`, and no vertex has mark 0.
#[tactic(auto, using(crate::proofs::Marks::enough_found, crate::proofs::Marks::enough_none, crate::proofs::Marks::enough_many))]
pub fn enough_of(marks: [u32; 31], q: usize) -> u32
    ensures { result ≡ enough_of marks q }
{
    for mark in marks {
        if mark != 0 && q <= count_mark(marks, mark) {
            return mark;
        }
    }
    0
}

// The bytes of each printed line. Nothing is printed here: a line is put together in a string of fixed size and then copied into a buffer that the caller lends.
#![tactic(auto)]

ghost use Rattle.std.specs.Prelude.{◌≡◌, [], ◌∷◌, ◌++◌, ◌+◌, ◌*◌, ◌≤◌, length, map};
ghost use Rattle.arrayvec.specs.ArrayString.{array_string_len};
ghost use Rattle.rules.specs.Refusals.{row_of};
ghost use Rattle.rules.specs.Program.{bytes_of, decimal, line, line_x, line_s};
ghost use Rattle.lines.specs.Lines.{spaced, line_undecided, line_skipped, line_committed, line_named};
ghost use Rattle.lines.specs.Fills.{Fills};

use arrayvec::ArrayString;
use refusals::Numbered;
use rules::{Counts, Name, Refusal};

// A line as far as it is put together. The longest has a letter, five numbers of up to 20 digits with a space before each, and its end:
// 107 bytes.
type Line = ArrayString<112>;

// ---- a line is put together

// A space and a word more.
fn put_word(l: &mut Line, word: &str)
    requires { array_string_len l.old + 1 + length word.now ≤ 112 }
    ensures { l.new.bytes ≡ l.old.bytes ++ 32 ∷ word.now }
{
    l.push_str(" ");
    l.push_str(word);
}

// A space and a number more, for each in turn. Not by `write!`: it promises what is written where it succeeds, and not that it does.
fn put_numbers(l: &mut Line, numbers: &[u64])
    requires { array_string_len l.old + 21 * length numbers.now ≤ 112 }
    ensures bytes { l.new.bytes ≡ l.old.bytes ++ spaced numbers.now }
    ensures few { array_string_len l.new ≤ array_string_len l.old + 21 * length numbers.now }
{
    for x in numbers {
        put_word(l, itoa::Buffer::new().format(*x));
    }
}

// ---- a line is handed over

// The line with its end in the buffer, and its length; 0 if it does not fit. No `Option`: so says `Fills`.
fn ended(mut l: Line, out: &mut [u8]) -> usize
    requires { array_string_len l + 1 ≤ 112 }
    ensures { Fills (l.bytes ++ 10 ∷ []) out.old out.new result }
{
    l.push_str("\n");
    let n = l.len();
    if out.len() < n {
        return 0;
    }
    out[..n].copy_from_slice(l.as_str().as_bytes());
    n
}

// ---- the lines

// `letter numbers`
fn line_numbers(letter: &str, numbers: &[u64], out: &mut [u8]) -> usize
    requires letter { length letter.now ≤ 1 }
    requires few { length numbers.now ≤ 5 }
    ensures { Fills (line letter.now (map decimal numbers.now)) out.old out.new result }
{
    let mut l = Line::new();
    l.push_str(letter);
    put_numbers(&mut l, numbers);
    ended(l, out)
}

// `X number position`
#[tactic(auto, using(rules::proofs::Refusals::one_value), unfolding(crate::proofs::Open::lines_open))]
pub fn line_refused(r: Refusal, out: &mut [u8]) -> usize
    ensures { Fills (line_x (row_of r).number (row_of r).values) out.old out.new result }
{
    let Numbered { number, position } = Numbered::from(r);
    line_numbers("X", &[number as u64, position as u64], out)
}

// `S records highest-round first-undecided written equivocators`
#[tactic(auto, unfolding(crate::proofs::Open::lines_open))]
pub fn line_settled(c: Counts, out: &mut [u8]) -> usize
    ensures { Fills (line_s c) out.old out.new result }
{
    let counts = [
        c.records as u64,
        c.highest as u64,
        c.undecided as u64,
        c.written as u64,
        c.equivocators as u64,
    ];
    line_numbers("S", &counts, out)
}

// `R r word numbers`
fn line_round(round: u32, word: &str, numbers: &[u64], out: &mut [u8]) -> usize
    requires word { length word.now ≤ 9 }
    requires few { length numbers.now ≤ 2 }
    ensures { Fills (line (bytes_of "R") (decimal round ∷ word.now ∷ map decimal numbers.now)) out.old out.new result }
{
    let mut l = Line::new();
    l.push_str("R");
    put_numbers(&mut l, &[round as u64]);
    put_word(&mut l, word);
    put_numbers(&mut l, numbers);
    ended(l, out)
}

// `R r undecided`
#[tactic(auto, unfolding(crate::proofs::Open::lines_open))]
pub fn line_undecided(round: u32, out: &mut [u8]) -> usize
    ensures { Fills (line_undecided round) out.old out.new result }
{
    line_round(round, "undecided", &[], out)
}

// `R r skip`
#[tactic(auto, unfolding(crate::proofs::Open::lines_open))]
pub fn line_skipped(round: u32, out: &mut [u8]) -> usize
    ensures { Fills (line_skipped round) out.old out.new result }
{
    line_round(round, "skip", &[], out)
}

// `R r commit author mark`. Three numbers: so its promise says.
#[tactic(auto, unfolding(crate::proofs::Open::lines_open))]
pub fn line_committed(round: u32, author: u8, mark: u32, out: &mut [u8]) -> usize
    ensures { Fills (line_committed round author mark) out.old out.new result }
{
    line_round(round, "commit", &[author as u64, mark as u64], out)
}

// `V round author mark`
#[tactic(auto, unfolding(crate::proofs::Open::lines_open))]
pub fn line_vertex(x: Name, out: &mut [u8]) -> usize
    ensures { Fills (line_named x) out.old out.new result }
{
    line_numbers("V", &[x.round as u64, x.author as u64, x.mark as u64], out)
}

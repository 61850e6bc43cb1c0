// The program of document 01: n and a table from standard input, and to standard output what the settlement says of them, line by line.
// Reading and writing stand here alone: `respond` promises all that is printed for what was read.
#![tactic(auto)]

ghost use Rattle.std.specs.Prelude.{◌≡◌, ◌<◌, ◌≤◌, length, take, drop, IfOk};
ghost use Rattle.std.specs.Io.{ReadsAtMost};
ghost use Rattle.std.specs.Io.KnownBytes.{Consumes, IsAtEnd};
ghost use Rattle.io.specs.Counts.{IsPrefixLen};
ghost use Rattle.rules.specs.Settlement.{lent};
ghost use Rattle.rules.specs.Program.{printed};
ghost use Rattle.record_box.specs.Answer.{Answers};

use rules::{Refusal, Settlement};
use std::io::{Print, Read, Result};

// One byte n, then 474 records.
const HOLDS: usize = 65413;

// The table follows the first byte.
fn table_of(input: &[u8]) -> &[u8]
    ensures { result.now ≡ drop 1 input.now }
{
    input.get(1..).unwrap_or(&[])
}

// 12 before all else: the input is longer than the program holds. No byte at all counts as n = 0.
fn answer(input: &[u8], cells: &mut [u32], order: &mut [u32], taken: &mut [u8]) -> Settlement
    ensures { Answers input.now
        (lent cells.old order.old taken.old) result
        (lent cells.new order.new taken.new) }
{
    if HOLDS < input.len() {
        return Settlement {
            outcome: Err(Refusal::Input),
        };
    }
    let n = numbers::byte_at(input, 0);
    settlement::settle(n, table_of(input), cells, order, taken)
}

// How many bytes came, where the input ended or the buffer is full. A read that fails is not the end of the input: what came before it is no
// table. One that was interrupted, or would have to wait, has failed too, because nothing bounds how often it would have to be tried again.
// So std's reading to the end does not serve, and a turn goes on by what came, which no `for` counts.
#[tactic(auto, using(crate::proofs::Grown::consumed_more))]
fn read_up_to_end<R: Read>(from: &mut R, buf: &mut [u8]) -> Result<usize>
    ensures bound { ReadsAtMost result buf.new }
    ensures bytes { IfOk result (λ k. Consumes (R.remaining from.old) (R.remaining from.new) (take k buf.new)) }
    ensures end { IfOk result (λ k. k < length buf.new → IsAtEnd (R.remaining from.new)) }
{
    let mut done = 0;
    while done < buf.len() {
        match from.read(&mut buf[done..])? {
            0 => break,
            k => done += k,
        }
    }
    Ok(done)
}

// All that is printed for an input, with room for it. A cell, a place and a byte are lent for each record that the program holds: a table
// has no more rounds than records.
fn respond(input: &[u8], out: &mut [u8]) -> usize
    requires { 106288 ≤ length out.old }
    ensures out_after { take result out.new ≡ printed input.now }
    ensures prefix_len { IsPrefixLen result out.new }
{
    let mut cells = [0; 474];
    let mut order = [0; 474];
    let mut taken = [0; 474];
    let s = answer(input, &mut cells, &mut order, &mut taken);
    page::output_page(s, table_of(input), &cells, &order, out)
}

// Nothing is left to say where not even standard error takes it.
fn complain<P: Print>(to: &P, what: &[u8]) {
    let _ = to.write_all(what);
}

// 112 bytes for each line that there can be: the counts, 474 rounds and 474 written vertices.
fn print(rt: &HostRuntime, input: &[u8]) {
    let mut out = [0; 106288];
    let k = respond(input, &mut out);
    if rt.stdout().write_all(&out[..k]).is_err() {
        complain(&rt.stderr(), b"record_box: writing failed\n");
    }
}

// The buffer takes more than the program holds, so that an input that is too long is told by its length.
fn main(rt: HostRuntime) {
    let mut input = io::large_buffer();
    match read_up_to_end(&mut rt.stdin(), &mut input) {
        Ok(k) => print(&rt, &input[..k]),
        Err(_) => complain(&rt.stderr(), b"record_box: reading failed\n"),
    }
}

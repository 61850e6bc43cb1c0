// Stored tables, one after the other: the arguments are names of files of data/, and what the proved calls say of each is printed under its name.
// A file has one byte for the question; for a lookup the name that is asked for, for settlements how many and the three lengths of what is
// lent to each; then n, then the table.
#![tactic(auto)]

ghost use Rattle.std.specs.Prelude.{◌≤◌};

use rules::{Name, Refusal, Settlement};
use std::array;
use std::env::{Env, FillError};
use std::fmt::Display;
use std::fs::File;
use std::io::{Error, ErrorKind, Print};
use std::os::fd::AsRawFd;

// What a file asks for.
enum Question {
    Check,
    Lookup,
    // The check, and the check without the last byte.
    Twice,
    // The check, and the settlement with what is lent in several lengths.
    Settle,
}

// Every other byte asks for the check.
impl From<u8> for Question {
    fn from(byte: u8) -> Question {
        match byte {
            1 => Question::Lookup,
            2 => Question::Twice,
            3 => Question::Settle,
            _ => Question::Check,
        }
    }
}

// How many cells, order places and taken bytes are lent.
#[derive(Clone, Copy)]
struct Lent {
    cells: usize,
    order: usize,
    taken: usize,
}

// 4,097 records and what stands around them fit, and all that is printed of them. `array::repeat` makes such a buffer, since a proof would
// count the places of an array expression.
const BUFFER: usize = 566000;

// More cells, order places and taken bytes than any table needs.
const PLACES: usize = 5000;

// Nothing tells whether it is written, and what follows is said all the same: so a line is said in parts, of which a `println!` would leave
// out all where it could not write one.
fn say<P: Print>(rt: &P, text: &[u8]) {
    let _ = rt.write_all(text);
}

fn say_number<P: Print, N: Display + Drop>(rt: &P, n: N) {
    let _ = rt.print(n);
}

// As `say_vertex` but for the line that is asked: a closure for it would bring a `requires`.
fn say_refused<P: Print>(rt: &P, r: Refusal) {
    let mut line = [0u8; 112];
    let k = lines::line_refused(r, &mut line);
    say(rt, &line[..k]);
}

fn say_vertex<P: Print>(rt: &P, x: Name) {
    let mut line = [0u8; 112];
    let k = lines::line_vertex(x, &mut line);
    say(rt, &line[..k]);
}

fn say_answered<P: Print>(rt: &P, answer: Result<(), Refusal>, otherwise: &[u8]) {
    match answer {
        Ok(()) => say(rt, otherwise),
        Err(r) => say_refused(rt, r),
    }
}

fn say_check<P: Print>(rt: &P, n: u8, table: &[u8]) {
    say_answered(rt, table::check(n, table), b"passed\n");
}

// The length of the part that is handed back, and the name in it: a neighbour's bytes would show.
fn say_part<P: Print>(rt: &P, part: &[u8]) {
    say(rt, b"part ");
    say_number(rt, part.len());
    say(rt, b"\n");
    if !part.is_empty() {
        say_vertex(rt, record::name_of(part));
    }
}

fn say_lookup<P: Print>(rt: &P, input: &[u8]) {
    let x = Name {
        round: numbers::u32_at(input, 1),
        author: numbers::byte_at(input, 5),
        mark: numbers::u32_at(input, 6),
    };
    let n = numbers::byte_at(input, 10);
    let table = input.get(11..).unwrap_or(&[]);
    let answer = lookup::lookup_answer(n, table, x.round, x.author, x.mark);
    say_answered(rt, answer, b"found\n");
    say_part(rt, lookup::lookup(n, table, x.round, x.author, x.mark));
}

// A number, and how often it stands there in a row if it is more than once.
fn say_run<P: Print, N: Display + Copy>(rt: &P, run: &[N]) {
    if let Some(number) = run.first() {
        say(rt, b" ");
        say_number(rt, *number);
    }
    if 1 < run.len() {
        say(rt, b"*");
        say_number(rt, run.len());
    }
}

// All cells, order places or taken bytes, what was kept too.
fn say_all<P: Print, N: Display + Copy + PartialEq>(rt: &P, b: &[N]) {
    for run in b.chunk_by(|x, y| x == y) {
        say_run(rt, run);
    }
    say(rt, b"\n");
}

// All that the program of document 01 would print.
fn say_page<P: Print>(rt: &P, s: Settlement, table: &[u8], cells: &[u32], order: &[u32]) {
    let mut out: [u8; BUFFER] = array::repeat(0);
    let k = page::output_page(s, table, cells, order, &mut out);
    say(rt, &out[..k]);
}

// The page, and all that the lent buffers hold then.
fn say_settled<P: Print>(
    rt: &P,
    n: u8,
    table: &[u8],
    cells: &mut [u32],
    order: &mut [u32],
    taken: &mut [u8],
) {
    let s = settlement::settle(n, table, cells, order, taken);
    say_page(rt, s, table, cells, order);
    say(rt, b"cells");
    say_all(rt, cells);
    say(rt, b"order");
    say_all(rt, order);
    say(rt, b"taken");
    say_all(rt, taken);
}

// The same with as much as is lent. No settlement writes the numbers that stand there before.
fn say_settlement<P: Print>(rt: &P, n: u8, table: &[u8], lent: Lent) {
    let mut cells = [9999; PLACES];
    let mut order = [9999; PLACES];
    let mut taken = [9; PLACES];
    say_settled(
        rt,
        n,
        table,
        &mut cells[..lent.cells.min(PLACES)],
        &mut order[..lent.order.min(PLACES)],
        &mut taken[..lent.taken.min(PLACES)],
    );
}

// How much is lent, from byte i on.
fn lent_at(input: &[u8], i: usize) -> Lent
    requires { i ≤ 2000 }
{
    Lent {
        cells: numbers::u16_at(input, i) as usize,
        order: numbers::u16_at(input, i + 2) as usize,
        taken: numbers::u16_at(input, i + 4) as usize,
    }
}

// The check, then the settlement with each of the sets of lengths.
fn say_settlements<P: Print>(rt: &P, input: &[u8]) {
    let count = numbers::byte_at(input, 1) as usize;
    let n = numbers::byte_at(input, 2 + 6 * count);
    let table = input.get(3 + 6 * count..).unwrap_or(&[]);
    say_check(rt, n, table);
    for i in 0..count {
        say_settlement(rt, n, table, lent_at(input, 2 + 6 * i));
    }
}

fn say_answer<P: Print>(rt: &P, input: &[u8]) {
    let n = numbers::byte_at(input, 1);
    let table = input.get(2..).unwrap_or(&[]);
    match Question::from(numbers::byte_at(input, 0)) {
        Question::Check => say_check(rt, n, table),
        Question::Lookup => say_lookup(rt, input),
        Question::Twice => {
            say_check(rt, n, table);
            say_check(rt, n, &table[..table.len().saturating_sub(1)]);
        }
        Question::Settle => say_settlements(rt, input),
    }
}

// What cannot be opened is said on standard error, and the next file has its turn.
fn complain<P: Print>(to: &P, path: &[u8], why: Error) {
    say(to, path);
    say(to, b": ");
    let _ = to.println(why);
}

// A path that is no text is that of no file.
fn opened(rt: &HostRuntime, path: &[u8]) -> std::io::Result<File> {
    let name = str::from_utf8(path).map_err(|_| ErrorKind::NotFound)?;
    File::open(rt, name)
}

fn one(rt: &HostRuntime, path: &[u8]) {
    say(rt, path);
    say(rt, b"\n");
    match opened(rt, path) {
        Ok(file) => {
            let mut input: [u8; BUFFER] = array::repeat(0);
            let n = io::read_full(file.as_raw_fd(), &mut input);
            say_answer(rt, &input[..n]);
        }
        Err(why) => complain(&rt.stderr(), path, why),
    }
}

// A name that is too long for the buffer is that of no file.
fn main(rt: HostRuntime) {
    let mut path = io::buffer();
    for i in 1..usize::MAX {
        match rt.arg(i, &mut path) {
            Ok(k) => one(&rt, &path[..k]),
            Err(FillError::TooLong) => one(&rt, b""),
            Err(FillError::NotPresent) => break,
        }
    }
}

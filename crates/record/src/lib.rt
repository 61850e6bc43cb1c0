// One record, read from lent bytes. A read past the end is 0, so no function asks its caller for anything.
#![tactic(auto)]

ghost use Rattle.std.specs.Prelude.{◌≡◌};
ghost use Rattle.record.specs.Part.{RecordPart};
ghost use Rattle.rules.specs.Record.{first, records, vertices, at, decode as decoded, name_of, entry};

use numbers::{byte_at, u16_at, u32_at};
use rules::{Name, Vertex};
use std::array::from_fn;

// The length of a record.
pub const RECORD: usize = 138;

// Where each field starts: the table is lent as bytes (C interface), and no copy of it is made.
const ROUND: usize = 0;

const MARK: usize = 4;

const REFS: usize = 8;

const BATCHES: usize = 132;

const AUTHOR: usize = 134;

const PADDING: usize = 135;

const SUM: usize = 136;

// ---- the records of a table

// How many whole records a table has.
pub fn records_of(table: &[u8]) -> usize
    ensures { result ≡ records first table.now }
{
    table.len() / RECORD
}

// The bytes of the record at position p, in the caller's table: no copy. Past the last whole record what is left of the table, and past that nothing.
#[tactic(auto, using(crate::proofs::Parts::own_bytes, crate::proofs::Parts::left_bytes))]
pub fn part(table: &[u8], p: usize) -> &[u8]
    ensures { RecordPart first table.entry p result }
{
    // Tried with the end cut off by `min`: the compiler loses the record's length, and the check takes 4.0 times the instructions at n = 4.
    if p < records_of(table) {
        return &table[RECORD * p..RECORD * p + RECORD];
    }
    &table[p.saturating_mul(RECORD).min(table.len())..]
}

// ---- fields

// The 31 references, taken out as one value (document 01's form).
pub fn refs_of(b: &[u8]) -> [u32; 31]
    ensures { result ≡ (decoded first b.now).refs }
{
    from_fn(|i| u32_at(b, REFS + 4 * i))
}

// The record, decoded. Nothing is checked here: any bytes make a vertex.
#[tactic(auto, unfolding(rules::specs::Record::decode))]
pub fn decode(b: &[u8]) -> Vertex
    ensures { result ≡ decoded first b.now }
{
    let name = name_of(b);
    Vertex {
        round: name.round,
        mark: name.mark,
        refs: refs_of(b),
        batches: u16_at(b, BATCHES),
        author: name.author,
        padding: byte_at(b, PADDING),
        sum: u16_at(b, SUM),
    }
}

// The name alone, for a search that compares names.
#[tactic(auto, unfolding(rules::specs::Record::decode))]
pub fn name_of(b: &[u8]) -> Name
    ensures { result ≡ name_of (decoded first b.now) }
{
    Name {
        round: u32_at(b, ROUND),
        author: byte_at(b, AUTHOR),
        mark: u32_at(b, MARK),
    }
}

// Entry i alone, and not all 31; none stands from 31 on.
#[tactic(auto, using(folds::proofs::Lists::get_or_tabulate, folds::proofs::Lists::length_tabulate, std::proofs::lemmas::List::get_or_past), unfolding(rules::specs::Record::decode))]
pub fn entry_of(b: &[u8], i: usize) -> u32
    ensures { result ≡ entry (decoded first b.now) i }
{
    if i < 31 { u32_at(b, REFS + 4 * i) } else { 0 }
}

// ---- fields of the record at a position; zeros where there is no whole record

// The name of the record at p.
#[tactic(auto, using(crate::proofs::Parts::part_vertex, crate::proofs::Parts::past_vertex))]
pub fn name_at(table: &[u8], p: usize) -> Name
    ensures { result ≡ name_of (at (vertices first table.now) p) }
{
    if p < records_of(table) {
        return name_of(part(table, p));
    }
    Name::default()
}

// Entry i of the record at p. As `name_at` but for what is read and what stands for nothing: one function for both would be handed the two.
#[tactic(auto, using(crate::proofs::Parts::part_vertex, crate::proofs::Parts::past_vertex))]
pub fn entry_at(table: &[u8], p: usize, i: usize) -> u32
    ensures { result ≡ entry (at (vertices first table.now) p) i }
{
    if p < records_of(table) {
        return entry_of(part(table, p), i);
    }
    0
}

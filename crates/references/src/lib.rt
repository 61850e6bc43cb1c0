// The references of a record, resolved: where each one stands. What follows references asks here, so that they are found in one place.
#![tactic(auto)]

ghost use Rattle.std.specs.Prelude.{◌≡◌};
ghost use Rattle.references.specs.Places.{places_of};

use rules::Name;
use search::find;

// Where the references of the record at p to the first n authors stand, one for each author: below `count`, if there is one that names one of
// the first `count` records, and else `count` or how many there are. Only those are looked through, and for mark 0, which is no reference, none.
// Whoever asks for many records of one round gives where the round begins: all searches then go the same way, which a processor foresees.
// Numbers and no `Option`s: so says `places_of`, and one array serves for places and marks (DECISIONS 62).
pub fn places_of(n: u8, table: &[u8], p: usize, count: u32) -> [u32; 31]
    ensures { result ≡ places_of n table.now p count }
{
    let b = record::part(table, p);
    let x = record::name_of(b);
    // Round 0, which no table that passes has, is kept.
    let round = x.round.saturating_sub(1);
    let mut places = [count; 31];
    for i in 0..(n as usize).min(31) {
        let mark = record::entry_of(b, i);
        if mark != 0 {
            let y = Name {
                round,
                author: i as u8,
                mark,
            };
            places[i] = find(table, count as usize, y) as u32;
        }
    }
    places
}

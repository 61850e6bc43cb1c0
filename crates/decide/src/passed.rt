// What most functions of the decisions and of the settlement are given. No type over the work bytes too: a struct that holds a `&mut` would have
// each function promise that it kept the table, so that the bytes suffice stays a clause (`room`). A position's bound does too: a type of it would carry the
// table along and say no more.
ghost use Rattle.std.specs.Prelude.{◌≤◌, ◌<◌};
ghost use Rattle.std.proofs.Props.{props};
ghost use Rattle.rules.specs.Record.{first};
ghost use Rattle.decide.specs.Ready.{Sound, last_round};

// A table that passed the check for n authors.
#[derive(Clone, Copy)]
pub struct Passed<'a> {
    pub n: u8,
    pub table: &'a [u8],
    pub ghost sound: { Sound first n table.now } by { Prim.hlevel props },
}

// A round that a table which passed can have, and the author who leads it.
#[derive(Clone, Copy)]
pub struct Slot {
    pub round: u32,
    pub leader: u8,
    pub ghost from_one: { 0 < round },
    pub ghost low: { round ≤ last_round },
}

// The words of document 01 as types, shared by the definitions in specs/ and by the code of every other crate. No function stands here but
// what is derived.
#![tactic(auto)]

// What tells vertices apart. Names are ordered by round, then author, then mark, as the fields stand.
#[derive(Clone, Copy, PartialEq, Eq, PartialOrd, Ord, Default)]
pub struct Name {
    pub round: u32,
    pub author: u8,
    pub mark: u32,
}

// A record, decoded. What names it is three fields of it, and no `Name`: so the definitions have it (`name_of`).
#[derive(Clone, Copy)]
pub struct Vertex {
    pub round: u32,
    pub mark: u32,
    pub refs: [u32; 31],
    pub batches: u16,
    pub author: u8,
    pub padding: u8,
    pub sum: u16,
}

// Why a call is refused. A case whose check is put to records carries the record's position.
#[derive(Clone, Copy)]
pub enum Refusal {
    Authors,
    Length,
    Records,
    Sum { position: usize },
    Padding { position: usize },
    Rising { position: usize },
    Entries { position: usize },
    Earlier { position: usize },
    Lent,
    Unnamed,
    Input,
    RoundZero { position: usize },
    MarkZero { position: usize },
    AuthorPast { position: usize },
}

// What a settled outcome has.
#[derive(Clone, Copy, Default)]
pub struct Counts {
    pub records: usize,
    pub highest: u32,
    pub undecided: u32,
    pub written: usize,
    pub equivocators: usize,
}

// What the settlement gives: settled, or refused. A struct, since document 01's form is one that holds the enum.
#[derive(Clone, Copy)]
pub struct Settlement {
    pub outcome: Result<Counts, Refusal>,
}

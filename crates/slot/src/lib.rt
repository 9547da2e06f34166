// A slot's record by value, and its entries.
#![tactic(auto)]

ghost use Rattle.std.specs.Prelude.{◌≡◌};
ghost use Rattle.slot.specs.Layout.{empty};

mod operations;

// A read entry: its cell, whether it is marked, and the word read.
#[derive(Clone, Copy)]
pub struct ReadEntry {
    pub cell: u8,
    pub mark: bool,
    pub word: u32,
}

impl ReadEntry {
    // Its bytes: cell (1), mark (1), word (4).
    pub const SIZE: usize = 6;
}

// A write entry: its cell and the word to be published.
#[derive(Clone, Copy)]
pub struct WriteEntry {
    pub cell: u8,
    pub word: u32,
}

impl WriteEntry {
    // Its bytes: cell (1), word (4).
    pub const SIZE: usize = 5;
}

// What the area keeps of a slot. Entries from a log's count on are zero. A log is an array with its count beside it: fixed memory, no heap. The phase is a byte and no
// enum, since `packed::fields` hands back the record of any bytes (`slot_of`), also of those that the check refuses.
#[derive(Clone, Copy)]
pub struct SlotRecord {
    pub phase: u8,
    pub ignoring: bool,
    pub taken: u8,
    pub readcount: u8,
    pub writecount: u8,
    pub start: u64,
    pub commit: u64,
    pub reads: [ReadEntry; SlotRecord::READS],
    pub writes: [WriteEntry; SlotRecord::WRITES],
}

impl SlotRecord {
    // The capacities of its logs.
    pub const READS: usize = 16;

    pub const WRITES: usize = 16;

    // An idle slot's record: zero throughout.
    pub fn empty() -> Self
        ensures { result ≡ empty }
    {
        SlotRecord {
            phase: 0,
            ignoring: false,
            taken: 0,
            readcount: 0,
            writecount: 0,
            start: 0,
            commit: 0,
            reads: [ReadEntry {
                cell: 0,
                mark: false,
                word: 0,
            }; SlotRecord::READS],
            writes: [WriteEntry { cell: 0, word: 0 }; SlotRecord::WRITES],
        }
    }
}

// The lent area, read in place: the cells, the slots and the clock at their offsets.
#![tactic(auto)]

ghost use Rattle.std.specs.Prelude.{◌≡◌, ◌+◌, ◌<◌, ◌≤◌, length, drop};
ghost use Rattle.slot.specs.Layout.{read_capacity, write_capacity};
ghost use Rattle.rules.specs.Cells.{held_by_other};
ghost use Rattle.rules.specs.Layout.{count_in, cell_of};
ghost use Rattle.area.specs.Good.{Good};
ghost use Rattle.area.specs.InPlace.{
  cell_start,
  slot_start,
  cell_count_in,
  clock_now,
  cell_in,
  phase_in,
  fields_in,
  writes_in,
  read_in,
  write_in,
  read_found_in,
  write_found_in,
  marked_in,
};

use rules::Cell;
use slot::{ReadEntry, SlotRecord, WriteEntry};

// In the header: version (1), length (4), number of cells (1), clock. The cells follow it, and the slots the cells.
pub const COUNT: usize = 5;

pub const CLOCK: usize = 6;

// Sizes in bytes, and how many slots there are.
pub const STAMP: usize = 8;

pub const HEADER: usize = 14;

pub const CELL: usize = 14;

pub const SLOT: usize = 197;

pub const SLOTS: usize = 8;

// The number of cells.
pub fn count(s: &[u8]) -> u8
    requires { Good s.now }
    ensures { result ≡ cell_count_in s.now }
{
    s[COUNT]
}

// The last stamp given.
pub fn clock(s: &[u8]) -> u64
    requires { Good s.now }
    ensures { result ≡ clock_now s.now }
{
    wire::get(s, CLOCK, STAMP)
}

// The cell whose bytes start at `at`.
fn cell_of(s: &[u8], at: usize) -> Cell
    requires { at + 14 ≤ length s.now }
    ensures { result ≡ cell_of 8 (drop at s.now) }
{
    Cell {
        kind: s[at],
        holder: s[at + 1],
        word: wire::word_at(s, at + 2),
        stamp: wire::get(s, at + 6, STAMP),
    }
}

// Where cell `c` starts.
pub fn cell_offset(c: u8) -> usize
    ensures { result ≡ cell_start c }
{
    HEADER + CELL * usize::from(c)
}

// Cell `c`.
pub fn cell_at(s: &[u8], c: u8) -> Cell
    requires { Good s.now × (c < count_in s.now) }
    ensures { result ≡ cell_in s.now c }
{
    cell_of(s, cell_offset(c))
}

// Slot `index` of a well-formed area, counted from 0: what is read of it where it stands.
#[derive(Clone, Copy)]
pub struct SlotView<'a> {
    pub area: &'a [u8],
    pub index: u8,
    pub ghost good: { Good area.now },
    pub ghost below: { index < 8 },
}

impl<'a> SlotView<'a> {
    // Where it starts, behind the cells.
    pub fn offset(self) -> usize
        ensures { result ≡ slot_start self.entry.area.now self.entry.index }
    {
        HEADER + CELL * usize::from(self.area[COUNT]) + SLOT * usize::from(self.index)
    }

    // Its phase.
    pub fn phase(self) -> u8
        ensures { result ≡ phase_in self.entry.area.now self.entry.index }
    {
        self.area[self.offset()]
    }

    // It with empty logs.
    pub fn fields(self) -> SlotRecord
        ensures { result ≡ fields_in self.entry.area.now self.entry.index }
    {
        packed::fields(self.area, self.offset(), STAMP)
    }

    // It with its write log alone.
    pub fn with_writes(self) -> SlotRecord
        ensures { result ≡ writes_in self.entry.area.now self.entry.index }
    {
        packed::with_writes(self.area, self.offset(), STAMP)
    }

    // Read entry `k`. For each log there is one function, as in `packed`: a generic one is no plainer.
    pub fn read_entry(self, k: usize) -> ReadEntry
        requires { k < read_capacity }
        ensures { result ≡ read_in self.entry.area.now self.entry.index k }
    {
        packed::read_at(self.area, self.offset(), STAMP, k)
    }

    // Write entry `k`.
    pub fn write_entry(self, k: u8) -> WriteEntry
        requires { k < write_capacity }
        ensures { result ≡ write_in self.entry.area.now self.entry.index k }
    {
        packed::write_at(self.area, self.offset(), STAMP, usize::from(k))
    }

    // The read entry of a cell.
    pub fn find_read(self, cell: u8) -> Option<ReadEntry>
        ensures { result ≡ read_found_in self.entry.area.now self.entry.index cell }
    {
        packed::find_read(self.area, self.offset(), STAMP, cell)
    }

    // The write entry of a cell.
    pub fn find_write(self, cell: u8) -> Option<WriteEntry>
        ensures { result ≡ write_found_in self.entry.area.now self.entry.index cell }
    {
        packed::find_write(self.area, self.offset(), STAMP, cell)
    }

    // Whether an entry of its read log is marked.
    pub fn some_marked(self) -> bool
        ensures { result ≡ marked_in self.entry.area.now self.entry.index }
    {
        packed::some_marked(self.area, self.offset(), STAMP)
    }
}

// Whether a cell is held by a slot other than `i`. A cell's holder counts slots from 1, and 0 is none: one's own hold is no conflict.
pub fn held_by_other(i: u8, x: Cell) -> bool
    requires { i < 8 }
    ensures { result ≡ held_by_other i x }
{
    x.holder != 0 && x.holder != i + 1
}

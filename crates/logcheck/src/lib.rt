// Whether the logs of a slot are right: cells below n, words legal, no cell twice, the write log ascending; unused entries zero; the marks.
#![tactic(auto)]

ghost use Rattle.std.specs.Prelude.{◌≡◌, ◌+◌, ◌≤◌, length, drop};
ghost use Rattle.wire.specs.Field.{be};
ghost use Rattle.slot.specs.Layout.{slot_of};
ghost use Rattle.slot.specs.Logs.{read_log, write_log};
ghost use Rattle.rules.specs.Model.{controller};
ghost use Rattle.rules.specs.Layout.{cells_in};
ghost use Rattle.rules.specs.LogsRight.{logged_right, reads_right, writes_right};
ghost use Rattle.logcheck.specs.Logged.{legal_at, zeros_from, slot_logs_right};

use frame::{CountedSlot, Frame};
use slot::{ReadEntry, SlotRecord, WriteEntry};

pub mod frame;
pub mod marks;

// The most cells that an area has.
pub const MOST_CELLS: usize = 64;

// The bytes of an area's header, behind which the cells begin, of a cell and of a stamp. No plainer: crate `area` has these too, neither crate sees the
// other, and `rules` below both has no code but the type of a cell.
pub const HEADER: usize = 14;

pub const CELL: usize = 14;

pub const STAMP: usize = 8;

// Where the parts of a slot stand in it, and its bytes. A phase is a number in this crate and those above that check an area: the lent byte may be any of 256.
pub const PHASE_AT: usize = 0;

pub const FLAG_AT: usize = 1;

pub const TAKEN_AT: usize = 2;

pub const READ_COUNT_AT: usize = 3;

pub const WRITE_COUNT_AT: usize = 4;

pub const START_AT: usize = 5;

pub const COMMIT_AT: usize = START_AT + STAMP;

pub const READS_AT: usize = COMMIT_AT + STAMP;

pub const WRITES_AT: usize = READS_AT + ReadEntry::SIZE * SlotRecord::READS;

pub const SLOT: usize = WRITES_AT + WriteEntry::SIZE * SlotRecord::WRITES;

// Whether the word at `at` is legal for the kind, a lent byte and so a number. The word is read only where the kind asks for it, which joins the loads of its bytes.
pub fn legal_at(kind: u8, s: &[u8], at: usize) -> bool
    requires { at + 4 ≤ length s.now }
    ensures { result ≡ legal_at kind s.now at }
{
    if kind == 2 {
        return true;
    }
    if kind == 1 {
        return value::legal(1, wire::word_at(s, at));
    }
    if kind == 3 {
        return value::legal(3, wire::word_at(s, at));
    }
    false
}

// Whether all bytes are zero: gathered by a bitwise or, without a branch for each.
pub fn all_zero(s: &[u8]) -> bool
    ensures { result ≡ zeros_from s.now 0 (length s.now) }
{
    let mut any = 0;
    for x in s {
        any |= *x;
    }
    any == 0
}

// Whether a log may have this cell with the word at `at` in `t`.
fn logged_right(area: Frame, c: usize, t: &[u8], at: usize) -> bool
    requires { at + 4 ≤ length t.now }
    ensures { result ≡ logged_right (cells_in controller area.entry.bytes.now) c (be 4 (drop at t.now)) }
{
    c < area.cells && legal_at(area.bytes[HEADER + CELL * c], t, at)
}

// The read log: cells below n, words legal, no cell twice.
fn reads_right(area: Frame, t: CountedSlot) -> bool
    ensures { result ≡ reads_right (cells_in controller area.entry.bytes.now) (read_log (slot_of 8 t.entry.bytes.now)) }
{
    let count = usize::from(t.bytes[READ_COUNT_AT]);
    let mut seen = [false; MOST_CELLS];
    for i in 0..count {
        let at = READS_AT + ReadEntry::SIZE * i;
        let c = usize::from(t.bytes[at]);
        if !logged_right(area, c, t.bytes, at + 2) || seen[c] {
            return false;
        }
        seen[c] = true;
    }
    true
}

// The write log: cells below n, words legal, ascending.
fn writes_right(area: Frame, t: CountedSlot) -> bool
    ensures { result ≡ writes_right (cells_in controller area.entry.bytes.now) (write_log (slot_of 8 t.entry.bytes.now)) }
{
    let count = usize::from(t.bytes[WRITE_COUNT_AT]);
    let mut least = 0;
    for i in 0..count {
        let at = WRITES_AT + WriteEntry::SIZE * i;
        let c = usize::from(t.bytes[at]);
        if c < least || !logged_right(area, c, t.bytes, at + 1) {
            return false;
        }
        least = c + 1;
    }
    true
}

// Both logs.
pub fn logs_right(area: Frame, t: CountedSlot) -> bool
    ensures { result ≡ slot_logs_right area.entry.bytes.now t.entry.bytes.now }
{
    reads_right(area, t) && writes_right(area, t)
}

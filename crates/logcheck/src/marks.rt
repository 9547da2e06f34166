// The unused entries of a slot's logs, and then its marks and its flag.
ghost use Rattle.std.specs.Prelude.{true, ◌≡◌};
ghost use Rattle.slot.specs.Layout.{read_capacity};
ghost use Rattle.logcheck.specs.Logged.{slot_unused_zero};
ghost use Rattle.logcheck.specs.Marked.{MarksGathered, marked_right};

use crate::frame::CountedSlot;
use crate::{
    FLAG_AT, PHASE_AT, READ_COUNT_AT, READS_AT, SLOT, WRITE_COUNT_AT, WRITES_AT, all_zero,
};
use slot::{ReadEntry, SlotRecord, WriteEntry};

// Unused entries all zero: they are the last ones of each log, so one run of bytes.
pub fn unused_zero(t: CountedSlot) -> bool
    ensures { result ≡ slot_unused_zero t.entry.bytes.now }
{
    let reads = usize::from(t.bytes[READ_COUNT_AT]);
    let writes = usize::from(t.bytes[WRITE_COUNT_AT]);
    all_zero(&t.bytes[READS_AT + ReadEntry::SIZE * reads..WRITES_AT])
        && all_zero(&t.bytes[WRITES_AT + WriteEntry::SIZE * writes..SLOT])
}

// The marks of all 16 entries in one byte: at most 1 if each of them is, and then 1 if one of them is. All, since a fixed number of turns is unrolled.
fn marks_of(t: CountedSlot) -> u8
    ensures { MarksGathered result read_capacity t.entry.bytes.now }
{
    let mut any = 0;
    for i in 0..SlotRecord::READS {
        any |= t.bytes[READS_AT + ReadEntry::SIZE * i + 1];
    }
    any
}

// Flags and marks 0 or 1; no mark before phase 3; no flag without a mark; in phase 4 no mark without the flag.
pub fn marked_right(t: CountedSlot) -> bool
    requires { slot_unused_zero t.bytes.now ≡ true }
    ensures { result ≡ marked_right t.entry.bytes.now }
{
    let marks = marks_of(t);
    let flag = t.bytes[FLAG_AT];
    if 1 < marks || 1 < flag {
        return false;
    }
    if marks == 0 {
        return flag == 0;
    }
    let phase = t.bytes[PHASE_AT];
    if phase < 3 {
        return false;
    }
    phase != 4 || flag == 1
}

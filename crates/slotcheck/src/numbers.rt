// The numbers of a slot: its counts, start, "taken" and commit stamp.
ghost use Rattle.std.specs.Prelude.{◌≡◌};
ghost use Rattle.wire.specs.Field.{field_at};
ghost use Rattle.slot.specs.Layout.{slot_of, start_at};
ghost use Rattle.rules.specs.AreaRight.{counts_right, taken_right, commit_right};
ghost use Rattle.slotcheck.specs.SlotParts.{numbers_right};

use logcheck::frame::SlotBytes;
use logcheck::{COMMIT_AT, PHASE_AT, READ_COUNT_AT, STAMP, START_AT, TAKEN_AT, WRITE_COUNT_AT};
use slot::SlotRecord;

// Counts at most 16.
pub fn counts_right(t: SlotBytes) -> bool
    ensures { result ≡ counts_right (slot_of 8 t.entry.bytes.now) }
{
    usize::from(t.bytes[READ_COUNT_AT]) <= SlotRecord::READS
        && usize::from(t.bytes[WRITE_COUNT_AT]) <= SlotRecord::WRITES
}

// "Taken" is locks taken in phase 2, cells published in phase 4, else 0.
fn taken_right(t: SlotBytes) -> bool
    ensures { result ≡ taken_right (slot_of 8 t.entry.bytes.now) }
{
    let taken = t.bytes[TAKEN_AT];
    match t.bytes[PHASE_AT] {
        2 => taken <= t.bytes[WRITE_COUNT_AT],
        4 => taken < t.bytes[WRITE_COUNT_AT],
        _ => taken == 0,
    }
}

// The commit stamp is 0 up to phase 2, then above start and at most the clock.
fn commit_right(t: SlotBytes, start: u64, clock: u64) -> bool
    requires { start ≡ field_at t.bytes.now start_at 8 }
    ensures { result ≡ commit_right clock (slot_of 8 t.entry.bytes.now) }
{
    let commit = wire::get(t.bytes, COMMIT_AT, STAMP);
    let phase = t.bytes[PHASE_AT];
    if phase <= 2 {
        return commit == 0;
    }
    start < commit && commit <= clock
}

// Start, taken and commit stamp.
pub fn numbers_right(t: SlotBytes, clock: u64) -> bool
    ensures { result ≡ numbers_right clock (slot_of 8 t.entry.bytes.now) }
{
    let start = wire::get(t.bytes, START_AT, STAMP);
    start <= clock && taken_right(t) && commit_right(t, start, clock)
}

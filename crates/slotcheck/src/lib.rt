// Whether the slots of an area are right but for the holders: of each its phase, counts, logs, stamps, unused entries, marks and flag; then the commit stamps apart.
#![tactic(auto)]

ghost use Rattle.std.specs.Prelude.{◌≡◌, ◌≤◌, ◌<◌, length};
ghost use Rattle.slot.specs.Layout.{slot_of, slot_size};
ghost use Rattle.rules.specs.Model.{controller};
ghost use Rattle.rules.specs.Layout.{cells_in, slot_place};
ghost use Rattle.rules.specs.AreaRight.{busy_right};
ghost use Rattle.bothlogs.specs.BothLogs.{Indexed};
ghost use Rattle.slotcheck.specs.SlotParts.{slot_right_in, slots_right, slot_no_update_lost};

use logcheck::frame::{CountedSlot, Frame, SlotBytes};
use logcheck::{CELL, FLAG_AT, HEADER, PHASE_AT, SLOT, STAMP};

mod numbers;
pub mod stamps;

// The number of slots.
pub const SLOTS: usize = 8;

// The flag is 1 only if no marked cell is also in the write log. A slot without the flag doesn't pay for the look at both logs.
fn no_update_lost(t: &[u8]) -> bool
    requires { Indexed 8 0 t.now }
    ensures { result ≡ slot_no_update_lost t.now }
{
    t[FLAG_AT] != 1 || !bothlogs::marked_written(t, 0, STAMP)
}

// A slot that is not idle. The unused entries come before the marks: zero, they may be gathered with the others.
fn busy_right(area: Frame, clock: u64, t: SlotBytes) -> bool
    ensures { result ≡ busy_right controller (cells_in controller area.entry.bytes.now) clock t.entry.bytes.now (slot_of 8 t.entry.bytes.now) }
{
    if !numbers::counts_right(t) {
        return false;
    }
    let counted = CountedSlot { bytes: t.bytes };
    if !logcheck::logs_right(area, counted) {
        return false;
    }
    if !numbers::numbers_right(t, clock) {
        return false;
    }
    if !logcheck::marks::unused_zero(counted) {
        return false;
    }
    if !logcheck::marks::marked_right(counted) {
        return false;
    }
    no_update_lost(t.bytes)
}

// Slot `k`, counted from 0: phases 0 to 4, of a byte that may be any of 256; an idle slot all zero.
fn slot_right(area: Frame, clock: u64, k: usize) -> bool
    requires { k < 8 }
    ensures { result ≡ slot_right_in area.entry.bytes.now clock (slot_place controller area.entry.bytes.now k) }
{
    let t = slot_place(area, k);
    let phase = t.bytes[PHASE_AT];
    if 4 < phase {
        return false;
    }
    if phase == 0 {
        return logcheck::all_zero(&t.bytes[..SLOT]);
    }
    busy_right(area, clock, t)
}

// The bytes from slot `k` on, counted from 0.
pub fn slot_place(area: Frame, k: usize) -> SlotBytes
    requires { k < 8 }
    ensures { result.bytes.now ≡ slot_place controller area.entry.bytes.now k }
{
    let at = HEADER + CELL * area.cells + SLOT * k;
    SlotBytes {
        bytes: &area.bytes[at..],
    }
}

// Every slot.
pub fn slots_right(area: Frame, clock: u64) -> bool
    ensures { result ≡ slots_right clock area.entry.bytes.now }
{
    (0..SLOTS).all(|k| slot_right(area, clock, k))
}

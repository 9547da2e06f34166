// The holders: what each slot claims is due to it, and then the cells are asked.
ghost use Rattle.std.specs.Prelude.{true, ◌≡◌};
ghost use Rattle.slot.specs.Logic.{◌and◌};
ghost use Rattle.slot.specs.Layout.{slot_of};
ghost use Rattle.rules.specs.Model.{controller};
ghost use Rattle.rules.specs.Layout.{clock_in};
ghost use Rattle.rules.specs.AreaRight.{record_holds, area_holders_right};
ghost use Rattle.slotcheck.specs.SlotParts.{slots_right};
ghost use Rattle.wellformed.specs.AreaParts.{cells_right};
ghost use Rattle.wellformed.specs.Claims.{in_part, Part, SlotRight, Claimed};

use crate::cells;
use logcheck::frame::{Frame, SlotBytes};
use logcheck::{CELL, HEADER, MOST_CELLS, PHASE_AT, TAKEN_AT, WRITE_COUNT_AT, WRITES_AT};
use slot::WriteEntry;
use slotcheck::SLOTS;

// Whether the slot holds the cells in this part of its write log, each of which is then due to it.
fn claim_part(
    area: Frame,
    slot: u8,
    t: SlotBytes,
    from: usize,
    to: usize,
    due: &mut [u8; MOST_CELLS],
) -> bool
    requires { Part area.cells t.bytes.now from to }
    ensures { Claimed area.entry.bytes.now (in_part t.entry.bytes.now from to) slot result due.old due.new }
{
    for i in from..to {
        let c = usize::from(t.bytes[WRITES_AT + WriteEntry::SIZE * i]);
        if area.bytes[HEADER + CELL * c + 1] != slot {
            return false;
        }
        due[c] = slot;
    }
    true
}

// Whether the slot holds what it has to: in phase 2 the first "taken" of its write log, in phase 3 all of it, in phase 4 the others.
fn claim(area: Frame, slot: u8, t: SlotBytes, due: &mut [u8; MOST_CELLS]) -> bool
    requires { SlotRight area.bytes.now t.bytes.now }
    ensures { Claimed area.entry.bytes.now (record_holds (slot_of 8 t.entry.bytes.now)) slot result due.old due.new }
{
    let taken = usize::from(t.bytes[TAKEN_AT]);
    let count = usize::from(t.bytes[WRITE_COUNT_AT]);
    match t.bytes[PHASE_AT] {
        2 => claim_part(area, slot, t, 0, taken, due),
        3 => claim_part(area, slot, t, 0, count, due),
        4 => claim_part(area, slot, t, taken, count, due),
        _ => true,
    }
}

// The cells, and that a cell's holder is the slot that has to hold it. Of two slots that claim a cell one is not its holder. The claims come first, so
// that one pass over the cells asks all.
pub fn cells_held(area: Frame, clock: u64) -> bool
    requires { slots_right (clock_in controller area.bytes.now) area.bytes.now ≡ true }
    ensures { result ≡ (cells_right clock area.entry.bytes.now and area_holders_right controller area.entry.bytes.now) }
{
    let mut due = [0; MOST_CELLS];
    for k in 0..SLOTS {
        if !claim(area, k as u8 + 1, slotcheck::slot_place(area, k), &mut due) {
            return false;
        }
    }
    cells::cells_right(area, clock, &due)
}

// Stores in place: of its slot a step stores what it changed, and with it a cell, the clock or the holders. A store takes area and slot apart, and asks that the area is good: a
// type that says so of an area lent to be written would have to keep it between two puts, where it doesn't hold.
#![tactic(auto)]

ghost use Rattle.std.specs.Prelude.{◌≡◌, ◌+◌, ◌<◌, ◌≤◌, length};
ghost use Rattle.slot.specs.Fields.{turned_to, with_last, with_reads_of, with_writes_of};
ghost use Rattle.slot.specs.Layout.{read_capacity, empty};
ghost use Rattle.rules.specs.Model.{controller};
ghost use Rattle.rules.specs.Layout.{count_in, pack};
ghost use Rattle.area.specs.Good.{Good, state_in};
ghost use Rattle.area.specs.InPlace.{record_at};
ghost use Rattle.stores.specs.Stores.{
  Canonical,
  stored_fields,
  stored_fields_cell,
  stored_read,
  stored_writes,
  stored_reads_clock,
  stored_freed,
  cell_put,
  freed_cells,
  holder_freed,
};

use area::{CLOCK, COUNT, STAMP, SlotView};
use rules::Cell;
use slot::SlotRecord;

// Puts a cell at `at`.
pub fn put_cell(s: &mut [u8], at: usize, x: Cell)
    requires { at + 14 ≤ length s.old }
    ensures { s.new ≡ cell_put s.old at x }
{
    s[at] = x.kind;
    s[at + 1] = x.holder;
    wire::put(s, at + 2, 4, u64::from(x.word));
    wire::put(s, at + 6, STAMP, x.stamp);
}

// Stores slot `i` but for its read log, which stays.
pub fn store_writes(s: &mut [u8], i: u8, v: SlotRecord)
    requires good { Good s.old × (i < 8) }
    requires v_value { Canonical (with_reads_of (record_at s.old i) v) }
    ensures { s.new ≡ stored_writes s.old i v }
{
    let slot = SlotView { area: s, index: i };
    let at = slot.offset();
    packed::put_fields(s, at, STAMP, v);
    packed::put_writes(s, at, STAMP, v);
}

// Stores slot `i` but for its write log, which stays, and the clock.
pub fn store_reads_clock(s: &mut [u8], i: u8, v: SlotRecord, clock: u64)
    requires good { Good s.old × (i < 8) }
    requires v_value { Canonical (with_writes_of (record_at s.old i) v) }
    ensures { s.new ≡ stored_reads_clock s.old i v clock }
{
    let slot = SlotView { area: s, index: i };
    let at = slot.offset();
    packed::put_fields(s, at, STAMP, v);
    packed::put_reads(s, at, STAMP, v);
    wire::put(s, CLOCK, STAMP, clock);
}

// Stores slot `i` but for its logs, which stay; a slot that turns idle, phase 0 of a record's byte, is cleared throughout.
pub fn store_fields(s: &mut [u8], i: u8, v: SlotRecord)
    requires good { Good s.old × (i < 8) }
    requires v_value { Canonical (turned_to (record_at s.old i) v) }
    ensures { s.new ≡ stored_fields s.old i v }
{
    let slot = SlotView { area: s, index: i };
    let at = slot.offset();
    if v.phase == 0 {
        packed::clear(s, at, STAMP);
        return;
    }
    packed::put_fields(s, at, STAMP, v);
}

// The same, and cell `c`.
pub fn store_fields_cell(s: &mut [u8], i: u8, v: SlotRecord, c: u8, x: Cell)
    requires good { Good s.old × (i < 8) × (c < count_in s.old) }
    requires v_value { Canonical (turned_to (record_at s.old i) v) }
    ensures { s.new ≡ stored_fields_cell s.old i v c x }
{
    store_fields(s, i, v);
    put_cell(s, area::cell_offset(c), x);
}

// Stores slot `i` but for its logs, of which the read log gets one more entry, the last of `v`.
pub fn store_read(s: &mut [u8], i: u8, v: SlotRecord)
    requires good { Good s.old × (i < 8) × (1 ≤ v.readcount) × (v.readcount ≤ read_capacity) }
    requires v_value { Canonical (with_last (record_at s.old i) v) }
    ensures { s.new ≡ stored_read s.old i v }
{
    let slot = SlotView { area: s, index: i };
    let at = slot.offset();
    let last = usize::from(v.readcount - 1);
    packed::put_fields(s, at, STAMP, v);
    packed::put_read(s, at, STAMP, last, v);
}

// Clears the byte at `at` if it is `holder`.
fn free(s: &mut [u8], at: usize, holder: u8)
    requires { at < length s.old }
    ensures { s.new ≡ holder_freed s.old at holder }
{
    if s[at] == holder {
        s[at] = 0;
    }
}

// Frees all cells that slot `i` holds: of each cell only the holder's byte is touched.
fn free_cells(s: &mut [u8], i: u8)
    requires { Good s.old × (i < 8) }
    ensures { s.new ≡ pack controller (freed_cells i (state_in s.old)) }
{
    for c in 0..s[COUNT] {
        free(s, area::cell_offset(c) + 1, i + 1);
    }
}

// Stores slot `i` idle, with all cells freed that it holds: its record is zero throughout, and so its bytes are cleared in place.
pub fn store_freed(s: &mut [u8], i: u8, v: SlotRecord)
    requires good { Good s.old × (i < 8) }
    requires v_value { v ≡ empty }
    ensures { s.new ≡ stored_freed s.old i v }
{
    let slot = SlotView { area: s, index: i };
    let at = slot.offset();
    free_cells(s, i);
    packed::clear(s, at, STAMP);
}

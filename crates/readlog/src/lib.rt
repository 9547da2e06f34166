// What the cells say of a slot's read log: its marks at enter, its words at reload, and the first cell that stands in reload's way. And what the write log says of it: whether it
// has a marked cell too.
#![tactic(auto)]

ghost use Rattle.std.specs.Prelude.{◌≡◌, ◌<◌};
ghost use Rattle.slot.specs.Logic.{◌or◌};
ghost use Rattle.slot.specs.declared.ReadEntry.{ReadEntry};
ghost use Rattle.rules.specs.Cells.{held_by_other, newer, with_mark, reloaded};
ghost use Rattle.rules.specs.Layout.{count_in};
ghost use Rattle.area.specs.Good.{Good, state_in};
ghost use Rattle.area.specs.InPlace.{fields_in};
ghost use Rattle.readlog.specs.Reload.{changed_reads, marked_reads, reloaded_reads, obstacle_in};
ghost use Rattle.readlog.specs.MarkedWritten.{marked_written_in};

use area::SlotView;
use rules::Cell;
use slot::{ReadEntry, SlotRecord};

// A cell that stands in the way of a reload, and the slot that holds it, counted from 1.
#[derive(Clone, Copy)]
pub struct Held {
    pub cell: u8,
    pub holder: u8,
}

// Whether what was read of a cell is out of date: another slot holds it, or it has a stamp above `start`.
fn outdated(i: u8, start: u64, x: Cell) -> bool
    requires { i < 8 }
    ensures { result ≡ (held_by_other i x or newer start x) }
{
    area::held_by_other(i, x) || start < x.stamp
}

// A read entry with its mark, as enter gives it to a slot.
fn marked_entry(slot: SlotView, start: u64, e: ReadEntry) -> ReadEntry
    requires { e.cell < count_in slot.area.now }
    ensures { result ≡ with_mark (state_in slot.entry.area.now) slot.entry.index start e }
{
    let x = area::cell_at(slot.area, e.cell);
    ReadEntry {
        cell: e.cell,
        mark: outdated(slot.index, start, x),
        word: e.word,
    }
}

// A read entry with its cell's present word.
fn reloaded_entry(s: &[u8], e: ReadEntry) -> ReadEntry
    requires { Good s.now × (e.cell < count_in s.now) }
    ensures { result ≡ reloaded (state_in s.now) e }
{
    let x = area::cell_at(s, e.cell);
    ReadEntry {
        cell: e.cell,
        mark: false,
        word: x.word,
    }
}

// The read log of a slot, whose fields are `v`, with each entry changed.
fn changed_reads<F: Fn(ReadEntry) -> ReadEntry>(
    slot: SlotView,
    v: SlotRecord,
    change: F,
) -> [ReadEntry; SlotRecord::READS]
    requires v_value { v ≡ fields_in slot.area.now slot.index }
    requires in_area { (e : ReadEntry) → e.cell < count_in slot.area.now → F.pre change e }
    ensures { (f : ReadEntry → ReadEntry) → ((e r : ReadEntry) → F.post change e r → r ≡ f e) → result ≡ changed_reads slot.entry.area.now slot.entry.index f }
{
    let n = usize::from(v.readcount);
    let mut log = v.reads;
    for (k, e) in log[..n].iter_mut().enumerate() {
        *e = change(slot.read_entry(k));
    }
    log
}

// The read log of a slot with its marks.
pub fn marked_reads(slot: SlotView) -> [ReadEntry; SlotRecord::READS]
    ensures { result ≡ marked_reads slot.entry.area.now slot.entry.index }
{
    let v = slot.fields();
    let start = v.start;
    changed_reads(slot, v, |e| marked_entry(slot, start, e))
}

// The read log of a slot with the cells' present words.
pub fn reloaded_reads(slot: SlotView) -> [ReadEntry; SlotRecord::READS]
    ensures { result ≡ reloaded_reads slot.entry.area.now slot.entry.index }
{
    changed_reads(slot, slot.fields(), |e| reloaded_entry(slot.area, e))
}

// The first cell of the read log that a slot other than this one holds: it stands in the way of a reload. The search ends by break, as the rules document has it.
pub fn first_obstacle(slot: SlotView) -> Option<Held>
    ensures { result ≡ obstacle_in slot.entry.area.now slot.entry.index }
{
    let n = usize::from(slot.fields().readcount);
    let mut obstacle = None;
    for k in 0..n {
        let e = slot.read_entry(k);
        let x = area::cell_at(slot.area, e.cell);
        if area::held_by_other(slot.index, x) {
            obstacle = Some(Held {
                cell: e.cell,
                holder: x.holder,
            });
            break;
        }
    }
    obstacle
}

// Whether some marked cell is also in the write log of a slot.
pub fn marked_written(slot: SlotView) -> bool
    ensures { result ≡ marked_written_in slot.entry.area.now slot.entry.index }
{
    bothlogs::marked_written(slot.area, slot.offset(), area::STAMP)
}

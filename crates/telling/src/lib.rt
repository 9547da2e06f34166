// What one step tells: what its slot has before it, and its line. Any bytes are taken, and any buffers.
#![tactic(auto)]

ghost use Rattle.std.specs.Prelude.{◌≡◌};
ghost use Rattle.slot.specs.Logs.{write_log, write_entry};
ghost use Rattle.slot.specs.Operations.{write_found};
ghost use Rattle.line.specs.Gather.{Writes, added_parts, written};
ghost use Rattle.telling.specs.Looking.{looked_at};
ghost use Rattle.telling.specs.Parts.{word_parts, cell_parts, rest_parts, line_parts, step_parts};

use area::{CELL, COUNT, HEADER, SLOT, STAMP};
use line::Out;
use slot::{SlotRecord, WriteEntry};
use tally::Effect;

// What a step's slot has before it, as far as an effect tells of it: whether a log has the step's cell, and the record with its write log.
#[derive(Clone, Copy)]
pub struct Before {
    pub logged: bool,
    pub own: SlotRecord,
}

// The write entry of a cell in a slot's record. Any bytes are taken, so the log need not ascend: only the cell ends the search.
fn find_written(own: SlotRecord, cell: u8) -> Option<WriteEntry>
    ensures { result ≡ write_found (write_entry (write_log own) cell) }
{
    let count = usize::from(own.writecount);
    for e in own.writes.iter().take(count) {
        if e.cell == cell {
            return Some(*e);
        }
    }
    None
}

// Looks at a slot, and at whether a log of it has the cell. Where the area ends before the slot does, as for a number that no slot has, there is nothing to see.
pub fn look(area: &[u8], slot: u8, cell: u8) -> Before
    ensures { result ≡ looked_at area.now slot cell }
{
    let cells = usize::from(apart::byte(area, COUNT));
    let first = HEADER + CELL * cells;
    let at = first + SLOT * usize::from(slot.saturating_sub(1));
    if area.len() < at + SLOT {
        return Before {
            logged: false,
            own: SlotRecord::empty(),
        };
    }
    let own = packed::with_writes(area, at, STAMP);
    let written = find_written(own, cell);
    let read = packed::find_read(area, at, STAMP, cell);
    Before {
        logged: written.is_some() || read.is_some(),
        own,
    }
}

// Puts the first word of an effect's line.
fn put_word(out: &mut Out, effect: Effect)
    ensures { Writes out.old (added_parts (word_parts effect) (written out.old)) out.new }
{
    let word: &[u8] = match effect {
        Effect::Begun => b"at",
        Effect::Read => b"r",
        Effect::Reloaded => b"rl",
        Effect::Committed => b"co",
        Effect::Aborted => b"ab",
    };
    out.put(word);
}

// Puts the cells of a write log.
fn put_cells(out: &mut Out, own: SlotRecord)
    ensures { Writes out.old (added_parts (cell_parts own) (written out.old)) out.new }
{
    let count = usize::from(own.writecount);
    for e in own.writes.iter().take(count) {
        out.field(u64::from(e.cell));
    }
}

// Puts what follows the transaction's number: the cell of a read; the stamp and the written cells of a commit.
fn put_rest(out: &mut Out, effect: Effect, cell: u8, own: SlotRecord)
    ensures { Writes out.old (added_parts (rest_parts effect cell own) (written out.old)) out.new }
{
    match effect {
        Effect::Read => out.field(u64::from(cell)),
        Effect::Committed => {
            out.field(own.commit);
            put_cells(out, own);
        }
        _ => {}
    }
}

// Puts the line of an effect.
fn put_effect(out: &mut Out, effect: Effect, slot: u8, number: u64, cell: u8, own: SlotRecord)
    ensures { Writes out.old (added_parts (line_parts effect slot number cell own) (written out.old)) out.new }
{
    put_word(out, effect);
    out.field(u64::from(slot));
    out.field(number);
    put_rest(out, effect, cell, own);
    out.put(b"\n");
}

// Puts the line of a step of this number in this slot, by its code and what its slot had before, if it shows anything.
pub fn put_line(out: &mut Out, before: Before, step: u8, code: u64, slot: u8, number: u64, cell: u8)
    ensures { Writes out.old (added_parts (step_parts before step code slot number cell) (written out.old)) out.new }
{
    if let Some(effect) = tally::shown_by(step, code, before.logged) {
        put_effect(out, effect, slot, number, cell, before.own);
    }
}

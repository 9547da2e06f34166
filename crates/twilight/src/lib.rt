// The steps in the twilight zone on what was read: reread, ask, reload and ignore. Each tests in the order of its row, and a refusal changes nothing.
// A step takes area and slot apart, as the stores do (`stores` says why).
#![tactic(auto)]

ghost use Rattle.std.specs.Prelude.{◌<◌, OnOk};
ghost use Rattle.rules.specs.Model.{controller};
ghost use Rattle.rules.specs.Layout.{count_in};
ghost use Rattle.rules.specs.Steps as rule;
ghost use Rattle.area.specs.Good.{Good, state_in};
ghost use Rattle.ways.specs.Did.{Did};
ghost use Rattle.ways.specs.Asked.{on_entry};
ghost use Rattle.ways.specs.Guard.{Gives};

use area::SlotView;
use call::{Answer, Refusal, Reply};
use readlog::Held;
use slot::ReadEntry;
use ways::Phase;

// The read entry of a cell, in the twilight zone.
fn entry_read(slot: SlotView, cell: u8) -> Result<ReadEntry, Refusal>
    ensures row { Gives result (on_entry (state_in slot.entry.area.now) slot.entry.index cell) }
    ensures inside { OnOk result (cell < count_in slot.entry.area.now) }
{
    ways::in_phase(slot, Phase::Twilight)?;
    ways::cell_there(slot.area, cell)?;
    slot.find_read(cell).ok_or(Refusal::NotInLog)
}

// The read log's value of the cell, marked or not.
pub fn reread(s: &mut [u8], i: u8, cell: u8) -> Reply
    requires { Good s.old × (i < 8) }
    ensures { Did (rule.reread controller (state_in s.old) i cell) s.old result s.new }
{
    let slot = SlotView { area: s, index: i };
    let e = entry_read(slot, cell)?;
    let x = area::cell_at(s, cell);
    Ok(Answer::Value(value::value_of(x.kind, e.word)))
}

// Whether the cell's read entry is marked.
pub fn ask(s: &mut [u8], i: u8, cell: u8) -> Reply
    requires { Good s.old × (i < 8) }
    ensures { Did (rule.ask controller (state_in s.old) i cell) s.old result s.new }
{
    let slot = SlotView { area: s, index: i };
    let e = entry_read(slot, cell)?;
    Ok(Answer::Verdict(e.mark))
}

// Takes all reads anew from the shared cells, and a new stamp: with the old one the transaction would claim a place before a write that it has read.
#[tactic(auto, using(ways::proofs::Exits::exits), unfolding(rules::specs::Steps::reload))]
pub fn reload(s: &mut [u8], i: u8) -> Reply
    requires { Good s.old × (i < 8) }
    ensures { Did (rule.reload controller (state_in s.old) i) s.old result s.new }
{
    let slot = SlotView { area: s, index: i };
    ways::in_phase(slot, Phase::Twilight)?;
    if let Some(Held { cell, holder }) = readlog::first_obstacle(slot) {
        return Err(Refusal::ReloadHeld { cell, holder });
    }
    let stamp = ways::next_stamp(s)?;
    let v = slot.fields();
    let w = v.reloaded(readlog::reloaded_reads(slot), stamp);
    stores::store_reads_clock(s, i, w, stamp);
    Ok(Answer::Done)
}

// Sets the ignoring flag if any entry is marked. With a marked cell in the write log too, an update of another slot would be lost.
#[tactic(auto, using(ways::proofs::Exits::exits), unfolding(rules::specs::Steps::ignore))]
pub fn ignore(s: &mut [u8], i: u8) -> Reply
    requires { Good s.old × (i < 8) }
    ensures { Did (rule.ignore controller (state_in s.old) i) s.old result s.new }
{
    let slot = SlotView { area: s, index: i };
    ways::in_phase(slot, Phase::Twilight)?;
    if readlog::marked_written(slot) {
        return Err(Refusal::MarkedWritten);
    }
    if slot.some_marked() {
        let ignoring = slot.fields().ignoring_set();
        stores::store_fields(s, i, ignoring);
    }
    Ok(Answer::Done)
}

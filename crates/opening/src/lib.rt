// The steps that open a transaction, read for it and close it. Each tests in the order of its row, and a refusal changes nothing.
// A step takes area and slot apart, as the stores do (`stores` says why).
#![tactic(auto)]

ghost use Rattle.std.specs.Prelude.{◌≡◌, ◌<◌};
ghost use Rattle.rules.specs.Model.{controller};
ghost use Rattle.rules.specs.Layout.{lay};
ghost use Rattle.rules.specs.State.{cell_at, slot_at};
ghost use Rattle.rules.specs.Steps as rule;
ghost use Rattle.area.specs.Good.{Good, state_in};
ghost use Rattle.ways.specs.Did.{Did};
ghost use Rattle.ways.specs.Asked.{shared_read};

use area::SlotView;
use call::{Answer, Refusal, Reply};
use rules::Cell;
use slot::{ReadEntry, SlotRecord};
use ways::Phase;

// Start is the clock, so that every stamp given later is above it.
#[tactic(auto, using(ways::proofs::Exits::exits), unfolding(rules::specs::Steps::begin))]
pub fn begin(s: &mut [u8], i: u8) -> Reply
    requires { Good s.old × (i < 8) }
    ensures { Did (rule.begin controller (state_in s.old) i) s.old result s.new }
{
    let slot = SlotView { area: s, index: i };
    ways::in_phase(slot, Phase::Idle)?;
    let begun = slot.fields().begun(area::clock(s));
    stores::store_fields(s, i, begun);
    Ok(Answer::Done)
}

// What the transaction wrote comes first, then what it has read: a shared cell is looked at only once.
#[tactic(auto, using(ways::proofs::Exits::exits), unfolding(rules::specs::Steps::read))]
pub fn read(s: &mut [u8], i: u8, cell: u8) -> Reply
    requires { Good s.old × (i < 8) }
    ensures { Did (rule.read controller (state_in s.old) i cell) s.old result s.new }
{
    let slot = SlotView { area: s, index: i };
    ways::in_phase(slot, Phase::Open)?;
    ways::cell_there(s, cell)?;
    let x = area::cell_at(s, cell);
    if let Some(e) = slot.find_write(cell) {
        return Ok(Answer::Value(value::value_of(x.kind, e.word)));
    }
    if let Some(e) = slot.find_read(cell) {
        return Ok(Answer::Value(value::value_of(x.kind, e.word)));
    }
    read_shared(s, i, cell, x)
}

// A read of a cell that neither log of the open slot has: the shared cell `x` joins the read log.
#[tactic(auto, using(ways::proofs::Exits::exits), unfolding(rules::specs::Steps::read_shared, rules::specs::Cells::newer))]
fn read_shared(s: &mut [u8], i: u8, cell: u8, x: Cell) -> Reply
    requires good { Good s.old × (i < 8) }
    requires i_value { ((lay (slot_at (state_in s.old) i)).phase ≡ 1) × (x ≡ cell_at (state_in s.old) cell) }
    ensures { Did (shared_read (state_in s.old) i cell) s.old result s.new }
{
    let slot = SlotView { area: s, index: i };
    let v = slot.fields();
    if SlotRecord::READS <= usize::from(v.readcount) {
        return Err(Refusal::LogFull);
    }
    if area::held_by_other(i, x) {
        return Err(Refusal::ReadHeld { holder: x.holder });
    }
    if v.start < x.stamp {
        return Err(Refusal::ReadNewer);
    }
    let e = ReadEntry {
        cell,
        mark: false,
        word: x.word,
    };
    stores::store_read(s, i, v.joined(e));
    Ok(Answer::Value(value::value_of(x.kind, x.word)))
}

// The write log is whole now, and none of its cells is taken.
#[tactic(auto, using(ways::proofs::Exits::exits), unfolding(rules::specs::Steps::close))]
pub fn close(s: &mut [u8], i: u8) -> Reply
    requires { Good s.old × (i < 8) }
    ensures { Did (rule.close controller (state_in s.old) i) s.old result s.new }
{
    let slot = SlotView { area: s, index: i };
    ways::in_phase(slot, Phase::Open)?;
    let closed = slot.fields().closed();
    stores::store_fields(s, i, closed);
    Ok(Answer::Done)
}

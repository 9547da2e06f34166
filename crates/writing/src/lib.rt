// The steps that put a value into the write log: write, while the slot is open, and update in the twilight zone; each also without a value, where kind or word is
// illegal. Each tests in the order of its row, and a refusal changes nothing.
// A step takes area and slot apart, as the stores do (`stores` says why).
#![tactic(auto)]

ghost use Rattle.std.specs.Prelude.{◌≡◌, ◌<◌, IfOk};
ghost use Rattle.value.specs.Value.{word_of};
ghost use Rattle.slot.specs.Operations.{Writable, written};
ghost use Rattle.rules.specs.Model.{controller};
ghost use Rattle.rules.specs.Layout.{lay, count_in};
ghost use Rattle.rules.specs.Outcome.{fitting_value};
ghost use Rattle.rules.specs.State.{slot_at};
ghost use Rattle.rules.specs.Steps as rule;
ghost use Rattle.area.specs.Good.{Good, state_in};
ghost use Rattle.area.specs.InPlace.{clock_now, record_at};
ghost use Rattle.stores.specs.Stores.{Canonical, stored};
ghost use Rattle.ways.specs.Did.{Did};
ghost use Rattle.ways.specs.Asked.{no_room};
ghost use Rattle.ways.specs.Guard.{Guards};
ghost use Rattle.ways.specs.declared.Phase.TheVariants.{Open, Twilight};

use area::SlotView;
use call::{Answer, Refusal, Reply};
use slot::{SlotRecord, WriteEntry};
use value::CellValue;
use ways::Phase;

// The word of a value that fits the cell. The value is asked before the cell's kind: the lowest code is given.
fn fitting_word(s: &[u8], cell: u8, v: CellValue) -> Result<u32, Refusal>
    requires { Good s.now × (cell < count_in s.now) }
    ensures row { Guards result (fitting_value (state_in s.now) cell v) }
    ensures word { IfOk result (λ word. word ≡ word_of v) }
{
    let kind = v.kind();
    let word = v.word();
    if !value::legal(kind, word) {
        return Err(Refusal::IllegalValue);
    }
    if kind != area::cell_at(s, cell).kind {
        return Err(Refusal::OtherKind);
    }
    Ok(word)
}

// Whether the write log has no entry of the cell, and no room for one.
fn no_room(slot: SlotView, cell: u8) -> bool
    ensures { result ≡ no_room (lay (slot_at (state_in slot.entry.area.now) slot.entry.index)) cell }
{
    SlotRecord::WRITES <= usize::from(slot.fields().writecount) && slot.find_write(cell).is_none()
}

// Puts the entry into the write log of slot `i`, in the place of one of its cell. Inlined, as `written` is: its record shares its place on the stack with those of
// the other steps.
#[inline(always)]
fn put_entry(s: &mut [u8], i: u8, e: WriteEntry)
    requires good { Good s.old × (i < 8) }
    requires room { Writable (record_at s.old i) e }
    requires kept { Canonical (written (record_at s.old i) e) }
    ensures { s.new ≡ stored s.old i (clock_now s.old) (state_in s.old).cells (written (record_at s.old i) e) }
{
    let slot = SlotView { area: s, index: i };
    let v = slot.with_writes();
    stores::store_writes(s, i, v.written(e));
}

// Room comes last: the lowest code is given.
#[tactic(auto, using(ways::proofs::Exits::exits), unfolding(rules::specs::Steps::write))]
pub fn write(s: &mut [u8], i: u8, cell: u8, v: CellValue) -> Reply
    requires { Good s.old × (i < 8) }
    ensures { Did (rule.write controller (state_in s.old) i cell v) s.old result s.new }
{
    let slot = SlotView { area: s, index: i };
    ways::in_phase(slot, Phase::Open)?;
    ways::cell_there(s, cell)?;
    let word = fitting_word(s, cell, v)?;
    if no_room(slot, cell) {
        return Err(Refusal::LogFull);
    }
    put_entry(s, i, WriteEntry { cell, word });
    Ok(Answer::Done)
}

// Replaces the cell's value in the write log.
#[tactic(auto, using(ways::proofs::Exits::exits), unfolding(rules::specs::Steps::update))]
pub fn update(s: &mut [u8], i: u8, cell: u8, to: CellValue) -> Reply
    requires { Good s.old × (i < 8) }
    ensures { Did (rule.update controller (state_in s.old) i cell to) s.old result s.new }
{
    let slot = SlotView { area: s, index: i };
    ways::in_phase(slot, Phase::Twilight)?;
    ways::cell_there(s, cell)?;
    let word = fitting_word(s, cell, to)?;
    slot.find_write(cell).ok_or(Refusal::NotInLog)?;
    put_entry(s, i, WriteEntry { cell, word });
    Ok(Answer::Done)
}

// A write or an update, by the phase that it asks for, whose kind or word is illegal: it has no value, but codes 4 and 5 come before 6 all the same.
#[tactic(auto, using(ways::proofs::Exits::exits), unfolding(rules::specs::Steps::illegal_write, rules::specs::Steps::illegal_update))]
pub fn illegal_value(s: &[u8], i: u8, cell: u8, phase: Phase) -> Reply
    requires { Good s.now × (i < 8) }
    ensures write { phase ≡ Open → Did (rule.illegal_write controller (state_in s.now) i cell) s.now result s.now }
    ensures update { phase ≡ Twilight → Did (rule.illegal_update controller (state_in s.now) i cell) s.now result s.now }
{
    let slot = SlotView { area: s, index: i };
    ways::in_phase(slot, phase)?;
    ways::cell_there(s, cell)?;
    Err(Refusal::IllegalValue)
}

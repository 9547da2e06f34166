// The steps of a locking slot: lock takes its cells one by one, and enter leads into the twilight zone. Each tests in the order of its row, and a refusal changes
// nothing.
// A step takes area and slot apart, as the stores do (`stores` says why).
#![tactic(auto)]

ghost use Rattle.std.specs.Prelude.{◌<◌};
ghost use Rattle.rules.specs.Model.{controller};
ghost use Rattle.rules.specs.Steps as rule;
ghost use Rattle.area.specs.Good.{Good, state_in};
ghost use Rattle.ways.specs.Did.{Did};

use area::SlotView;
use call::{Answer, Refusal, Reply};
use rules::Cell;
use ways::Phase;

// One cell a call, the lowest of the write log that is not yet taken.
#[tactic(auto, using(ways::proofs::Exits::exits), unfolding(rules::specs::Steps::lock))]
pub fn lock(s: &mut [u8], i: u8) -> Reply
    requires { Good s.old × (i < 8) }
    ensures { Did (rule.lock controller (state_in s.old) i) s.old result s.new }
{
    let slot = SlotView { area: s, index: i };
    ways::in_phase(slot, Phase::Locking)?;
    let v = slot.fields();
    if v.writecount <= v.taken {
        return Err(Refusal::NotAllowed);
    }
    let cell = slot.write_entry(v.taken).cell;
    let x = area::cell_at(s, cell);
    if area::held_by_other(i, x) {
        return Err(Refusal::LockHeld {
            cell,
            holder: x.holder,
        });
    }
    // holders count slots from 1
    let taken = Cell { holder: i + 1, ..x };
    stores::store_fields_cell(s, i, v.locked_one(), cell, taken);
    Ok(Answer::Done)
}

// Takes a stamp, marks what others have changed or hold since, and answers whether nothing is marked. All cells of the write log must be taken.
#[tactic(auto, using(ways::proofs::Exits::exits), unfolding(rules::specs::Steps::enter))]
pub fn enter(s: &mut [u8], i: u8) -> Reply
    requires { Good s.old × (i < 8) }
    ensures { Did (rule.enter controller (state_in s.old) i) s.old result s.new }
{
    let slot = SlotView { area: s, index: i };
    ways::in_phase(slot, Phase::Locking)?;
    let v = slot.fields();
    if v.taken < v.writecount {
        return Err(Refusal::NotAllowed);
    }
    let commit = ways::next_stamp(s)?;
    let w = v.entered(readlog::marked_reads(slot), commit);
    stores::store_reads_clock(s, i, w, commit);
    Ok(Answer::Verdict(!w.some_marked()))
}

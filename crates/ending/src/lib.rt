// The steps that end a transaction: finish, publish and give up. Each tests in the order of its row, and a refusal changes nothing.
// A step takes area and slot apart, as the stores do (`stores` says why).
#![tactic(auto)]

ghost use Rattle.std.specs.Prelude.{◌≡◌, ◌<◌};
ghost use Rattle.rules.specs.Model.{controller};
ghost use Rattle.rules.specs.Layout.{lay};
ghost use Rattle.rules.specs.State.{slot_at};
ghost use Rattle.rules.specs.Steps as rule;
ghost use Rattle.area.specs.Good.{Good, state_in};
ghost use Rattle.ways.specs.Did.{Did};
ghost use Rattle.ways.specs.Asked.{marked_unignored};

use area::SlotView;
use call::{Answer, Refusal, Reply};
use rules::Cell;
use ways::Phase;

// Ends without commit and frees all held cells, or commits: publishing, or idle at once if nothing was written.
#[tactic(auto, using(ways::proofs::Exits::exits), unfolding(rules::specs::Steps::finish))]
pub fn finish(s: &mut [u8], i: u8) -> Reply
    requires { Good s.old × (i < 8) }
    ensures { Did (rule.finish controller (state_in s.old) i) s.old result s.new }
{
    let slot = SlotView { area: s, index: i };
    ways::in_phase(slot, Phase::Twilight)?;
    let v = slot.fields();
    if spoilt(slot) {
        stores::store_freed(s, i, v.idled());
        return Ok(Answer::Aborted);
    }
    stores::store_fields(s, i, v.finished());
    Ok(Answer::Done)
}

// Some mark and no flag: what was read no longer holds together, and the task does not ignore it.
fn spoilt(slot: SlotView) -> bool
    ensures { result ≡ marked_unignored (lay (slot_at (state_in slot.entry.area.now) slot.entry.index)) }
{
    !slot.fields().ignoring && slot.some_marked()
}

// The lowest unpublished cell gets its value and the commit stamp, and is freed. The others stay held.
#[tactic(auto, using(ways::proofs::Exits::exits), unfolding(rules::specs::Steps::publish))]
pub fn publish(s: &mut [u8], i: u8) -> Reply
    requires { Good s.old × (i < 8) }
    ensures { Did (rule.publish controller (state_in s.old) i) s.old result s.new }
{
    let slot = SlotView { area: s, index: i };
    ways::in_phase(slot, Phase::Publishing)?;
    let v = slot.fields();
    let e = slot.write_entry(v.taken);
    let x = area::cell_at(s, e.cell);
    let published = Cell {
        kind: x.kind,
        holder: 0,
        word: e.word,
        stamp: v.commit,
    };
    stores::store_fields_cell(s, i, v.published_one(), e.cell, published);
    Ok(Answer::Done)
}

// A publishing slot is committed, and an idle one has nothing to give up.
#[tactic(auto, using(ways::proofs::Exits::exits), unfolding(rules::specs::Steps::give_up))]
pub fn give_up(s: &mut [u8], i: u8) -> Reply
    requires { Good s.old × (i < 8) }
    ensures { Did (rule.give_up controller (state_in s.old) i) s.old result s.new }
{
    let slot = SlotView { area: s, index: i };
    match Phase::of(slot) {
        Phase::Idle | Phase::Publishing => Err(Refusal::NotAllowed),
        Phase::Open | Phase::Locking | Phase::Twilight => {
            let idled = slot.fields().idled();
            stores::store_freed(s, i, idled);
            Ok(Answer::Done)
        }
    }
}

// The wear operation for C: one check of the area, then steps of the core in place. Nothing is asked of the caller but that the slices are what they say.
#![tactic(auto)]

ghost use Rattle.std.specs.Prelude.{MatchResult};
ghost use Rattle.level.specs.Answer.{number_in};
ghost use Rattle.wear.specs.Contract.{Worn};
ghost use Rattle.wear.specs.Asked.{Asked};

use level::{Unlevelled, WearSet};

// The number of slots.
const SLOTS: u8 = area::SLOTS as u8;

// What is asked before the first read. A refusal changes no byte.
fn asked(s: &[u8], set: &[u8], slot: u8) -> Result<(), Unlevelled>
    ensures { MatchResult result (λ _. Asked s.now set.now slot) (λ e. Worn s.now set.now slot (number_in (Err e)) s.now) }
{
    if !wellformed::well_formed(s) {
        return Err(Unlevelled::NotWellFormed);
    }
    if !wearset::set_right(s, set) {
        return Err(Unlevelled::BadSet);
    }
    if slot == 0 || SLOTS < slot {
        return Err(Unlevelled::NoSuchSlot);
    }
    if !wearset::open_and_empty(s, slot - 1) {
        return Err(Unlevelled::NotOpenAndEmpty);
    }
    Ok(())
}

// Levels the wear set: reads its cells for the open transaction of the slot, picks a group and writes its count plus one. Answers
// place × 2^48 + code × 2^40 + kind × 2^32 + word.
pub fn crocktendril_wear(s: &mut [u8], set: &[u8], slot: u8) -> u64
    ensures { Worn s.old set.now slot result s.new }
{
    match asked(s, set, slot) {
        Ok(()) => level::level(s, WearSet { slot, set }),
        Err(unlevelled) => level::number(Err(unlevelled)),
    }
}

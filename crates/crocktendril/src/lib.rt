// The two functions for C, thin: the lent area is checked, the call decoded, and the step taken in place. Nothing is asked of the caller but that the
// slices are what they say.
#![tactic(auto)]

ghost use Rattle.rules.specs.Run.{call};
ghost use Rattle.fresh.specs.LaidOut.{LaidOut};
ghost use Rattle.crocktendril.specs.Contract.{Stepped};

use call::Refusal;

// Makes one step. Answers code × 2^40 + kind × 2^32 + word.
pub fn crocktendril_step(s: &mut [u8], step: u8, slot: u8, cell: u8, kind: u8, word: u32) -> u64
    ensures { Stepped s.old (call step slot cell kind word) result s.new }
{
    if !wellformed::well_formed(s) {
        return call::number(Err(Refusal::NotWellFormed));
    }
    let decoded = call::decode(step, cell, kind, word);
    call::number(dispatch::step(s, slot, decoded))
}

// Lays out a fresh area from descriptions of 5 bytes. Answers the plain code.
pub fn crocktendril_lay_out(s: &mut [u8], descriptions: &[u8]) -> u64
    ensures { LaidOut s.old descriptions.now result s.new }
{
    match fresh::lay_out(s, descriptions) {
        Ok(()) => 0,
        Err(why) => u64::from(why.code()),
    }
}

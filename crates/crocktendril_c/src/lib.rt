// The two functions as C calls them: each hands its arguments on to the library's function of its name, and promises the same.
#![tactic(auto)]

ghost use Rattle.rules.specs.Run.{call};
ghost use Rattle.fresh.specs.LaidOut.{LaidOut};
ghost use Rattle.crocktendril.specs.Contract.{Stepped};

// Makes one step. Answers code × 2^40 + kind × 2^32 + word.
#[unsafe(no_mangle)]
pub extern "C" fn crocktendril_step(
    s: &mut [u8],
    step: u8,
    slot: u8,
    cell: u8,
    kind: u8,
    word: u32,
) -> u64
    ensures { Stepped s.old (call step slot cell kind word) result s.new }
{
    crocktendril::crocktendril_step(s, step, slot, cell, kind, word)
}

// Lays out a fresh area from descriptions of 5 bytes. Answers the plain code.
#[unsafe(no_mangle)]
pub extern "C" fn crocktendril_lay_out(s: &mut [u8], descriptions: &[u8]) -> u64
    ensures { LaidOut s.old descriptions.now result s.new }
{
    crocktendril::crocktendril_lay_out(s, descriptions)
}

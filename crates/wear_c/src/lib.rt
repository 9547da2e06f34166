// The wear operation as C calls it: its arguments are handed on to the library's function of its name, and it promises the same.
#![tactic(auto)]

ghost use Rattle.wear.specs.Contract.{Worn};

// Levels the wear set. Answers place × 2^48 + code × 2^40 + kind × 2^32 + word.
#[unsafe(no_mangle)]
pub extern "C" fn crocktendril_wear(s: &mut [u8], set: &[u8], slot: u8) -> u64
    ensures { Worn s.old set.now slot result s.new }
{
    wear::crocktendril_wear(s, set, slot)
}

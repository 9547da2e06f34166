// What is asked before the first read: that the set is right, and that the slot's transaction is open with empty logs.
#![tactic(auto)]

ghost use Rattle.std.specs.Prelude.{◌≡◌, ◌<◌};
ghost use Rattle.rules.specs.State.{slot_at};
ghost use Rattle.area.specs.Good.{Good, state_in};
ghost use Rattle.wearset.specs.WearSet.{set_length_right, cell_fits, set_right};
ghost use Rattle.wearset.specs.OpenEmpty.{open_and_empty};

use area::SlotView;

// The bytes of the longest set.
const LONGEST: usize = 16;

// An even length from 2 to 16.
fn length_right(n: usize) -> bool
    ensures { result ≡ set_length_right n }
{
    n % 2 == 0 && (1..=LONGEST).contains(&n)
}

// Whether a cell is there, and of the kind that the place asks for: kinds are numbers, since 1 and 2 alternate along the set.
fn cell_fits(s: &[u8], place: usize, c: u8) -> bool
    requires { Good s.now }
    ensures { result ≡ cell_fits (state_in s.now) place c }
{
    c < area::count(s) && usize::from(area::cell_at(s, c).kind) == 1 + place % 2
}

// Whether the set is right: its length, its cells' kinds, and no cell twice.
pub fn set_right(s: &[u8], set: &[u8]) -> bool
    requires { Good s.now }
    ensures { result ≡ set_right (state_in s.now) set.now }
{
    if !length_right(set.len()) {
        return false;
    }
    let mut seen = [false; 64];
    for (place, c) in set.iter().enumerate() {
        if !cell_fits(s, place, *c) {
            return false;
        }
        let at = usize::from(*c);
        if seen[at] {
            return false;
        }
        seen[at] = true;
    }
    true
}

// Whether the transaction of slot `i`, counted from 0, is open with empty logs. Its phase is 1: `ways`, where phases have names, isn't below this crate.
pub fn open_and_empty(s: &[u8], i: u8) -> bool
    requires { Good s.now × (i < 8) }
    ensures { result ≡ open_and_empty (slot_at (state_in s.now) i) }
{
    let v = SlotView { area: s, index: i }.fields();
    v.phase == 1 && v.readcount == 0 && v.writecount == 0
}

// What a step counts for: the number of its transaction, and what it shows. Any numbers are taken.
#![tactic(auto)]

ghost use Rattle.std.specs.Prelude.{◌≡◌, get_or};
ghost use Rattle.tally.specs.Numbering.{no_numbers, numbers_after};
ghost use Rattle.tally.specs.Showing.{shown_by};

// What a step can show.
#[derive(Clone, Copy)]
pub enum Effect {
    Begun,
    Read,
    Reloaded,
    Committed,
    Aborted,
}

// How many transactions have begun, and the number of each slot's last one, 0 for none. A slot has the place of its own number.
#[derive(Clone, Copy)]
pub struct Numbers {
    pub begun: u64,
    pub last: [u64; Numbers::PLACES],
}

// The steps that can show something, and the outcome that ends a transaction without commit. Steps and codes are numbers here, and no `call::Step` and
// `call::Reply`: a sheet has the step as a byte, and the C interface, which the core's step is, answers the code as a number.
const BEGIN: u8 = 1;

const READ: u8 = 2;

const RELOAD: u8 = 10;

const FINISH: u8 = 12;

const GIVE_UP: u8 = 14;

const ABORTED: u64 = 13;

impl Numbers {
    pub const PLACES: usize = 9;

    // The last number that there is: the count stays there, and never wraps.
    const LAST: u64 = u64::MAX;

    pub fn none() -> Self
        ensures { result ≡ no_numbers }
    {
        Numbers {
            begun: 0,
            last: [0; Numbers::PLACES],
        }
    }

    // The number of a slot's transaction.
    pub fn of(self, slot: u8) -> u64
        ensures { result ≡ get_or self.last slot 0 }
    {
        self.last.get(usize::from(slot)).copied().unwrap_or(0)
    }

    // After a step: an accepted begin gives its slot the next number.
    pub fn after(mut self, step: u8, slot: u8, code: u64) -> Self
        ensures { result ≡ numbers_after self step slot code }
    {
        let at = usize::from(slot);
        if step == BEGIN && code == 0 && at < Numbers::PLACES && self.begun < Numbers::LAST {
            let number = self.begun + 1;
            self.last[at] = number;
            self.begun = number;
        }
        self
    }
}

// What a step shows, by its number, its code and whether a log had its cell: an accepted read that was answered from a log shows nothing.
#[tactic(auto, unfolding(crate::specs::Showing::shown_by))]
pub fn shown_by(step: u8, code: u64, logged: bool) -> Option<Effect>
    ensures { result ≡ shown_by step code logged }
{
    if code == ABORTED {
        return Some(Effect::Aborted);
    }
    if code != 0 {
        return None;
    }
    match step {
        BEGIN => Some(Effect::Begun),
        READ => (!logged).then_some(Effect::Read),
        RELOAD => Some(Effect::Reloaded),
        FINISH => Some(Effect::Committed),
        GIVE_UP => Some(Effect::Aborted),
        _ => None,
    }
}

// The fourteen steps on a lent area: a step is taken by its row, once its number and its slot are found to be right.
#![tactic(auto)]

ghost use Rattle.std.specs.Prelude.{◌≡◌, ◌<◌, ◌≤◌};
ghost use Rattle.call.specs.declared.Step.{Step};
ghost use Rattle.rules.specs.Model.{controller};
ghost use Rattle.rules.specs.Step as rule;
ghost use Rattle.area.specs.Good.{Good, state_in};
ghost use Rattle.ways.specs.Did.{Did};
ghost use Rattle.dispatch.specs.Without.{without_slot};

use call::{Decoded, Refusal, Reply, Step, Undecoded};
use ways::Phase;

// The number of slots.
const SLOTS: u8 = area::SLOTS as u8;

// A step of slot `i`, counted from 0, by its row. A match and no table of functions: each row takes what its step carries, and the match shows that none is missing.
fn row(s: &mut [u8], i: u8, step: Step) -> Reply
    requires { Good s.old × (i < 8) }
    ensures { Did (rule.row controller (state_in s.old) i step) s.old result s.new }
{
    match step {
        Step::Begin => opening::begin(s, i),
        Step::Read(cell) => opening::read(s, i, cell),
        Step::Write(cell, to) => writing::write(s, i, cell, to),
        Step::Close => opening::close(s, i),
        Step::Lock => locking::lock(s, i),
        Step::Enter => locking::enter(s, i),
        Step::Reread(cell) => twilight::reread(s, i, cell),
        Step::Update(cell, to) => writing::update(s, i, cell, to),
        Step::Ask(cell) => twilight::ask(s, i, cell),
        Step::Reload => twilight::reload(s, i),
        Step::Ignore => twilight::ignore(s, i),
        Step::Finish => ending::finish(s, i),
        Step::Publish => ending::publish(s, i),
        Step::GiveUp => ending::give_up(s, i),
    }
}

// A call of a slot that is not there. A wrong step number comes before it: the lowest code is given.
fn without_slot(d: Decoded) -> Refusal
    ensures { result ≡ without_slot d }
{
    match d {
        Err(Undecoded::Unknown) => Refusal::NoSuchStep,
        _ => Refusal::NoSuchSlot,
    }
}

// A call of a slot that is there whose numbers are no step: a write or an update without a value gets 6 in its place, and no step 2.
fn without_step(s: &[u8], slot: u8, d: Decoded) -> Reply
    requires there { Good s.now × (1 ≤ slot) × (slot ≤ 8) }
    requires none { (made : Step) → d ≡ Ok made → ⊥ }
    ensures { Did (rule.step_of controller (state_in s.now) slot d) s.now result s.now }
{
    let i = slot - 1;
    match d {
        Err(Undecoded::IllegalWrite(cell)) => writing::illegal_value(s, i, cell, Phase::Open),
        Err(Undecoded::IllegalUpdate(cell)) => writing::illegal_value(s, i, cell, Phase::Twilight),
        Err(Undecoded::Unknown) => Err(Refusal::NoSuchStep),
        Ok(_) => Err(Refusal::NoSuchStep),
    }
}

// What a decoded call makes. Wrong step and slot numbers get codes; a write or an update without a value gets 6 in its place.
pub fn step(s: &mut [u8], slot: u8, d: Decoded) -> Reply
    requires { Good s.old }
    ensures { Did (rule.step_of controller (state_in s.old) slot d) s.old result s.new }
{
    if slot == 0 || SLOTS < slot {
        return Err(without_slot(d));
    }
    let Ok(made) = d else {
        return without_step(s, slot, d);
    };
    row(s, slot - 1, made)
}

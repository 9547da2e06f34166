// What every step comes to, and the laws that the steps share (specs/ has the statements, proofs/ the proofs). And the tests that several steps share: each hands back the refusal that its
// row gives, for `?` to hand on.
#![tactic(auto)]

ghost use Rattle.std.specs.Prelude.{◌≡◌, ◌+◌, ◌<◌, MatchResult, IfOk, OnOk};
ghost use Rattle.call.specs.declared.Refusal.TheVariants.{NotAllowed};
ghost use Rattle.rules.specs.Layout.{count_in};
ghost use Rattle.rules.specs.Model.{controller};
ghost use Rattle.rules.specs.Outcome.{inside_cells, below_last_stamp};
ghost use Rattle.area.specs.Good.{Good, state_in};
ghost use Rattle.area.specs.InPlace.{phase_in, clock_now};
ghost use Rattle.ways.specs.Guard.{phase_number, InPhase, Guards};

use area::SlotView;
use call::Refusal;

// The phases of a slot, in the order of their numbers.
#[derive(Clone, Copy, PartialEq, Eq)]
pub enum Phase {
    Idle,
    Open,
    Locking,
    Twilight,
    Publishing,
}

impl Phase {
    // The phase that a slot is in.
    pub fn of(slot: SlotView) -> Phase
        ensures { phase_number result ≡ phase_in slot.entry.area.now slot.entry.index }
    {
        match slot.phase() {
            0 => Phase::Idle,
            1 => Phase::Open,
            2 => Phase::Locking,
            3 => Phase::Twilight,
            _ => Phase::Publishing,
        }
    }
}

// Code 4: the slot is in another phase than the step asks for.
pub fn in_phase(slot: SlotView, phase: Phase) -> Result<(), Refusal>
    ensures { InPhase result (phase_in slot.entry.area.now slot.entry.index) (phase_number phase) }
{
    if Phase::of(slot) == phase {
        Ok(())
    } else {
        Err(Refusal::NotAllowed)
    }
}

// Code 5: the area has no such cell.
pub fn cell_there(s: &[u8], cell: u8) -> Result<(), Refusal>
    requires { Good s.now }
    ensures row { Guards result (inside_cells (state_in s.now) cell) }
    ensures inside { OnOk result (cell < count_in s.now) }
{
    if cell < area::count(s) {
        Ok(())
    } else {
        Err(Refusal::NoSuchCell)
    }
}

// Code 12: there is no next stamp.
pub fn next_stamp(s: &[u8]) -> Result<u64, Refusal>
    requires { Good s.now }
    ensures row { Guards result (below_last_stamp controller (state_in s.now)) }
    ensures next { IfOk result (λ stamp. stamp ≡ clock_now s.now + 1) }
{
    area::clock(s).checked_add(1).ok_or(Refusal::LastStamp)
}

// The commit stamps of the slots: apart from each other.
ghost use Rattle.std.specs.Prelude.{◌≡◌, ◌<◌, get_or};
ghost use Rattle.wire.specs.Table.{tab};
ghost use Rattle.slot.specs.Logic.{every};
ghost use Rattle.rules.specs.LogsRight.{stamps_apart};
ghost use Rattle.slotcheck.specs.SlotParts.{stamp_in, stamps_right};

use crate::{SLOTS, slot_place};
use logcheck::frame::Frame;
use logcheck::{COMMIT_AT, STAMP};

// The slots' commit stamps.
fn stamps_of(area: Frame) -> [u64; SLOTS]
    ensures { result ≡ tab 8 (stamp_in area.entry.cells area.entry.bytes.now) }
{
    let mut stamps = [0; SLOTS];
    for (k, stamp) in stamps.iter_mut().enumerate() {
        *stamp = wire::get(slot_place(area, k).bytes, COMMIT_AT, STAMP);
    }
    stamps
}

// A commit stamp, 0 where there is none, and another slot's.
fn apart(k: u64, l: u64) -> bool
    ensures { result ≡ stamps_apart k l }
{
    k == 0 || k != l
}

// Whether stamp `j` differs from every earlier one that is not 0.
fn stamp_apart(stamps: [u64; SLOTS], j: usize) -> bool
    requires { j < 8 }
    ensures { result ≡ every j (λ i. stamps_apart (get_or stamps i 0) (get_or stamps j 0)) }
{
    stamps[..j].iter().all(|k| apart(*k, stamps[j]))
}

// Commit stamps apart.
pub fn stamps_apart(area: Frame) -> bool
    ensures { result ≡ stamps_right area.entry.bytes.now }
{
    let stamps = stamps_of(area);
    (0..SLOTS).all(|j| stamp_apart(stamps, j))
}

// Whether an area is well formed: the header, one pass over the slots, the commit stamps, then one pass over the cells with what is due to each.
#![tactic(auto)]

ghost use Rattle.std.specs.Prelude.{◌≡◌};
ghost use Rattle.rules.specs.Model.{controller};
ghost use Rattle.rules.specs.LogsRight.{cell_count_right};
ghost use Rattle.rules.specs.AreaRight.{well_formed};
ghost use Rattle.wellformed.specs.AreaParts.{header_right, parts_right};

use logcheck::frame::Frame;
use logcheck::{CELL, HEADER, MOST_CELLS, SLOT};
use slotcheck::SLOTS;

mod cells;
mod holders;

// The bytes of an area beside its cells.
const BESIDE: usize = HEADER + SLOTS * SLOT;

// n from 1 to 64.
fn count_right(n: usize) -> bool
    ensures { result ≡ cell_count_right controller n }
{
    (1..=MOST_CELLS).contains(&n)
}

// The lent length, the length field and the formula agree; version 1; n from 1 to 64.
fn header_right(s: &[u8]) -> bool
    ensures { result ≡ header_right s.now }
{
    if s.len() < HEADER {
        return false;
    }
    let n = usize::from(s[5]);
    if s.len() != BESIDE + CELL * n {
        return false;
    }
    if wire::get(s, 1, 4) != s.len() as u64 {
        return false;
    }
    s[0] == 1 && count_right(n)
}

// The slots and the commit stamps, past a right header.
fn parts_right(area: Frame, clock: u64) -> bool
    ensures { result ≡ parts_right clock area.entry.bytes.now }
{
    slotcheck::slots_right(area, clock) && slotcheck::stamps::stamps_apart(area)
}

// Whether the area is well formed. The slots come before the cells: what they claim is then known, and one pass asks all there is of each cell. Not inlined: by
// itself it is compiled to 3 % fewer instructions of a call.
#[inline(never)]
pub fn well_formed(s: &[u8]) -> bool
    ensures { result ≡ well_formed controller s.now }
{
    if !header_right(s) {
        return false;
    }
    let area = Frame {
        bytes: s,
        cells: usize::from(s[5]),
    };
    let clock = wire::get(s, 6, 8);
    if !parts_right(area, clock) {
        return false;
    }
    holders::cells_held(area, clock)
}

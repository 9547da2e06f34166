// The cells: kinds and words legal, stamps at most the clock, and each held by the slot that is due to it.
ghost use Rattle.std.specs.Prelude.{◌≡◌, ◌+◌, ◌≤◌, length, drop};
ghost use Rattle.rules.specs.Layout.{cell_of};
ghost use Rattle.wellformed.specs.Claims.{cell_due, cells_due};

use logcheck::frame::Frame;
use logcheck::{CELL, HEADER, MOST_CELLS, STAMP, legal_at};

// Whether the cell at `at` is right and held by the slot due to it, 0 for none.
fn cell_right(s: &[u8], at: usize, clock: u64, due: u8) -> bool
    requires { at + 14 ≤ length s.now }
    ensures { result ≡ cell_due clock due (cell_of 8 (drop at s.now)) }
{
    s[at + 1] == due && wire::get(s, at + 6, STAMP) <= clock && legal_at(s[at], s, at + 2)
}

// Every cell, with the slot that is due to it.
pub fn cells_right(area: Frame, clock: u64, due: &[u8; MOST_CELLS]) -> bool
    ensures { result ≡ cells_due clock due.now area.entry.bytes.now area.entry.cells }
{
    (0..area.cells).all(|c| cell_right(area.bytes, HEADER + CELL * c, clock, due[c]))
}

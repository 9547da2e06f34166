// What a slot's two logs say of one another: whether a marked cell is also in the write log.
#![tactic(auto)]

ghost use Rattle.std.specs.Prelude.{false, ◌≡◌, ℕ, ◌≤◌, ◌<◌, replicate};
ghost use Rattle.slot.specs.Logs.{read_log};
ghost use Rattle.packed.specs.Places.{slot_in};
ghost use Rattle.bothlogs.specs.BothLogs.{Indexed, marks_cell, marked_table, marked_written_at};

// The cells of an area are below this.
const CELLS: usize = 64;

// A number that neither is above. The greater of the two is one as well, but takes three instructions where this takes one.
fn covering(a: usize, b: usize) -> usize
    ensures { (a ≤ result) × (b ≤ result) }
{
    a | b
}

// Notes the cells that the read log of the slot at `at` has with a mark, in a table with a flag for each cell, and hands back a number that none of them is
// above. With the table one pass over each log is enough.
fn note_marked(s: &[u8], at: usize, width: usize, marked: &mut [bool; CELLS]) -> usize
    requires { Indexed width at s.now × (marked.old ≡ replicate 64 false) }
    ensures marked_after { marked.new ≡ marked_table (read_log (slot_in width at s.now)) }
    ensures by_index { (c : ℕ) → result < c → marks_cell (read_log (slot_in width at s.now)) c ≡ false }
{
    let count = usize::from(s[at + 3]);
    let mut bound = 0;
    for i in 0..count {
        let e = packed::read_at(s, at, width, i);
        if e.mark {
            let c = usize::from(e.cell);
            marked[c] = true;
            bound = covering(bound, c);
        }
    }
    bound
}

// Whether some marked cell is also in the write log of the slot at `at`. The log ascends: past a cell above the bound none is marked.
pub fn marked_written(s: &[u8], at: usize, width: usize) -> bool
    requires { Indexed width at s.now }
    ensures { result ≡ marked_written_at width at s.now }
{
    let mut marked = [false; CELLS];
    let bound = note_marked(s, at, width, &mut marked);
    let count = usize::from(s[at + 4]);
    for i in 0..count {
        let e = packed::write_at(s, at, width, i);
        let c = usize::from(e.cell);
        if bound < c {
            return false;
        }
        if marked[c] {
            return true;
        }
    }
    false
}

// The lay-out of a fresh area from descriptions.
#![tactic(auto)]

ghost use Rattle.std.specs.Prelude.{◌≡◌, ◌+◌, ◌*◌, ◌≤◌, length};
ghost use Rattle.wire.specs.Part.{splice};
ghost use Rattle.slot.specs.Layout.{slot_size};
ghost use Rattle.rules.specs.Model.{controller};
ghost use Rattle.rules.specs.Layout.{pack};
ghost use Rattle.rules.specs.Area.{described_count, described_cell, described_cells, fresh, lengths_fit};
ghost use Rattle.fresh.specs.LaidOut.{LaidOut, laid_code, refusal_code};
ghost use Rattle.fresh.specs.Parts.{described_legal, fresh_header, fresh_cells, fresh_slots};

use area::{CELL, CLOCK, COUNT, HEADER, SLOT, SLOTS, STAMP};
use rules::Cell;

// At most so many cells.
pub const MOST_CELLS: usize = 64;

// A description's bytes: kind (1), word (4).
pub const DESCRIPTION: usize = 5;

// Why no area is laid out.
#[derive(Clone, Copy)]
pub enum NotLaidOut {
    WrongLengths,
    IllegalValue,
}

impl NotLaidOut {
    // Its plain code, as of a step that is refused for the same; by a name, which a `From` would not have.
    pub fn code(self) -> u8
        ensures { result ≡ refusal_code self }
    {
        match self {
            NotLaidOut::WrongLengths => 1,
            NotLaidOut::IllegalValue => 6,
        }
    }
}

// Whether the descriptions are 5 × n bytes with n from 1 to 64, and the area has the right length.
fn lengths_fit(s: &[u8], ds: &[u8]) -> bool
    ensures { result ≡ lengths_fit controller s.now ds.now }
{
    let n = ds.len() / DESCRIPTION;
    if DESCRIPTION * n != ds.len() {
        return false;
    }
    if n < 1 {
        return false;
    }
    if MOST_CELLS < n {
        return false;
    }
    s.len() == HEADER + CELL * n + SLOT * SLOTS
}

// The cell that a description gives: free, stamp 0.
fn described(d: &[u8]) -> Cell
    requires { length d.now ≡ 5 }
    ensures { result ≡ described_cell d.now }
{
    Cell {
        kind: d[0],
        holder: 0,
        word: wire::word_at(d, 1),
        stamp: 0,
    }
}

// Whether all descriptions are legal.
pub fn all_legal(ds: &[u8]) -> bool
    ensures { result ≡ described_legal ds.now }
{
    ds.chunks_exact(DESCRIPTION).all(|d| {
        let x = described(d);
        value::legal(x.kind, x.word)
    })
}

// Puts the header of a fresh area with `n` cells.
fn put_header(s: &mut [u8], n: u8)
    requires { 14 ≤ length s.old }
    ensures { s.new ≡ splice s.old 0 (fresh_header n) }
{
    let length = HEADER + CELL * usize::from(n) + SLOT * SLOTS;
    s[0] = 1;
    wire::put(s, 1, 4, length as u64);
    s[COUNT] = n;
    wire::put(s, CLOCK, STAMP, 0);
}

// Puts the cells that are described.
fn put_described(s: &mut [u8], ds: &[u8])
    requires { 14 + 14 * described_count ds.now ≤ length s.old }
    ensures { s.new ≡ splice s.old 14 (fresh_cells (described_count ds.now) ds.now) }
{
    for (c, d) in ds.chunks_exact(DESCRIPTION).enumerate() {
        stores::put_cell(s, HEADER + CELL * c, described(d));
    }
}

// Puts the slots, all idle, at `at`.
fn put_idle(s: &mut [u8], at: usize)
    requires { at + slot_size 8 * 8 ≤ length s.old }
    ensures { s.new ≡ splice s.old at fresh_slots }
{
    for i in 0..SLOTS {
        packed::clear(s, at + SLOT * i, STAMP);
    }
}

// Writes every byte of a fresh area with the cells that are described.
fn put_fresh(s: &mut [u8], ds: &[u8])
    requires { (described_count ds.now ≤ 64) × (length s.old ≡ 1590 + 14 * described_count ds.now) }
    ensures { s.new ≡ pack controller (fresh controller (described_cells ds.now)) }
{
    let n = ds.len() / DESCRIPTION;
    put_header(s, n as u8);
    put_described(s, ds);
    put_idle(s, HEADER + CELL * n);
}

// Lays out a fresh area from descriptions of 5 bytes. Lengths come before kinds and words, and a refusal writes nothing.
pub fn lay_out(s: &mut [u8], ds: &[u8]) -> Result<(), NotLaidOut>
    ensures { LaidOut s.old ds.now (laid_code result) s.new }
{
    if !lengths_fit(s, ds) {
        return Err(NotLaidOut::WrongLengths);
    }
    if !all_legal(ds) {
        return Err(NotLaidOut::IllegalValue);
    }
    put_fresh(s, ds);
    Ok(())
}

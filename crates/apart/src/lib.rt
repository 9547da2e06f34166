// A step sheet taken apart. Any bytes are taken.
#![tactic(auto)]

ghost use Rattle.std.specs.Prelude.{◌≡◌, ◌<◌, ◌^◌, drop};
ghost use Rattle.wire.specs.Field.{be};
ghost use Rattle.apart.specs.Apart.{byte_at, step_word, pieces_of, taken_apart};

use fresh::{DESCRIPTION, MOST_CELLS};

// A good sheet's parts: how many cells it describes, where its first step stands, and how many steps it has.
#[derive(Clone, Copy)]
pub struct Parts {
    pub cells: usize,
    pub first: usize,
    pub steps: usize,
}

const VERSION: u8 = 1;

// A sheet's parts: version (1), length (2), descriptions, length (2), steps.
const DESCRIBED: usize = 1;

pub const DESCRIPTIONS: usize = 3;

// The bytes of a sheet around its descriptions and steps.
const AROUND: usize = 5;

pub const STEP: usize = 8;

const MOST_STEPS: usize = 4096;

// The byte at `at`; past the end, 0, so that nothing is asked of a sheet before it is known to be whole.
pub fn byte(s: &[u8], at: usize) -> u8
    ensures { result ≡ byte_at s.now at }
{
    s.get(at).copied().unwrap_or(0)
}

// The number in the two bytes at `at`.
fn pair(s: &[u8], at: usize) -> u16
    ensures { result ≡ be 2 (drop at s.now) }
{
    if s.len() <= at {
        return 0;
    }
    u16::from_be_bytes([byte(s, at), byte(s, at + 1)])
}

// The number in the four bytes from 4 on.
pub fn word(s: &[u8]) -> u32
    ensures { result ≡ step_word s.now }
{
    u32::from_be_bytes([byte(s, 4), byte(s, 5), byte(s, 6), byte(s, 7)])
}

// How many pieces of `piece` bytes `size` bytes are, if no byte is left over, and there are at least `least` and at most `most` of them.
fn pieces(size: usize, piece: usize, least: usize, most: usize) -> Option<usize>
    ensures { result ≡ pieces_of size piece least most }
{
    let n = size.checked_div(piece).unwrap_or(0);
    if piece * n != size || n < least || most < n {
        return None;
    }
    Some(n)
}

// Takes a sheet apart: None if it is bad.
pub fn take_apart(s: &[u8]) -> Option<Parts>
    ensures { result ≡ taken_apart s.now }
{
    let described = usize::from(pair(s, DESCRIBED));
    let stepped = usize::from(pair(s, DESCRIPTIONS + described));
    if byte(s, 0) != VERSION {
        return None;
    }
    if s.len() != AROUND + described + stepped {
        return None;
    }
    let cells = pieces(described, DESCRIPTION, 1, MOST_CELLS)?;
    let steps = pieces(stepped, STEP, 0, MOST_STEPS)?;
    if !fresh::all_legal(&s[DESCRIPTIONS..DESCRIPTIONS + described]) {
        return None;
    }
    Some(Parts {
        cells,
        first: AROUND + described,
        steps,
    })
}

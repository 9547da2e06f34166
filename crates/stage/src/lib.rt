// What the programs that run a step sheet share: its area laid out, one step made from its 8 bytes, what a bad sheet prints, and the run itself. Any bytes are taken, and any areas.
#![tactic(auto)]

ghost use Rattle.std.specs.Prelude.{List, ℕ};
ghost use Rattle.line.specs.Gather.{Leaves, gathered, added};
ghost use Rattle.crocktendril.specs.Contract.{Stepped};
ghost use Rattle.stage.specs.Calls.{call_of};
ghost use Rattle.stage.specs.First.{bad_sheet};
ghost use Rattle.stage.specs.SetUp.{SetUp};
ghost use Rattle.stage.specs.RunBy.{RunBy};

use area::{CELL, HEADER};

// The area or the buffer is too short.
#[derive(Clone, Copy)]
pub struct TooShort;

// A good sheet's area is laid out in the first `length` bytes, and its steps are the bytes `first` to `end`.
#[derive(Clone, Copy)]
pub struct Ready {
    pub length: usize,
    pub first: usize,
    pub end: usize,
}

// The sheet is bad, or the area too short.
#[derive(Clone, Copy)]
pub enum Unready {
    Bad,
    Short,
}

// The bytes of all slots of an area.
const ALL_SLOTS: usize = area::SLOT * area::SLOTS;

// The longest area.
pub const MOST_AREA: usize = 2486;

// A good sheet has at most 33,093 bytes: one that fills the buffer is too long, and seen to be bad.
pub const MOST_INPUT: usize = 33100;

// Makes the step that a sheet's 8 bytes say.
pub fn make_step(area: &mut [u8], step: &[u8]) -> u64
    ensures { Stepped area.old (call_of step.now) result area.new }
{
    let word = apart::word(step);
    crocktendril::crocktendril_step(
        area,
        apart::byte(step, 0),
        apart::byte(step, 1),
        apart::byte(step, 2),
        apart::byte(step, 3),
        word,
    )
}

// Takes a sheet apart and lays its area out at the front of `area`. The lay-out's answer is not looked at: it is 0 for the parts of a good sheet.
pub fn set_up(sheet: &[u8], area: &mut [u8]) -> Result<Ready, Unready>
    ensures { SetUp sheet.now area.old result area.new }
{
    if area.len() < MOST_AREA {
        return Err(Unready::Short);
    }
    let parts = apart::take_apart(sheet).ok_or(Unready::Bad)?;
    let described = apart::DESCRIPTIONS + fresh::DESCRIPTION * parts.cells;
    let length = HEADER + CELL * parts.cells + ALL_SLOTS;
    let end = parts.first + apart::STEP * parts.steps;
    crocktendril::crocktendril_lay_out(&mut area[..length], &sheet[apart::DESCRIPTIONS..described]);
    Ok(Ready {
        length,
        first: parts.first,
        end,
    })
}

// What a bad sheet prints, at the front of `out`. Answers where it ends.
pub fn bad_sheet(out: &mut [u8]) -> usize
    ensures { Leaves (added (gathered 0 out.old) bad_sheet) result out.new }
{
    line::put_bytes(out, 0, b"bad sheet\n").unwrap_or(0)
}

// What makes the steps of a good sheet on its area, and puts what there is to print at the front of a buffer. Answers where it ends. It is a trait, whose function may always
// be called: of a closure `run` would have to ask that.
pub trait Maker {
    ghost makes: { Self → List ℕ → List ℕ → List ℕ → ℕ → List ℕ → List ℕ → Type 0 };

    fn make(self, steps: &[u8], area: &mut [u8], out: &mut [u8]) -> usize
        ensures { makes self steps.now area.old out.old result area.new out.new };
}

// Runs a sheet with room for `most` bytes of output. Of a good sheet `maker` makes the steps on the area that is laid out, puts what there is to print at
// the front of the buffer, and answers where it ends. With too little room nothing is done.
pub fn run<M: Maker + Drop>(
    sheet: &[u8],
    area: &mut [u8],
    out: &mut [u8],
    most: usize,
    maker: M,
) -> Result<usize, TooShort>
    ensures { RunBy (M.makes maker) most sheet.now area.old out.old result area.new out.new }
{
    if out.len() < most {
        return Err(TooShort);
    }
    match set_up(sheet, area) {
        Ok(Ready { length, first, end }) => {
            Ok(maker.make(&sheet[first..end], &mut area[..length], out))
        }
        Err(Unready::Bad) => Ok(bad_sheet(out)),
        Err(Unready::Short) => Err(TooShort),
    }
}

// The run of a step sheet: lay out, make the steps in order, print. Any bytes are taken, and any buffers.
#![tactic(auto)]

ghost use Rattle.line.specs.Gather.{Writes, written};
ghost use Rattle.sheet.specs.Parts.{state_added, StepsMade, StepsRun};
ghost use Rattle.sheet.specs.Whole.{SheetRun};

use area::{CELL, CLOCK, COUNT, HEADER};
use line::Out;
use stage::{Maker, TooShort};

// Room for the longest output: a step's line has at most 19 bytes, a cell's 46, the clock's 27.
pub const MOST_OUTPUT: usize = 80795;

// Makes all steps in order, and puts a line for each.
fn make_steps(steps: &[u8], area: &mut [u8], out: &mut Out)
    ensures { StepsMade steps.now area.old out.old area.new out.new }
{
    for (k, step) in steps.chunks_exact(apart::STEP).enumerate() {
        let answer = stage::make_step(area, step);
        out.reply(k as u64 + 1, answer);
    }
}

// Puts a line for each cell and one for the clock. An area that is too short for its cells, which no run leaves, gets none.
fn put_state(area: &[u8], out: &mut Out)
    ensures { Writes out.old (state_added area.now (written out.old)) out.new }
{
    if area.len() < HEADER {
        return;
    }
    let n = area[COUNT];
    if area.len() < HEADER + CELL * usize::from(n) {
        return;
    }
    for c in 0..n {
        let place = HEADER + CELL * usize::from(c);
        let word = wire::word_at(area, place + 2);
        let stamp = wire::get(area, place + 6, 8);
        out.cell(c, area[place], word, stamp, area[place + 1]);
    }
    out.clock(wire::get(area, CLOCK, 8));
}

// Runs steps on an area that is laid out, and prints. Answers where the output ends.
fn run_steps(steps: &[u8], area: &mut [u8], out: &mut [u8]) -> usize
    ensures { StepsRun steps.now area.old out.old result area.new out.new }
{
    let mut out = Out { bytes: out, end: 0 };
    make_steps(steps, area, &mut out);
    put_state(area, &mut out);
    out.end
}

// The steps of a sheet run, and all their lines printed.
#[derive(Drop)]
struct Lines;

impl Maker for Lines {
    ghost makes = { λ _. StepsRun };

    fn make(self, steps: &[u8], area: &mut [u8], out: &mut [u8]) -> usize {
        run_steps(steps, area, out)
    }
}

// Runs a sheet: its output stands at the front of `out`, and its area at the front of `area`.
pub fn run_sheet(sheet: &[u8], area: &mut [u8], out: &mut [u8]) -> Result<usize, TooShort>
    ensures { SheetRun sheet.now area.old out.old result area.new out.new }
{
    stage::run(sheet, area, out, MOST_OUTPUT, Lines)
}

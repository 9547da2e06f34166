// The effects of a step sheet's run, a line each. Any bytes are taken, and any buffers.
#![tactic(auto)]

ghost use Rattle.stage.specs.Calls.{call_of};
ghost use Rattle.effects.specs.Steps.{StepTraced, StepsTraced, AllTraced};
ghost use Rattle.effects.specs.Traced.{SheetTraced};

use line::Out;
use stage::{Maker, TooShort};
use tally::Numbers;

// Room for the longest trace: 12 bytes for each of 4,096 steps.
pub const MOST_TRACE: usize = 49152;

// Makes the step that 8 bytes say, and puts the line of its effect. Answers the numbers after it.
fn trace_step(area: &mut [u8], bytes: &[u8], numbers: Numbers, out: &mut Out) -> Numbers
    ensures { StepTraced area.old (call_of bytes.now) numbers out.old result area.new out.new }
{
    let step = apart::byte(bytes, 0);
    let slot = apart::byte(bytes, 1);
    let cell = apart::byte(bytes, 2);
    let before = telling::look(area, slot, cell);
    let code = stage::make_step(area, bytes) / line::CODE;
    let after = numbers.after(step, slot, code);
    telling::put_line(out, before, step, code, slot, after.of(slot), cell);
    after
}

// Makes all steps in order, and puts the lines of their effects.
fn trace_steps(steps: &[u8], area: &mut [u8], out: &mut Out)
    ensures { StepsTraced steps.now area.old out.old area.new out.new }
{
    let mut numbers = Numbers::none();
    for step in steps.chunks_exact(apart::STEP) {
        numbers = trace_step(area, step, numbers, out);
    }
}

// Traces steps on an area that is laid out, and puts the lines at the front of `out`. Answers where they end.
fn trace_all(steps: &[u8], area: &mut [u8], out: &mut [u8]) -> usize
    ensures { AllTraced steps.now area.old out.old result area.new out.new }
{
    let mut out = Out { bytes: out, end: 0 };
    trace_steps(steps, area, &mut out);
    out.end
}

// The steps of a sheet traced.
#[derive(Drop)]
struct Effects;

impl Maker for Effects {
    ghost makes = { λ _. AllTraced };

    fn make(self, steps: &[u8], area: &mut [u8], out: &mut [u8]) -> usize {
        trace_all(steps, area, out)
    }
}

// Runs a sheet: its trace stands at the front of `out`, and its area at the front of `area`.
pub fn trace_sheet(sheet: &[u8], area: &mut [u8], out: &mut [u8]) -> Result<usize, TooShort>
    ensures { SheetTraced sheet.now area.old out.old result area.new out.new }
{
    stage::run(sheet, area, out, MOST_TRACE, Effects)
}

// Runs the step sheet on standard input, and writes its effects to standard output, a line each.
#![tactic(auto)]

ghost use Rattle.effects.specs.Traced.{SheetTraced};

use stage::TooShort;
use std::io;

// What it prints, of any input: the effects of the sheet's run.
#[derive(Drop)]
struct Trace;

impl intake::Maker<TooShort> for Trace {
    ghost makes = { λ _. SheetTraced };

    fn make(self, input: &[u8], room: &mut [u8], out: &mut [u8]) -> Result<usize, TooShort> {
        effects::trace_sheet(input, room, out)
    }
}

fn main(rt: HostRuntime) -> io::Result<()> {
    let mut input = [0u8; stage::MOST_INPUT];
    let mut area = [0u8; stage::MOST_AREA];
    let mut out = [0u8; effects::MOST_TRACE];
    intake::pass(
        &mut rt.stdin(),
        &mut io::writer(&rt),
        &mut input,
        &mut area,
        &mut out,
        Trace,
    )
}

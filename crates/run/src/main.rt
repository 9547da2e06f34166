// Runs the step sheet on standard input, and writes what it prints to standard output.
#![tactic(auto)]

ghost use Rattle.sheet.specs.Whole.{SheetRun};

use stage::TooShort;
use std::io;

// What it prints, of any input: what a run of the sheet does.
#[derive(Drop)]
struct Run;

impl intake::Maker<TooShort> for Run {
    ghost makes = { λ _. SheetRun };

    fn make(self, input: &[u8], room: &mut [u8], out: &mut [u8]) -> Result<usize, TooShort> {
        sheet::run_sheet(input, room, out)
    }
}

fn main(rt: HostRuntime) -> io::Result<()> {
    let mut input = [0u8; stage::MOST_INPUT];
    let mut area = [0u8; stage::MOST_AREA];
    let mut out = [0u8; sheet::MOST_OUTPUT];
    intake::pass(
        &mut rt.stdin(),
        &mut io::writer(&rt),
        &mut input,
        &mut area,
        &mut out,
        Run,
    )
}

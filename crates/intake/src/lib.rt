// Input, read to its end or as far as a buffer goes, and what is made of it, written.
#![tactic(auto)]

ghost use Rattle.std.specs.Prelude.{List, ℕ, ◌≡◌, ◌≤◌, length, take, Result, IfOk, OnOk, OnErr, MatchResult};
ghost use Rattle.std.specs.Io.KnownBytes.{Appends};

use std::io;
use std::io::{Read, Write};

// Reads until the input ends or the buffer is full, and says how many bytes there are. An error is the reader's own, handed on: what came before it
// stands in the buffer, which is as long as it was.
pub fn read_full<R: Read>(from: &mut R, buf: &mut [u8]) -> io::Result<usize>
    ensures count { IfOk result (λ n. n ≤ length buf.new) }
    ensures err { OnErr result (length buf.new ≡ length buf.old) }
{
    let mut done = 0;
    // a while: how far a turn gets is the reader's to say
    while done < buf.len() {
        let n = from.read(&mut buf[done..])?;
        if n == 0 {
            break;
        }
        done += n;
    }
    Ok(done)
}

// What a program makes of its input: with `room` to work in it puts a text at the front of `out` and answers where it ends, or why there is none. It is a trait, whose
// function may always be called: of a closure `pass` would have to ask that.
pub trait Maker<E> {
    ghost makes: { Self → List ℕ → List ℕ → List ℕ → Result ℕ E → List ℕ → List ℕ → Type 0 };

    fn make(self, input: &[u8], room: &mut [u8], out: &mut [u8]) -> Result<usize, E>
        ensures made { makes self input.now room.old out.old result room.new out.new }
        ensures within { IfOk result (λ n. n ≤ length out.new) };
}

// Reads an input into `input`, and has `maker` put what is made of it at the front of `out`, with `room` to work in. What it says stands there is written
// to `to`; of an error of the maker nothing is.
pub fn pass<R: Read, W: Write, E: Drop, M: Maker<E> + Drop>(
    from: &mut R,
    to: &mut W,
    input: &mut [u8],
    room: &mut [u8],
    out: &mut [u8],
    maker: M,
) -> io::Result<()>
    ensures { OnOk result ((count : ℕ) × (made : Result ℕ E) × M.makes maker (take count input.new) room.old out.old made room.new out.new
        × MatchResult made (λ n. Appends (W.contents to.old) (W.contents to.new) (take n out.new)) (λ e. to.new ≡ to.old)) }
{
    let count = read_full(from, input)?;
    match maker.make(&input[..count], room, out) {
        Ok(end) => to.write_all(&out[..end]),
        Err(_) => Ok(()),
    }
}

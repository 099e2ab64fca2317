#![tactic(auto)]

ghost use Rattle.std.specs.Prelude.{◌≤◌, length, IfOk};

use std::io;
use std::io::{ErrorKind, Read};
use zone_report::print_text;

// One byte more than a plan text may have, so that a longer one is seen to be too long.
const MOST: usize = 16_385;

// Reads a plan text from standard input and prints the zones of every state that can still reach a goal, with how many crossings that takes.
fn main(rt: HostRuntime) -> anyhow::Result<()> {
    let mut text = [0; MOST];
    let length = fill(&mut rt.stdin(), &mut text)?;
    print_text(&rt, &text[..length])?;
    Ok(())
}

// Fills the buffer until it is full or the input ends, and answers how many bytes were read; an interrupted read is tried again.
// Into an array and not a `Vec`, so that a plan is read where no memory is left too.
fn fill<R: Read>(input: &mut R, buffer: &mut [u8]) -> io::Result<usize>
    ensures { IfOk result (λ n. n ≤ length buffer.old) }
{
    let mut length = 0;
    // A `while` would have to be proved to end.
    for _ in 0..u64::MAX {
        if length >= buffer.len() {
            break;
        }
        let count = match input.read(&mut buffer[length..]) {
            Err(why) if why.kind() == ErrorKind::Interrupted => continue,
            read => read?,
        };
        if count == 0 {
            break;
        }
        length += count;
    }
    Ok(length)
}

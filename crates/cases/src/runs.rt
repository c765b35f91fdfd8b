// Runs of the engine: a base file with a list of steps, and a single step on a line record made up from the line that they lead to.
// The lent buffers are filled with bytes that are no code, so that what is left alone shows.
use crate::changes::altered;
use crate::numbers::Numbers;
use crate::text::{Hex, Told};
use std::io;

// Room for the answers to each list of steps of a corpus.
const ROOM: usize = 4096;

// A byte that is no code.
const UNUSED: u8 = 0x77;

// A run with a buffer one byte longer than the answers and, where there are answers, one with a buffer one byte too short.
pub(crate) fn put_runs(rt: &impl Print, file: &[u8], steps: &[u8]) -> io::Result<()> {
    let count = steps.len().div_ceil(3);
    if count < ROOM {
        put_run(rt, file, steps, &mut [UNUSED; ROOM][..count + 1])?;
        if count > 0 {
            print!(rt; " ")?;
            put_run(rt, file, steps, &mut [UNUSED; ROOM][..count - 1])?;
        }
    }
    println!(rt)
}

// A run's refusal, the whole lent buffer after it, and the line's numbers, of which a refused run has none.
fn put_run(rt: &impl Print, file: &[u8], steps: &[u8], buffer: &mut [u8]) -> io::Result<()> {
    let ran = engine::run(file, steps, buffer);
    print!(rt; "{}:{} ", Told(&ran), Hex(buffer))?;
    match ran {
        Ok(line) => print!(rt; "{}", Numbers(&line)),
        Err(_) => print!(rt; ":"),
    }
}

// One step on the line that some steps lead to, with changes; on an empty line where the run is refused. `made` has the number of the
// changes, the changes of four bytes each, and the step.
pub(crate) fn put_made_up(
    rt: &impl Print,
    file: &[u8],
    steps: &[u8],
    made: &[u8],
) -> io::Result<()> {
    let ran = engine::run(file, steps, &mut [UNUSED; ROOM]);
    let start = ran.unwrap_or_default();
    let (line, [kind, train, more]) = match made {
        [_, changes @ .., kind, train, more] => (altered(start, changes), [*kind, *train, *more]),
        _ => (start, [0; 3]),
    };
    let outcome = engine::step(line, kind, train, more);
    println!(rt; "{} {}", outcome.code, Numbers(&outcome.line))
}

// The records of a corpus: a whole file, which becomes the base file; a front part of the base file; the base file with one byte
// changed; a list of steps for the base file; a single step on a made-up line. Bytes that are no record end the corpus.
ghost use Rattle.std.specs.Prelude.{length};
ghost use Rattle.std.specs.Iterator.{at_most};

use crate::answers::{decide, decide_changed};
use crate::parts::{behind, byte, front};
use crate::runs::{put_made_up, put_runs};
use std::io;

#[derive(Clone, Copy)]
enum Record<'a> {
    // The file.
    File(&'a [u8]),
    // How many bytes of the base file.
    Front(usize),
    // The index of the byte and its value.
    Changed(usize, u8),
    // The steps, three bytes each.
    Steps(&'a [u8]),
    // How many bytes of the last list of steps lead to the line, and what is made of it.
    MadeUp(usize, &'a [u8]),
}

// Decides the records one after the other.
pub(crate) fn decide_all(rt: &impl Print, corpus: &[u8]) -> io::Result<()> {
    let mut file: &[u8] = &[];
    let mut steps: &[u8] = &[];
    for record in (Records { rest: corpus }) {
        match record {
            Record::File(bytes) => {
                file = bytes;
                steps = &[];
                decide(rt, file)?;
            }
            Record::Front(size) => decide(rt, front(file, size))?,
            Record::Changed(index, value) => decide_changed(rt, file, index, value)?,
            Record::Steps(bytes) => {
                steps = bytes;
                put_runs(rt, file, steps)?;
            }
            Record::MadeUp(size, made) => put_made_up(rt, file, front(steps, size), made)?,
        }
    }
    Ok(())
}

// The records that begin a corpus, up to the first bytes that are none.
#[derive(Drop)]
struct Records<'a> {
    rest: &'a [u8],
}

impl<'a> Iterator for Records<'a> {
    type Item = Record<'a>;

    ghost remaining = { λ s. at_most (length s.rest.now) };

    // A record is its kind, a number of two bytes, the high byte first, and what belongs to them. Of one that is cut off, a byte of the
    // number is 0, and what belongs to it is empty.
    fn next(&mut self) -> Option<Record<'a>> {
        let (kind, rest) = self.rest.split_first()?;
        let number = usize::from(u16::from_be_bytes([byte(rest, 0), byte(rest, 1)]));
        let rest = behind(rest, 2);
        let size = match kind {
            b'F' | b'S' => number,
            b'P' => 0,
            b'C' => 1,
            b'M' => 4 + 4 * usize::from(byte(rest, 0)),
            _ => return None,
        };
        let bytes = front(rest, size);
        self.rest = behind(rest, size);
        Some(match kind {
            b'F' => Record::File(bytes),
            b'P' => Record::Front(number),
            b'C' => Record::Changed(number, byte(bytes, 0)),
            b'S' => Record::Steps(bytes),
            _ => Record::MadeUp(number, bytes),
        })
    }
}

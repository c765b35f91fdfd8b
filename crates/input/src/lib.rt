// What a program reads into memory of its own.
#![tactic(auto)]

ghost use Rattle.std.specs.Prelude.{◌≡◌, ◌≤◌, length, take, IfSome, OnOk};
ghost use Rattle.std.specs.Io.KnownBytes.{Consumes};

use std::io;
use std::io::Read;

// Reads until the buffer is full, the reader ends or a read fails. Answers how many bytes it put at the front of the buffer, and the
// error of the read that failed: where none did, they are all that the reader had, as far as there is room.
pub fn fill<R: Read, const N: usize>(
    reader: &mut R,
    buffer: &mut [u8; N],
) -> (usize, io::Result<()>)
    ensures within { result.0 ≤ N }
    ensures bytes { Consumes (R.remaining reader.old) (R.remaining reader.new) (take result.0 buffer.new) }
    ensures front { OnOk result.1 (IfSome (R.remaining reader.old) (λ xs. take result.0 buffer.new ≡ take N xs)) }
{
    // As a slice, of which a part can be lent.
    let room = &mut buffer[..];
    let mut done = 0;
    // A read gives as many bytes as it likes: no number is gone through.
    while done < room.len() {
        match reader.read(&mut room[done..]) {
            Ok(0) => return (done, Ok(())),
            Ok(more) => done += more,
            Err(e) => return (done, Err(e)),
        }
    }
    (done, Ok(()))
}

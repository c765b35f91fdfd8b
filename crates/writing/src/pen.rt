// A lent buffer and the place in it up to which it is written. `put` writes all bytes or none, where std's writers on a slice write some.
ghost use Rattle.std.specs.Prelude.{◌≡◌, ◌+◌, ◌<◌, ◌≤◌, length};
ghost use Rattle.std.proofs.lemmas.List.Edits.{sets};
ghost use Rattle.writing.specs.Written.{HasRoom, Written};

#[derive(Drop)]
pub struct Pen<'a> {
    pub buffer: &'a mut [u8],
    pub at: usize,
}

impl<'a> Pen<'a> {
    // At the front of a buffer.
    pub fn new(buffer: &'a mut [u8]) -> Pen<'a>
        ensures front { result.at ≡ 0 }
        ensures bytes { result.buffer.now ≡ buffer.old }
        ensures same { result.buffer.ghost_name ≡ buffer.entry.ghost_name }
    {
        Pen { buffer, at: 0 }
    }

    // Bytes after those that are written; where there is no room for all of them, none.
    pub fn put(&mut self, bytes: &[u8])
        ensures written { HasRoom self.old (length bytes.now) → Written self.old bytes.now self.new }
        ensures kept { length self.old.buffer.now < self.old.at + length bytes.now → self.new ≡ self.old }
    {
        let end = self.at.saturating_add(bytes.len());
        if end <= self.buffer.len() {
            store(self.buffer, self.at, bytes);
            self.at = end;
        }
    }
}

// Stores bytes from a place of the buffer on. It is no `copy_from_slice`, which calls `memmove`: of the C library `lineengine` needs `memcpy`
// and `memset` alone.
fn store(buffer: &mut [u8], at: usize, bytes: &[u8])
    requires { at + length bytes.now ≤ length buffer.old }
    ensures { buffer.new ≡ sets buffer.old at bytes.now }
{
    for (i, byte) in bytes.iter().enumerate() {
        buffer[at + i] = *byte;
    }
}

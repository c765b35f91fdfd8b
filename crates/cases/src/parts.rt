// Bytes and parts of a slice, for every place: what is not there is 0, or an empty part.
ghost use Rattle.std.specs.Prelude.{◌≤◌, length};

// The byte at a place.
pub(crate) fn byte(bytes: &[u8], at: usize) -> u8 {
    bytes.get(at).copied().unwrap_or(0)
}

// So many bytes from the front on.
pub(crate) fn front(bytes: &[u8], size: usize) -> &[u8] {
    bytes.get(..size).unwrap_or(&[])
}

// The bytes behind so many.
pub(crate) fn behind(bytes: &[u8], size: usize) -> &[u8]
    ensures { length result.now ≤ length bytes.now }
{
    bytes.get(size..).unwrap_or(&[])
}

// The head of a table file: codes 1 to 5, and the table of a file that they let through.
ghost use Rattle.std.specs.Prelude.{◌≡◌, ◌≤◌, length, IfOk};
ghost use Rattle.rules.specs.Placing.{without_place};
ghost use Rattle.rules.specs.File.{marked, version_in, segment_size, segment_count, box_count, train_count, decode};
ghost use Rattle.rules.specs.Errors.{refused};
ghost use Rattle.tablefile.specs.Whole.{early_code, table_in};

use crate::reader;
use rules::{FileError, Table};

// The numbers of a file's head. Whoever asks for them has asked for 8 bytes in `read_head`.
#[derive(Clone, Copy)]
pub(crate) struct Head {
    pub(crate) version: u16,
    pub(crate) n: u8,
    pub(crate) m: u8,
    pub(crate) k: u8,
}

impl Head {
    // The head of a file that is long enough to have one; its version has the high byte first.
    #[tactic(auto, unfolding(rules::specs::File::version_in, rules::specs::File::segment_count, rules::specs::File::box_count, rules::specs::File::train_count, rules::specs::File::byte_at))]
    pub(crate) fn of(bytes: &[u8]) -> Self
        requires { 8 ≤ length bytes.now }
        ensures version { result.version ≡ version_in bytes.now }
        ensures segments { result.n ≡ segment_count bytes.now }
        ensures boxes { result.m ≡ box_count bytes.now }
        ensures trains { result.k ≡ train_count bytes.now }
    {
        Self {
            version: u16::from_be_bytes([bytes[3], bytes[4]]),
            n: bytes[5],
            m: bytes[6],
            k: bytes[7],
        }
    }

    // The bytes of a segment record.
    pub(crate) fn segment_size(self) -> u8
        ensures { result ≡ segment_size self.version }
    {
        layout::segment_size(self.version)
    }
}

// The file's mark stands at its beginning.
#[tactic(auto, unfolding(rules::specs::File::marked, rules::specs::File::byte_at))]
fn marked(bytes: &[u8]) -> bool
    requires { 8 ≤ length bytes.now }
    ensures { result ≡ marked bytes.now }
{
    bytes.starts_with(b"NET")
}

// Codes 1 to 5 of a file, and the table record of one that they let through.
#[tactic(auto, using(crate::proofs::Codes::codes))]
pub fn read_head(bytes: &[u8]) -> Result<Table, FileError>
    ensures refusal { refused result ≡ without_place (early_code bytes.now) }
    ensures table { IfOk result (λ t. t ≡ decode bytes.now) }
{
    if bytes.len() < 8 {
        return Err(FileError::TooShort);
    }
    if !marked(bytes) {
        return Err(FileError::NoMark);
    }
    let head = Head::of(bytes);
    layout::check_head(head.version, head.n, head.m, head.k)?;
    if !reader::ends_with_trains(bytes) {
        return Err(FileError::WrongLength);
    }
    Ok(reader::table(bytes))
}

// The table record of a file that codes 1 to 5 let through, else the empty one.
pub fn table(bytes: &[u8]) -> Table
    ensures { result ≡ table_in bytes.now }
{
    read_head(bytes).unwrap_or_default()
}

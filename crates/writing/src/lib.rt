// The writer: a table record to the bytes of its file, in a lent buffer, by the definitions `write_refusal` and `written` of `rules`.
#![tactic(auto)]

mod pen;
mod records;

ghost use Rattle.std.specs.Prelude.{◌≡◌, ◌≤◌, length, sum_by};
ghost use Rattle.rules.specs.Errors.{refused};
ghost use Rattle.rules.specs.File.{encode, write_refusal, written};

pub use pen::Pen;
use rules::{FileError, Table, TrainPlan};

// How many bytes the routes of these trains have.
fn route_bytes(plans: &[TrainPlan]) -> u16
    requires { length plans.now ≤ 16 }
    ensures { result ≡ sum_by (λ p. p.length) plans.now }
{
    plans.iter().map(|p| u16::from(p.length)).sum()
}

// The length of the file of a table record.
pub fn file_size(table: &Table) -> usize
    ensures { result ≡ length (encode table.now) }
{
    let k = usize::from(table.k);
    let width = usize::from(layout::segment_size(table.version));
    8 + width * usize::from(table.n)
        + 5 * usize::from(table.m)
        + 2 * k
        + usize::from(route_bytes(&table.trains[..k.min(16)]))
}

// The writer: refused as the table is, then with 26; on success the file at the front of the buffer, else the buffer as it was.
#[tactic(auto, using(rules::proofs::Coded::file_coded, crate::proofs::Laws::bounded, crate::proofs::Laws::table_refused, crate::proofs::Laws::short_refused, crate::proofs::Laws::none_refused, crate::proofs::Laws::buffer_kept, crate::proofs::Laws::file_written))]
pub fn write(table: &Table, buffer: &mut [u8]) -> Result<(), FileError>
    ensures value { refused result ≡ write_refusal table.now buffer.old }
    ensures buffer_after { buffer.new ≡ written table.now buffer.old }
{
    layout::check_table(table)?;
    if buffer.len() < file_size(table) {
        return Err(FileError::NoRoom);
    }
    let mut pen = Pen::new(buffer);
    records::put_file(table, &mut pen);
    Ok(())
}

// A table file: why it is refused, by codes 1 to 12, 28 and 32, its table record, and the routes of its trains as parts of it.
#![tactic(auto)]

pub mod head;
mod reader;
mod records;

ghost use Rattle.std.specs.Prelude.{◌≡◌, IfOk};
ghost use Rattle.rules.specs.File.{file_refusal, decode, route_refusal, route_part, route_from};
ghost use Rattle.rules.specs.Errors.{refused};
ghost use Rattle.tablefile.specs.Part.{pointer_after};

use rules::{FileError, Table};

// What codes 1 to 12, 28 and 32 decide of a file.
#[tactic(auto, using(crate::proofs::Files::files))]
pub fn read_table(bytes: &[u8]) -> Result<Table, FileError>
    ensures refusal { refused result ≡ file_refusal bytes.now }
    ensures table { IfOk result (λ t. t ≡ decode bytes.now) }
{
    let table = head::read_head(bytes)?;
    layout::check_table(&table)?;
    Ok(table)
}

// The route of the train with this number as a part of the lent file, in the file's own memory, or why it is refused: as the file is,
// then with 14.
#[tactic(auto, using(crate::proofs::Files::routes), unfolding(rules::specs::File::route_refusal))]
pub fn route(bytes: &[u8], number: u8) -> Result<&[u8], FileError>
    ensures refusal { refused result ≡ route_refusal bytes.now number }
    ensures ref_ptr_value { IfOk result (λ part. part.ref_ptr ≡ pointer_after bytes.entry.ref_ptr (route_from bytes.now number)) }
    ensures result_value { IfOk result (λ part. part.now ≡ route_part bytes.now number) }
{
    let table = read_table(bytes)?;
    if network::outside(table.k, number) {
        return Err(FileError::NoSuchTrain);
    }
    Ok(reader::route(bytes, number))
}

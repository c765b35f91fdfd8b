// The reader: the bytes of a table file to the line at its start, or why the file is refused, by codes 1 to 12, 28 and 32.
#![tactic(auto)]

mod start;

ghost use Rattle.std.specs.Prelude.{◌≡◌};
ghost use Rattle.rules.specs.Line.{read};
ghost use Rattle.rules.specs.Errors.{outcome};

use columns::Columns;
use rules::{FileError, Line};
use tablefile::head;

// The reader: why a file is refused, by codes 1 to 12, 28 and 32 in their order, or the line at its start.
#[tactic(auto, using(crate::proofs::Accepted::counted, crate::proofs::Accepted::read_early, crate::proofs::Accepted::read_late, crate::proofs::Accepted::read_accepted))]
pub fn read(bytes: &[u8]) -> Result<Line, FileError>
    ensures { outcome result ≡ read bytes.now }
{
    let table = head::read_head(bytes)?;
    let columns = Columns::of(&table);
    layout::check_parts(&table, &columns)?;
    Ok(Line {
        boxes: start::boxes(&table, &columns),
        trains: start::trains(table.k, &table.trains),
        routes: table.routes,
        table,
    })
}

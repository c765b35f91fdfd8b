// A run of a table file and all its steps: the reader, then the steps one after the other.
#![tactic(auto)]

mod steps;

ghost use Rattle.std.specs.Prelude.{◌≡◌, ◌+◌, ◌/◌};
ghost use Rattle.rules.specs.Errors.{outcome};
ghost use Rattle.rules.specs.Run.{Ran};

use rules::{FileError, Line};

// How many steps so many bytes are, a last one of one or two bytes among them.
pub fn count(bytes: usize) -> usize
    ensures { result ≡ (bytes + 2) / 3 }
{
    bytes.div_ceil(3)
}

// Runs a table file and all its steps, three bytes each: reads the table, takes every step, and puts the codes into the lent
// buffer.
#[tactic(auto, using(crate::proofs::Runs::read_sound), unfolding(rules::specs::Run::step_count))]
pub fn run(file: &[u8], steps: &[u8], answers: &mut [u8]) -> Result<Line, FileError>
    ensures { Ran file.now steps.now answers.old (outcome result) answers.new }
{
    let line = reading::read(file)?;
    if answers.len() < count(steps.len()) {
        return Err(FileError::NoRoom);
    }
    Ok(steps::advance(line, steps, answers))
}

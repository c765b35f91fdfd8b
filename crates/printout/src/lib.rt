// The text that the program prints, built in lent memory, by the definitions of `rules` (specs/Printout.antt).
#![tactic(auto)]

mod lines;

ghost use Rattle.std.specs.Prelude.{◌≡◌, IfOk};
ghost use Rattle.rules.specs.Errors.{refused};
ghost use Rattle.rules.specs.Printout.{print_code, print_length, printed_text, printed_answers};

use rules::FileError;
use writing::Pen;

// The most bytes that are taken: those of 65,535 steps.
const MOST_BYTES: usize = 196605;

// The text of a table file and an input, at the front of a lent buffer, and the answers to the steps in another: the text's length. Where
// one of them is too short both are as they were.
pub fn print(
    file: &[u8],
    input: &[u8],
    answers: &mut [u8],
    text: &mut [u8],
) -> Result<usize, FileError>
    ensures code_value { (refused result).code ≡ print_code input.now answers.old text.old }
    ensures length_value { IfOk result (λ n. n ≡ print_length file.now input.now answers.old text.old) }
    ensures text_after { text.new ≡ printed_text file.now input.now answers.old text.old }
    ensures answers_after { answers.new ≡ printed_answers file.now input.now answers.old text.old }
{
    let taken = &input[..input.len().min(MOST_BYTES)];
    let count = taken.len().div_ceil(3);
    if answers.len() < count || text.len() < 18 * (count + 113) {
        return Err(FileError::NoRoom);
    }
    let mut pen = Pen::new(text);
    match engine::run(file, taken, answers) {
        Err(error) => lines::put_file_line(error, &mut pen),
        Ok(line) => {
            let more = taken.len() < input.len();
            lines::put_run(&line, taken, &answers[..count], more, &mut pen);
        }
    }
    Ok(pen.at)
}

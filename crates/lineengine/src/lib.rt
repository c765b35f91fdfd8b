// The line engine for units programmed in C or Rust: functions on numbers and lent bytes, in a static library. Each takes any
// bytes, keeps nothing between calls and asks nothing of its caller but what the language asks of references. The header for C
// is embedding/lineengine.h.
#![tactic(auto)]

ghost use Rattle.std.specs.Prelude.{◌≡◌};
ghost use Rattle.rules.specs.Errors.{refused};
ghost use Rattle.rules.specs.File.{file_refusal};
ghost use Rattle.rules.specs.Record.{checked_step};
ghost use Rattle.rules.specs.Run.{run, answered};
ghost use Rattle.rules.specs.Printout.{print_code, printed_text, printed_answers};
ghost use Rattle.lineengine.specs.WriteBack.{write_back_refusal, written_back};
ghost use Rattle.lineengine.specs.Safe.{SafelyAnswered};
ghost use Rattle.lineengine.specs.Print.{printed_size};

use rules::{FileError, RoutePlace};

// What a call ended in, told in numbers: answers the code, and puts the train and the place on its route that the error is about into the
// lent places. All are 0 where the call is not refused, train and place also with an error that is about no place.
fn tell<T>(ended: &Result<T, FileError>, train: &mut u8, place: &mut u8) -> u8
    ensures value { result ≡ (refused ended.now).code }
    ensures train_after { train.new ≡ (refused ended.now).train }
    ensures place_after { place.new ≡ (refused ended.now).place }
{
    let (code, at) = match ended {
        Ok(_) => (0, RoutePlace { train: 0, place: 0 }),
        Err(e) => (e.code(), e.at()),
    };
    *train = at.train;
    *place = at.place;
    code
}

// The code of a table file: 0, or why it is refused, 1 to 12, 28 or 32; and with 11 and 28 the train and the place on its route, counted
// from 1, with any other code 0.
#[unsafe(no_mangle)]
pub extern "C" fn lineengine_check(table: &[u8], train: &mut u8, place: &mut u8) -> u8
    ensures value { result ≡ (file_refusal table.now).code }
    ensures train_after { train.new ≡ (file_refusal table.now).train }
    ensures place_after { place.new ≡ (file_refusal table.now).place }
{
    tell(&tablefile::read_table(table), train, place)
}

// Runs a table file and all its steps, three bytes each, and puts the code of each step into the lent buffer. Code, train and place are
// the file's; then 26, 0 and 0 where the buffer is shorter than the answers. With any code but 0 the buffer is as it was. Demand 3 holds
// of what was answered and of the line to which the steps led.
#[unsafe(no_mangle)]
pub extern "C" fn lineengine_run(
    table: &[u8],
    steps: &[u8],
    answers: &mut [u8],
    train: &mut u8,
    place: &mut u8,
) -> u8
    ensures value { result ≡ (run checked_step table.now steps.now answers.old).refusal.code }
    ensures train_after { train.new ≡ (run checked_step table.now steps.now answers.old).refusal.train }
    ensures place_after { place.new ≡ (run checked_step table.now steps.now answers.old).refusal.place }
    ensures answers_after { answers.new ≡ answered checked_step table.now steps.now answers.old }
    ensures safely_answered { result ≡ 0 → SafelyAnswered table.now steps.now answers.old answers.new }
{
    tell(&engine::run(table, steps, answers), train, place)
}

// The printout of a table file and an input, at the front of the lent text, its length, and the codes of the steps in the
// answers. With code 26, where a buffer is too short, all three are as they were. A refused table prints its code, with 11 and 28 train
// and place too.
#[tactic(auto, unfolding(crate::specs::Print::printed_size, rules::specs::Printout::print_length), using(rules::proofs::Coded::file_coded))]
#[unsafe(no_mangle)]
pub extern "C" fn lineengine_print(
    table: &[u8],
    input: &[u8],
    answers: &mut [u8],
    text: &mut [u8],
    size: &mut usize,
) -> u8
    ensures value { result ≡ print_code input.now answers.old text.old }
    ensures size_after { size.new ≡ printed_size table.now input.now answers.old text.old size.old }
    ensures text_after { text.new ≡ printed_text table.now input.now answers.old text.old }
    ensures answers_after { answers.new ≡ printed_answers table.now input.now answers.old text.old }
{
    match printout::print(table, input, answers, text) {
        Ok(length) => {
            *size = length;
            0
        }
        Err(e) => e.code(),
    }
}

// What `lineengine_write_back` does, with the refusal as an error.
#[tactic(auto, using(crate::proofs::Tables::back))]
fn write_back(table: &[u8], buffer: &mut [u8]) -> Result<(), FileError>
    ensures value { refused result ≡ write_back_refusal table.now buffer.old }
    ensures buffer_after { buffer.new ≡ written_back table.now buffer.old }
{
    let record = tablefile::read_table(table)?;
    writing::write(&record, buffer)
}

// Reads a table file and writes its table to the front of the lent buffer: the bytes of the file. Code, train and place are the file's;
// then 26, 0 and 0 where the buffer is shorter than the file. With any code but 0 the buffer is as it was.
#[unsafe(no_mangle)]
pub extern "C" fn lineengine_write_back(
    table: &[u8],
    buffer: &mut [u8],
    train: &mut u8,
    place: &mut u8,
) -> u8
    ensures value { result ≡ (write_back_refusal table.now buffer.old).code }
    ensures train_after { train.new ≡ (write_back_refusal table.now buffer.old).train }
    ensures place_after { place.new ≡ (write_back_refusal table.now buffer.old).place }
    ensures buffer_after { buffer.new ≡ written_back table.now buffer.old }
{
    tell(&write_back(table, buffer), train, place)
}

// The reader and single steps of the engine as the benchmark calls them, from a static library; writing and runs it takes from
// `lineengine`. Nothing else uses this crate.
#![tactic(auto)]

ghost use Rattle.std.specs.Prelude.{◌≡◌, ◌%◌, ◌<◌, ◌≤◌, ◌++◌, length, sum, drop};
ghost use Rattle.rules.specs.Line.{read};
ghost use Rattle.rules.specs.Errors.{outcome};
ghost use Rattle.rules.specs.Record.{checked_step};
ghost use Rattle.rules.specs.History.{line_after};
ghost use Rattle.rules.specs.Run.{whole_steps, step_count, answers_from, run, answered};
ghost use Rattle.bench.specs.Sample.{sample};

use rules::{FileError, Line, StepError};

// The sum of some bytes.
fn added(bytes: &[u8]) -> u64
    requires { length bytes.now < 256 }
    ensures { result ≡ sum bytes.now }
{
    bytes.iter().map(|byte| u64::from(*byte)).sum()
}

// One field of the record at index i of each array of the line, added up.
fn sampled(line: &Line, i: usize) -> u64
    requires { i < 16 }
    ensures { result ≡ sample (outcome (Ok line.now)) i }
{
    let table = &line.table;
    added(&[
        line.boxes[i].stem,
        line.trains[i].place,
        line.routes[i],
        table.segments[i].a,
        table.boxes[i].stem,
        table.trains[i].length,
        table.routes[i],
    ])
}

// Reads a file, and answers its code or a sample of the line.
#[unsafe(no_mangle)]
pub extern "C" fn bench_read(bytes: &[u8], i: u8) -> u64
    ensures { result ≡ sample (read bytes.now) (i % 16) }
{
    match reading::read(bytes) {
        Ok(line) => sampled(&line, usize::from(i % 16)),
        Err(error) => u64::from(error.code()),
    }
}

// Takes all steps from a line on, each by a call of its own on the line that the one before returned: the loop of `running`, with
// `engine::step` for its step, which is what is timed.
#[tactic(auto, unfolding(rules::specs::Run::step_count))]
fn called(mut line: Line, steps: &[u8], answers: &mut [u8]) -> Line
    requires { step_count steps.now ≤ length answers.old }
    ensures value { result ≡ line_after checked_step line (whole_steps steps.now) }
    ensures answers_after { answers.new ≡ answers_from checked_step line steps.now ++ drop (step_count steps.now) answers.old }
{
    let (whole, partial) = steps.as_chunks::<3>();
    for (n, &[kind, train, number]) in whole.iter().enumerate() {
        let outcome = engine::step(line, kind, train, number);
        answers[n] = outcome.code;
        line = outcome.line;
    }
    if !partial.is_empty() {
        answers[whole.len()] = StepError::Malformed.code();
    }
    line
}

// Runs a file and steps, by single checked steps, and answers the code.
#[unsafe(no_mangle)]
pub extern "C" fn bench_steps(file: &[u8], steps: &[u8], answers: &mut [u8]) -> u8
    ensures value { result ≡ (run checked_step file.now steps.now answers.old).refusal.code }
    ensures answers_after { answers.new ≡ answered checked_step file.now steps.now answers.old }
{
    let line = match reading::read(file) {
        Ok(line) => line,
        Err(error) => return error.code(),
    };
    if answers.len() < running::count(steps.len()) {
        return FileError::NoRoom.code();
    }
    called(line, steps, answers);
    0
}

// The line engine: a single step on any line record, and a run of a table file and all its steps.
#![tactic(auto)]

ghost use Rattle.std.specs.Prelude.{◌≡◌, IfOk};
ghost use Rattle.rules.specs.Rows.{nth, set_nth};
ghost use Rattle.rules.specs.Track.{track_in, track_of, way_in, way_of, point_in, point_at};
ghost use Rattle.rules.specs.Line.{around_train};
ghost use Rattle.rules.specs.Steps.{step};
ghost use Rattle.rules.specs.Record.{record_fault, checked_step};
ghost use Rattle.rules.specs.Errors.{outcome};
ghost use Rattle.rules.specs.Run.{run, answered, SafeRun};
ghost use Rattle.traincomputer.specs.Sight.{around_in};
ghost use Rattle.running.specs.Loop.{step_answer};

use checking::boxes::some_box_record_faulty;
use checking::trains::some_train_faulty;
use columns::Columns;
use rules::{BoxPlan, FileError, Line, Outcome, StepError, SwitchBox, Train};
use traincomputer::{Computer, sight};

// Runs a table file and all its steps, three bytes each: reads the table, takes every step, and puts the codes into the lent
// buffer. It is refused as the file is, then with 26 where the buffer is shorter than the answers; with an error the buffer is
// as it was. A last step of one or two bytes is answered 13 and changes nothing. What a run leaves and answers is what calls of `step`
// one after the other do, and demand 3 holds of it.
pub fn run(file: &[u8], steps: &[u8], answers: &mut [u8]) -> Result<Line, FileError>
    ensures value { outcome result ≡ run checked_step file.now steps.now answers.old }
    ensures answers_after { answers.new ≡ answered checked_step file.now steps.now answers.old }
    ensures safe_run { IfOk result (λ line. SafeRun file.now steps.now line answers.old answers.new) }
{
    running::run(file, steps, answers)
}

// Code 27, with the columns of the line's table.
#[tactic(auto, using(crate::proofs::Single::record_parts), unfolding(rules::specs::Record::record_fault))]
fn record_faulty(line: &Line, columns: &Columns) -> bool
    requires track { track_in columns.now.a columns.now.b ≡ track_of line.now.table }
    requires way { way_in columns.now.ways ≡ way_of line.now.table }
    requires points { point_in columns.now.kinds ≡ point_at line.now.table }
    ensures { result ≡ record_fault line.now }
{
    layout::check_parts(&line.table, columns).is_err()
        || some_train_faulty(line, columns)
        || some_box_record_faulty(line)
}

// A single step on any line record, in the three bytes that 01 has for it: 27 first, then 13, 14 and the rows of the step's kind. With 13 to 21,
// 27, 29 and 30 the line is as it was.
#[tactic(auto, unfolding(rules::specs::Record::checked_step))]
pub fn step(mut line: Line, kind: u8, train: u8, number: u8) -> Outcome
    ensures { result ≡ checked_step line (record { kind = kind; train = train; box = number }) }
{
    let columns = Columns::of(&line.table);
    if record_faulty(&line, &columns) {
        return Outcome {
            code: StepError::BadLine.code(),
            line,
        };
    }
    let code = take(&mut line, &columns, kind, train, number).unwrap_or_else(StepError::code);
    Outcome { code, line }
}

// The record with this number, counted from 1, or `none`.
#[tactic(auto, unfolding(rules::specs::Rows::nth))]
fn nth<T: Copy>(records: &[T], number: u8, none: T) -> T
    ensures { result ≡ nth records.now number none }
{
    let number = usize::from(number);
    if (1..=records.len()).contains(&number) {
        records[number - 1]
    } else {
        none
    }
}

// Replaces the record with this number, where there is one.
#[tactic(auto, unfolding(rules::specs::Rows::set_nth))]
fn set_nth<T: Copy>(records: &mut [T], number: u8, to: T)
    ensures { records.new ≡ set_nth records.old number to }
{
    let number = usize::from(number);
    if (1..=records.len()).contains(&number) {
        records[number - 1] = to;
    }
}

// The step itself, 27 aside, with the columns of the line's table: 13 and 14, and what is decided by its kind.
#[tactic(auto, using(running::proofs::Turn::unformed, crate::proofs::Single::unknown))]
fn take(
    line: &mut Line,
    columns: &Columns,
    kind: u8,
    train: u8,
    number: u8,
) -> Result<u8, StepError>
    requires { let c = columns.now in
        around_in c.a c.b c.ways c.kinds line.old.routes ≡ around_train line.old.table line.old.routes }
    ensures { record { code = step_answer result; line = line.new } ≡ step line.old (record { kind = kind; train = train; box = number }) }
{
    deciding::check_form(kind, number)?;
    if network::outside(line.table.k, train) {
        return Err(StepError::NoSuchTrain);
    }
    let r = nth(&line.trains, train, Train::default());
    let around = sight::around(train, r, &line.routes, columns);
    let computer = Computer { around, train: r };
    let at = deciding::concerned(kind, computer);
    let plan = nth(&line.table.boxes, at, BoxPlan::default());
    let state = nth(&line.boxes, at, SwitchBox::default());
    let done = deciding::decide(kind, number, computer, plan, state)?;
    set_nth(&mut line.trains, train, done.train);
    set_nth(&mut line.boxes, at, done.switchbox);
    Ok(done.code)
}

// Steps of three bytes, one after the other.
ghost use Rattle.std.specs.Prelude.{◌≡◌, ◌-◌, ◌≤◌, ◌<◌, ◌++◌, length, drop, get_or};
ghost use Rattle.rules.specs.declared.Line.{Line};
ghost use Rattle.rules.specs.Line.{no_train};
ghost use Rattle.rules.specs.Steps.{step};
ghost use Rattle.rules.specs.History.{line_after};
ghost use Rattle.rules.specs.Safety.{StaysSound};
ghost use Rattle.rules.specs.Run.{whole_steps, step_count, answers_from};
ghost use Rattle.traincomputer.specs.Sight.{around_in};
ghost use Rattle.running.specs.Loop.{Kept, Seen, no_around, step_answer};

use columns::Columns;
use deciding::moves::{clear, enter};
use deciding::requests::answer;
use deciding::{alone, check_form};
use rules::{Around, Line, StepError, SwitchBox, Train};
use std::marker::Model;
use traincomputer::sight::around;
use traincomputer::{Computer, message_box};

// A line on its way through steps, with the columns of its table. What stands around each train is kept, and made anew for a train that
// has moved. 27 finds nothing on the line, now and after any steps, so that every box that a step concerns is there.
#[derive(Drop)]
struct Moving {
    line: Line,
    columns: Columns,
    seen: [Around; 16],
}

impl Model for Moving {
    ghost Value = { Line };

    ghost view = { λ m. m.line };

    ghost invariant = { λ m. Kept m.columns m.line m.seen };
}

// The index of the record with this number, of at most N.
fn index<const N: u8>(number: u8) -> usize
    requires low { 1 ≤ number }
    requires high { number ≤ N }
    ensures value { result ≡ number - 1 }
    ensures within { result < N }
{
    usize::from(number - 1)
}

// What stands around each train, by its index. A zip with the trains' numbers would be no plainer.
fn views(line: &Line, columns: &Columns) -> [Around; 16]
    ensures { Seen (around_in columns.now.a columns.now.b columns.now.ways columns.now.kinds line.now.routes) line.now.trains result 16 }
{
    let mut all = [Around::default(); 16];
    for (i, train) in line.trains.iter().enumerate() {
        all[i] = around(i as u8 + 1, *train, &line.routes, columns);
    }
    all
}

// What the computer of the train at this index knows.
fn computer(seen: &[Around; 16], trains: &[Train; 16], i: usize) -> Computer
    requires { i < 16 }
    ensures { result ≡ record { around = get_or seen.now i no_around; train = get_or trains.now i no_train } }
{
    Computer {
        around: seen[i],
        train: trains[i],
    }
}

impl Moving {
    fn new(line: Line) -> Moving
        requires { StaysSound line }
        ensures { result ≡ line }
    {
        let columns = Columns::of(&line.table);
        let seen = views(&line, &columns);
        Moving {
            line,
            columns,
            seen,
        }
    }

    // Takes one step, and gives its code. Each arm copies the records that it uses, and decides by its own kind: copies before the `match`,
    // or one call for all kinds as in `engine`, are slower.
    #[tactic(auto, using(crate::proofs::Turn::unformed, crate::proofs::Turn::unknown))]
    fn take(&mut self, kind: u8, train: u8, at: u8) -> Result<u8, StepError>
        ensures { record { code = step_answer result; line = self.new } ≡ step self.old (record { kind = kind; train = train; box = at }) }
    {
        check_form(kind, at)?;
        if network::outside(self.line.table.k, train) {
            return Err(StepError::NoSuchTrain);
        }
        let i = index::<16>(train);
        match kind {
            3 => {
                let asked = message_box(self.line.trains[i].message);
                if asked == 0 {
                    return Err(StepError::NothingUnderWay);
                }
                let j = index::<96>(asked);
                let known = computer(&self.seen, &self.line.trains, i);
                let done = answer(known, self.line.table.boxes[j], self.line.boxes[j])?;
                self.line.trains[i] = done.train;
                self.line.boxes[j] = done.switchbox;
                Ok(done.code)
            }
            5 => {
                let j = index::<96>(self.seen[i].ahead);
                let known = computer(&self.seen, &self.line.trains, i);
                let done = enter(known, self.line.boxes[j])?;
                self.line.trains[i] = done.train;
                self.line.boxes[j] = done.switchbox;
                self.seen[i] = around(train, done.train, &self.line.routes, &self.columns);
                Ok(done.code)
            }
            6 => {
                let j = index::<96>(self.seen[i].passed);
                let known = computer(&self.seen, &self.line.trains, i);
                let done = clear(known, self.line.table.boxes[j], self.line.boxes[j])?;
                self.line.trains[i] = done.train;
                self.line.boxes[j] = done.switchbox;
                self.seen[i] = around(train, done.train, &self.line.routes, &self.columns);
                Ok(done.code)
            }
            _ => {
                let known = computer(&self.seen, &self.line.trains, i);
                let done = alone(kind, at, known, SwitchBox::default())?;
                self.line.trains[i] = done.train;
                Ok(done.code)
            }
        }
    }
}

// Takes all steps from a line on, and puts their codes into the buffer.
#[tactic(auto, unfolding(rules::specs::Run::step_count))]
pub(crate) fn advance(line: Line, steps: &[u8], answers: &mut [u8]) -> Line
    requires steps_in_bounds { step_count steps.now ≤ length answers.old }
    requires stays_sound { StaysSound line }
    ensures line { result ≡ line_after step line (whole_steps steps.now) }
    ensures answers_after { answers.new ≡ answers_from step line steps.now ++ drop (step_count steps.now) answers.old }
{
    let mut moving = Moving::new(line);
    let (whole, partial) = steps.as_chunks::<3>();
    for (n, &[kind, train, at]) in whole.iter().enumerate() {
        answers[n] = moving.take(kind, train, at).unwrap_or_else(StepError::code);
    }
    if !partial.is_empty() {
        answers[whole.len()] = StepError::Malformed.code();
    }
    moving.line
}

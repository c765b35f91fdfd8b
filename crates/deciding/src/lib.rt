// What a step does to its train and to the one box that it concerns, by 01's rows of codes: `traincomputer` has what the train's
// computer decides, `switchbox` what the box does. All is passed by value: `running` and `engine` copy the train, what stands around it and
// the box out of the line, have the step decided here, and put back what it changed. The kind stays a byte, and a step goes by `match` over
// it: 01 names that form.
#![tactic(auto)]

pub mod moves;
mod radio;
pub mod requests;

ghost use Rattle.std.specs.Prelude.{◌≡◌, cond, eqb};
ghost use Rattle.rules.specs.declared.Request.TheVariants.{GiveBack, Unlock};
ghost use Rattle.rules.specs.Rows.{first};
ghost use Rattle.rules.specs.Steps.{form_rows, concerned_box, alone, effect};
ghost use Rattle.rules.specs.Errors.{step_refused, effect_of};

use rules::{BoxPlan, Changed, Request, StepError, SwitchBox};
use traincomputer::Computer;

// Code 13: kinds 1, 2, 7 and 8 have a box byte, kinds 3 to 6, 9 and 10 have none, and there is no other kind. That there is no such kind
// is tested first, which is quicker on random bytes than arms side by side.
#[tactic(auto, unfolding(rules::specs::Rows::first, rules::specs::Steps::form_rows, rules::specs::Steps::formed))]
pub fn check_form(kind: u8, at: u8) -> Result<(), StepError>
    ensures { step_refused result ≡ first (form_rows kind at) }
{
    match kind {
        1..=10 => match kind {
            3..=6 | 9..=10 if at != 0 => Err(StepError::Malformed),
            _ => Ok(()),
        },
        _ => Err(StepError::Malformed),
    }
}

// The box that a step concerns: for kind 3 the box of the message, for 5 the box ahead, for 6 the box passed; else 0, as `concerned_box`
// has it.
#[tactic(auto, unfolding(rules::specs::Steps::concerned_box))]
pub fn concerned(kind: u8, c: Computer) -> u8
    ensures { result ≡ concerned_box kind c.around c.train }
{
    match kind {
        3 => traincomputer::message_box(c.train.message),
        5 => c.around.ahead,
        6 => c.around.passed,
        _ => 0,
    }
}

// The request of kind 7 or 8, which share one call of `send`: with a call for each a step takes longer.
fn returned(kind: u8, at: u8) -> Request
    ensures { result ≡ cond (eqb kind 7) (GiveBack at) (Unlock at) }
{
    if kind == 7 {
        Request::GiveBack(at)
    } else {
        Request::Unlock(at)
    }
}

// The kinds that are the train's alone, 1, 2, 4 and 7 to 10; there is no other. The box is handed through.
#[tactic(auto, unfolding(rules::specs::Steps::alone, rules::specs::Line::gives_back))]
pub fn alone(kind: u8, at: u8, c: Computer, x: SwitchBox) -> Result<Changed, StepError>
    ensures { effect_of result ≡ alone kind at c.around c.train x }
{
    match kind {
        1 => requests::ask(c, x, Request::Reserve(at)),
        2 => requests::ask(c, x, Request::Lock(at)),
        4 => requests::hear(c, x),
        7..=8 => requests::send(c, x, returned(kind, at)),
        _ => radio::decide(kind, c.train, x),
    }
}

// A step by its kind: of the train with this computer, at the box that it concerns, whose plan and record stand apart, since most kinds
// ask for neither. Which kinds have no box byte is `check_form`'s affair.
#[tactic(auto, unfolding(rules::specs::Steps::effect))]
pub fn decide(kind: u8, at: u8, c: Computer, p: BoxPlan, x: SwitchBox) -> Result<Changed, StepError>
    ensures { effect_of result ≡ effect kind at c.around c.train p x }
{
    match kind {
        3 => requests::answer(c, p, x),
        5 => moves::enter(c, x),
        6 => moves::clear(c, p, x),
        _ => alone(kind, at, c, x),
    }
}

// Kinds 5 and 6: Enter and Clear.
ghost use Rattle.std.specs.Prelude.{◌≡◌};
ghost use Rattle.rules.specs.Steps.{enter, clear};
ghost use Rattle.rules.specs.Errors.{effect_of};

use rules::{BoxPlan, Changed, StepError, SwitchBox, Train};
use traincomputer::Computer;

// Kind 5: single becomes crossing, and the sensor of the box ahead is active. Nothing is recorded of the new next.
#[tactic(auto, using(rules::proofs::Coded::step_coded), unfolding(rules::specs::Rows::first, rules::specs::Steps::enter, rules::specs::Steps::enter_rows, rules::specs::Steps::at_end, rules::specs::Steps::entered, rules::specs::Steps::sensed, rules::specs::Steps::unless))]
pub fn enter(c: Computer, x: SwitchBox) -> Result<Changed, StepError>
    ensures { effect_of result ≡ enter c.around c.train x }
{
    c.check_enter()?;
    let train = Train {
        place: c.train.place + 1,
        covered: c.train.covered + 1,
        near: false,
        far: false,
        lock: false,
        ..c.train
    };
    Ok(Changed {
        code: 0,
        train,
        switchbox: SwitchBox { sensor: true, ..x },
    })
}

// Kind 6: the tail is cleared. What the train has recorded is all of next, which has no end at the box passed.
#[tactic(auto, unfolding(rules::specs::Rows::first, rules::specs::Steps::clear, rules::specs::Steps::clear_rows, rules::specs::Steps::cleared, rules::specs::Steps::unless))]
pub fn clear(c: Computer, p: BoxPlan, x: SwitchBox) -> Result<Changed, StepError>
    ensures { effect_of result ≡ clear c.around c.train p x }
{
    if c.train.covered <= 1 {
        return Err(StepError::WrongSpan);
    }
    let train = Train {
        covered: c.train.covered - 1,
        ..c.train
    };
    Ok(Changed {
        code: 0,
        train,
        switchbox: switchbox::released(p, x, c.around.tail, c.around.second),
    })
}

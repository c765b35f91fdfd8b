// Kinds 9 and 10: what is under way is lost, and a request of which nothing is under way is sent again.
ghost use Rattle.std.specs.Prelude.{◌≡◌, cond, eqb};
ghost use Rattle.rules.specs.Ends.Effect.{Refused};
ghost use Rattle.rules.specs.Steps.{lose, send_again};
ghost use Rattle.rules.specs.Errors.{effect_of};

use rules::{Changed, Message, StepError, SwitchBox, Train};
use traincomputer::with_message;

// Kind 9: a request or its answer is lost.
#[tactic(auto, unfolding(rules::specs::Steps::lose))]
fn lose(r: Train, x: SwitchBox) -> Result<Changed, StepError>
    ensures { effect_of result ≡ lose r x r.message }
{
    match r.message {
        Message::Sent(q) | Message::Answered(q, _) => Ok(Changed {
            code: 0,
            train: with_message(r, Message::Lost(q)),
            switchbox: x,
        }),
        Message::Idle | Message::Lost(_) => Err(StepError::RadioIdle),
    }
}

// Kind 10: a lost request is sent again.
#[tactic(auto, unfolding(rules::specs::Steps::send_again))]
fn send_again(r: Train, x: SwitchBox) -> Result<Changed, StepError>
    ensures { effect_of result ≡ send_again r x r.message }
{
    match r.message {
        Message::Lost(q) => Ok(Changed {
            code: 0,
            train: with_message(r, Message::Sent(q)),
            switchbox: x,
        }),
        Message::Idle | Message::Sent(_) | Message::Answered(_, _) => Err(StepError::RadioIdle),
    }
}

// Kinds 9 and 10, and 13 for any other. They stand apart from the kinds of every day, which take longer beside them.
pub(crate) fn decide(kind: u8, r: Train, x: SwitchBox) -> Result<Changed, StepError>
    ensures { effect_of result ≡ cond (eqb kind 9) (lose r x r.message) (cond (eqb kind 10) (send_again r x r.message) (Refused 13)) }
{
    match kind {
        9 => lose(r, x),
        10 => send_again(r, x),
        _ => Err(StepError::Malformed),
    }
}

// Kinds 1, 2, 7 and 8: requests, give-backs among them. Kinds 3 and 4: the box's answer, and hearing it.
ghost use Rattle.std.specs.Prelude.{◌≡◌, false, Ok};
ghost use Rattle.rules.specs.Line.{gives_back};
ghost use Rattle.rules.specs.Steps.{send, reply, box_answers, train_hears};
ghost use Rattle.rules.specs.Errors.{effect_of};

use rules::{BoxPlan, Changed, Message, Request, StepError, SwitchBox};
use switchbox::AtBox;
use traincomputer::{Computer, with_message};

// Kinds 1, 2, 7 and 8: the message is sent, and what is given back is no longer recorded.
#[tactic(auto, using(rules::proofs::Coded::step_coded), unfolding(rules::specs::Steps::send, rules::specs::Steps::unless))]
pub(crate) fn send(c: Computer, x: SwitchBox, q: Request) -> Result<Changed, StepError>
    ensures { effect_of result ≡ send c.around c.train x q }
{
    c.check_request(q)?;
    Ok(Changed {
        code: 0,
        train: c.sending(q),
        switchbox: x,
    })
}

// Kinds 1 and 2: the same of a request that gives nothing back. Its two calls are compiled in place, which `send` is too long for: with
// `send` alone for all four kinds a step took about a tenth longer.
#[tactic(auto, using(rules::proofs::Coded::step_coded), unfolding(rules::specs::Steps::send, rules::specs::Steps::sending, rules::specs::Steps::unless))]
pub(crate) fn ask(c: Computer, x: SwitchBox, q: Request) -> Result<Changed, StepError>
    requires { gives_back q ≡ false }
    ensures { effect_of result ≡ send c.around c.train x q }
{
    c.check_request(q)?;
    Ok(Changed {
        code: 0,
        train: with_message(c.train, Message::Sent(q)),
        switchbox: x,
    })
}

// The box answers a request: a yes is carried out, if it is not yet; a no leaves it as it was.
#[tactic(auto, using(rules::proofs::Coded::denial_coded), unfolding(rules::specs::Steps::reply))]
fn reply(c: Computer, p: BoxPlan, x: SwitchBox, q: Request) -> Changed
    ensures { effect_of (Ok result) ≡ reply c.around c.train p x q }
{
    let here = AtBox {
        around: c.around,
        plan: p,
        state: x,
    };
    let (code, switchbox) = match here.answer(q) {
        Ok(()) => (0, here.granted(q)),
        Err(denial) => (denial.code(), x),
    };
    Changed {
        code,
        train: with_message(c.train, Message::Answered(q, code)),
        switchbox,
    }
}

// Kind 3: the box answers a message that is sent.
#[tactic(auto, unfolding(rules::specs::Steps::box_answers))]
pub fn answer(c: Computer, p: BoxPlan, x: SwitchBox) -> Result<Changed, StepError>
    ensures { effect_of result ≡ box_answers c.around c.train p x c.train.message }
{
    match c.train.message {
        Message::Sent(q) => Ok(reply(c, p, x, q)),
        Message::Idle | Message::Answered(..) | Message::Lost(_) => Err(StepError::NothingUnderWay),
    }
}

// Kind 4: the train hears an answer that is on its way, with the answer's code.
#[tactic(auto, unfolding(rules::specs::Steps::train_hears))]
pub(crate) fn hear(c: Computer, x: SwitchBox) -> Result<Changed, StepError>
    ensures { effect_of result ≡ train_hears c.around c.train x c.train.message }
{
    match c.train.message {
        Message::Answered(q, code) => Ok(Changed {
            code,
            train: c.heard(q, code),
            switchbox: x,
        }),
        Message::Idle | Message::Sent(_) | Message::Lost(_) => Err(StepError::NothingUnderWay),
    }
}

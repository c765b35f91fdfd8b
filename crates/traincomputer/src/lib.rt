// What a train's computer knows and decides: its messages, the codes of its requests and of Enter, and what it records. `sight` has
// what it sees around the train.
#![tactic(auto)]

pub mod sight;

ghost use Rattle.std.specs.Prelude.{◌≡◌};
ghost use Rattle.rules.specs.Rows.{first};
ghost use Rattle.rules.specs.Line.{request_box, message_box};
ghost use Rattle.rules.specs.Steps.{with_message, is_open, addressed, recorded, address_rows, record_rows, request_rows, with_holding, without_holding, sending, heard, enter_rows};
ghost use Rattle.rules.specs.Errors.{step_refused};

use messages::{gives_back, holding_of};
use rules::{Around, Holding, Message, Request, StepError, Train};

// The box of a message, 0 where there is none, as `concerned_box` has it.
#[tactic(auto, unfolding(rules::specs::Line::message_box))]
pub fn message_box(message: Message) -> u8
    ensures { result ≡ message_box message }
{
    match message {
        Message::Idle => 0,
        Message::Sent(q) | Message::Answered(q, _) | Message::Lost(q) => request_box(q),
    }
}

#[tactic(auto, unfolding(rules::specs::Line::request_box, rules::specs::Line::holding, rules::specs::Line::holding_box))]
fn request_box(q: Request) -> u8
    ensures { result ≡ request_box q }
{
    match q {
        Request::Reserve(b) | Request::Lock(b) | Request::GiveBack(b) | Request::Unlock(b) => b,
    }
}

// The train with another message.
#[tactic(auto, unfolding(rules::specs::Steps::with_message))]
pub fn with_message(r: Train, message: Message) -> Train
    ensures { result ≡ with_message r message }
{
    Train { message, ..r }
}

// The train waits for an answer.
#[tactic(auto, unfolding(rules::specs::Steps::is_open))]
fn is_open(message: Message) -> bool
    ensures { result ≡ is_open message }
{
    !matches!(message, Message::Idle)
}

// A request about it may be made at its box.
#[tactic(auto, unfolding(rules::specs::Steps::addressed))]
fn addressed(v: Around, h: Holding) -> bool
    ensures { result ≡ addressed v h }
{
    match h {
        Holding::NextAt(b) => b == v.near_end || b == v.far_end,
        Holding::LockAt(b) => b == v.ahead && v.point,
    }
}

// What a train's computer knows: what stands around the train, and the train's record.
#[derive(Clone, Copy)]
pub struct Computer {
    pub around: Around,
    pub train: Train,
}

impl Computer {
    // Codes 16 and 17 of a request.
    #[tactic(auto, unfolding(rules::specs::Rows::first, rules::specs::Steps::address_rows, rules::specs::Steps::at_end))]
    pub fn check_address(self, q: Request) -> Result<(), StepError>
        ensures { step_refused result ≡ first (address_rows self.around self.train q) }
    {
        if self.train.length <= self.train.place {
            return Err(StepError::RouteEnds);
        }
        if !addressed(self.around, holding_of(q)) {
            return Err(StepError::NotAddressed);
        }
        Ok(())
    }

    // Codes 15 to 18 and 29 of a request.
    #[tactic(auto, using(rules::proofs::Coded::step_coded), unfolding(rules::specs::Rows::first, rules::specs::Steps::request_rows, rules::specs::Steps::address_rows))]
    pub fn check_request(self, q: Request) -> Result<(), StepError>
        ensures { step_refused result ≡ first (request_rows self.around self.train q) }
    {
        if is_open(self.train.message) {
            return Err(StepError::MessageOpen);
        }
        self.check_address(q)?;
        self.check_record(q)
    }

    // 18 where what is asked for is recorded already, 29 where what is given back is not recorded.
    #[tactic(auto, unfolding(rules::specs::Rows::first, rules::specs::Steps::record_rows))]
    fn check_record(self, q: Request) -> Result<(), StepError>
        ensures { step_refused result ≡ first (record_rows self.around self.train q) }
    {
        match (gives_back(q), self.recorded(holding_of(q))) {
            (false, true) => Err(StepError::RecordedAlready),
            (true, false) => Err(StepError::NotRecorded),
            _ => Ok(()),
        }
    }

    // Codes 20, 16 and 19 of Enter.
    #[tactic(auto, unfolding(rules::specs::Rows::first, rules::specs::Steps::enter_rows, rules::specs::Steps::at_end))]
    pub fn check_enter(self) -> Result<(), StepError>
        ensures { step_refused result ≡ first (enter_rows self.around self.train) }
    {
        if self.train.covered >= 2 {
            return Err(StepError::WrongSpan);
        }
        if self.train.length <= self.train.place {
            return Err(StepError::RouteEnds);
        }
        if !(self.train.near && self.train.far && (!self.around.point || self.train.lock)) {
            return Err(StepError::NotReserved);
        }
        Ok(())
    }

    // The train after it has sent a request: what it gives back is no longer recorded.
    #[tactic(auto, unfolding(rules::specs::Steps::sending))]
    pub fn sending(self, q: Request) -> Train
        ensures { result ≡ sending self.around self.train q }
    {
        let train = if gives_back(q) {
            self.without_holding(holding_of(q))
        } else {
            self.train
        };
        with_message(train, Message::Sent(q))
    }

    // The train after it has heard an answer: a yes, 0, to what it asked for is recorded, and the message is gone. The code is a byte, since a
    // message of a record may hold any.
    #[tactic(auto, unfolding(rules::specs::Steps::heard))]
    pub fn heard(self, q: Request, code: u8) -> Train
        ensures { result ≡ heard self.around self.train q code }
    {
        let gone = Computer {
            train: with_message(self.train, Message::Idle),
            ..self
        };
        if code == 0 && !gives_back(q) {
            gone.with_holding(holding_of(q))
        } else {
            gone.train
        }
    }

    // The train has recorded it.
    #[tactic(auto, unfolding(rules::specs::Steps::recorded))]
    fn recorded(self, h: Holding) -> bool
        ensures { result ≡ recorded self.around self.train h }
    {
        match h {
            Holding::NextAt(b) => b == self.around.near_end && self.train.near
                || b == self.around.far_end && self.train.far,
            Holding::LockAt(_) => self.train.lock,
        }
    }

    // The train after it has recorded it.
    #[tactic(auto, unfolding(rules::specs::Steps::with_holding))]
    fn with_holding(self, h: Holding) -> Train
        ensures { result ≡ with_holding self.around self.train h }
    {
        match h {
            Holding::NextAt(b) => Train {
                near: b == self.around.near_end || self.train.near,
                far: b == self.around.far_end || self.train.far,
                ..self.train
            },
            Holding::LockAt(_) => Train {
                lock: true,
                ..self.train
            },
        }
    }

    // The train after it has dropped the record of it.
    #[tactic(auto, unfolding(rules::specs::Steps::without_holding))]
    fn without_holding(self, h: Holding) -> Train
        ensures { result ≡ without_holding self.around self.train h }
    {
        match h {
            Holding::NextAt(b) => Train {
                near: b != self.around.near_end && self.train.near,
                far: b != self.around.far_end && self.train.far,
                ..self.train
            },
            Holding::LockAt(_) => Train {
                lock: false,
                ..self.train
            },
        }
    }
}

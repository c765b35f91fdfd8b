// What a switch box decides and does, on its plan and its record: its answer to a request, what its yes does, and what it frees
// after a train.
#![tactic(auto)]

ghost use Rattle.std.specs.Prelude.{◌≡◌, ℕ, eqb};
ghost use Rattle.rules.specs.Rows.{first};
ghost use Rattle.rules.specs.Track.{joins};
ghost use Rattle.rules.specs.declared.Holding.TheVariants.{NextAt, LockAt};
ghost use Rattle.rules.specs.Line.{holder_of, set_holder};
ghost use Rattle.rules.specs.Steps.{another, grant_rows, box_rows, position_for, lock_given, stands, given, freed, granted, released};
ghost use Rattle.rules.specs.Errors.{answer_of};

use messages::{gives_back, holding_of};
use rules::{Around, BoxPlan, Denial, Holding, Request, SwitchBox};

// A train at a box: what stands around the train, and the box's plan and record.
#[derive(Clone, Copy)]
pub struct AtBox {
    pub around: Around,
    pub plan: BoxPlan,
    pub state: SwitchBox,
}

impl AtBox {
    // The box's answer to a request: what gives back is always answered yes, and so is what the box has for the train already.
    #[tactic(auto, unfolding(rules::specs::Rows::first, rules::specs::Steps::box_rows))]
    pub fn answer(self, q: Request) -> Result<(), Denial>
        ensures { answer_of result ≡ first (box_rows self.around self.plan self.state q) }
    {
        let about = holding_of(q);
        if gives_back(q) || self.stands(about) {
            return Ok(());
        }
        self.grant(about)
    }

    // The box after its yes.
    #[tactic(auto, unfolding(rules::specs::Steps::granted))]
    pub fn granted(self, q: Request) -> SwitchBox
        ensures { result ≡ granted self.around self.plan self.state q }
    {
        let about = holding_of(q);
        match (gives_back(q), self.stands(about)) {
            (false, false) => self.given(about),
            (true, true) => self.freed(about),
            _ => self.state,
        }
    }

    // The train that segment s is reserved for here, 0 where there is none.
    #[tactic(auto, unfolding(rules::specs::Line::holder_of))]
    fn holder_of(self, s: u8) -> u8
        ensures { result ≡ holder_of self.plan self.state s }
    {
        if s == self.plan.stem {
            self.state.stem
        } else if s == self.plan.left {
            self.state.left
        } else if s == self.plan.right {
            self.state.right
        } else {
            0
        }
    }

    // Segment s is reserved for the train here.
    fn reserved(self, s: u8) -> bool
        ensures { result ≡ eqb (holder_of self.plan self.state s) self.around.number }
    {
        self.holder_of(s) == self.around.number
    }

    // The holder is somebody else than the train.
    #[tactic(auto, unfolding(rules::specs::Steps::another))]
    fn another(self, holder: u8) -> bool
        ensures { result ≡ another self.around.number holder }
    {
        holder != 0 && holder != self.around.number
    }

    // The box's answer to a request for next, whatever the box's number.
    #[tactic(auto, unfolding(rules::specs::Rows::first, rules::specs::Steps::grant_rows))]
    fn grant_next(self) -> Result<(), Denial>
        ensures { (b : ℕ) → answer_of result ≡ first (grant_rows self.around self.plan self.state (NextAt b)) }
    {
        if self.around.against {
            return Err(Denial::AgainstWay);
        }
        if self.another(self.holder_of(self.around.next)) {
            return Err(Denial::Taken);
        }
        Ok(())
    }

    // The box's answer to a request for its lock, whatever the box's number.
    #[tactic(auto, unfolding(rules::specs::Rows::first, rules::specs::Steps::grant_rows))]
    fn grant_lock(self) -> Result<(), Denial>
        ensures { (b : ℕ) → answer_of result ≡ first (grant_rows self.around self.plan self.state (LockAt b)) }
    {
        if self.another(self.state.lock) {
            return Err(Denial::LockTaken);
        }
        if self.state.sensor {
            return Err(Denial::SensorActive);
        }
        if !(self.reserved(self.around.front) && self.reserved(self.around.next)) {
            return Err(Denial::NotBothReserved);
        }
        Ok(())
    }

    // The box's answer to what is asked for.
    fn grant(self, h: Holding) -> Result<(), Denial>
        ensures { answer_of result ≡ first (grant_rows self.around self.plan self.state h) }
    {
        match h {
            Holding::NextAt(_) => self.grant_next(),
            Holding::LockAt(_) => self.grant_lock(),
        }
    }

    // The box has it for the train.
    #[tactic(auto, unfolding(rules::specs::Steps::stands))]
    fn stands(self, h: Holding) -> bool
        ensures { result ≡ stands self.around self.plan self.state h }
    {
        match h {
            Holding::NextAt(_) => self.reserved(self.around.next),
            Holding::LockAt(_) => self.state.lock == self.around.number,
        }
    }

    // The point joins front to next, and its lock is the train's.
    fn locked(self) -> SwitchBox
        ensures { result ≡ lock_given self.around self.plan self.state }
    {
        SwitchBox {
            position: position_for(self.plan, self.around.front, self.around.next),
            lock: self.around.number,
            ..self.state
        }
    }

    // The box once it is the train's.
    #[tactic(auto, unfolding(rules::specs::Steps::given))]
    fn given(self, h: Holding) -> SwitchBox
        ensures { result ≡ given self.around self.plan self.state h }
    {
        match h {
            Holding::NextAt(_) => set_holder(
                self.plan,
                self.state,
                self.around.next,
                self.around.number,
            ),
            Holding::LockAt(_) => self.locked(),
        }
    }

    // The box once it is free.
    #[tactic(auto, unfolding(rules::specs::Steps::freed))]
    fn freed(self, h: Holding) -> SwitchBox
        ensures { result ≡ freed self.around self.plan self.state h }
    {
        match h {
            Holding::NextAt(_) => set_holder(self.plan, self.state, self.around.next, 0),
            Holding::LockAt(_) => SwitchBox {
                lock: 0,
                ..self.state
            },
        }
    }
}

// Position 1 of a point joins segments s and z: one is the stem, the other the left branch.
#[tactic(auto, unfolding(rules::specs::Track::joins, rules::specs::Track::same_pair))]
fn joins_left(p: BoxPlan, s: u8, z: u8) -> bool
    ensures { result ≡ joins p 1 s z }
{
    s == p.stem && z == p.left || s == p.left && z == p.stem
}

// The position of a point that joins two segments, one of which is its stem.
#[tactic(auto, unfolding(rules::specs::Steps::position_for))]
fn position_for(p: BoxPlan, s: u8, z: u8) -> u8
    ensures { result ≡ position_for p s z }
{
    if joins_left(p, s, z) { 1 } else { 2 }
}

// The box with segment s given to a train.
#[tactic(auto, unfolding(rules::specs::Line::set_holder))]
pub fn set_holder(p: BoxPlan, x: SwitchBox, s: u8, train: u8) -> SwitchBox
    ensures { result ≡ set_holder p x s train }
{
    SwitchBox {
        stem: if s == p.stem { train } else { x.stem },
        left: if s == p.left { train } else { x.left },
        right: if s == p.right { train } else { x.right },
        ..x
    }
}

// The box that a train has passed: sensor passive, lock free, the reservations of both segments free.
#[tactic(auto, unfolding(rules::specs::Steps::released))]
pub fn released(p: BoxPlan, x: SwitchBox, s: u8, z: u8) -> SwitchBox
    ensures { result ≡ released p x s z }
{
    let free = SwitchBox {
        sensor: false,
        lock: 0,
        ..x
    };
    set_holder(p, set_holder(p, free, s, 0), z, 0)
}

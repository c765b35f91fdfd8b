// What a request is about, for the train's computer and for the box.
#![tactic(auto)]

ghost use Rattle.std.specs.Prelude.{◌≡◌};
ghost use Rattle.rules.specs.Line.{holding, gives_back};

use rules::{Holding, Request};

// What a request is about.
#[tactic(auto, unfolding(rules::specs::Line::holding))]
pub fn holding_of(q: Request) -> Holding
    ensures { result ≡ holding q }
{
    match q {
        Request::Reserve(b) | Request::GiveBack(b) => Holding::NextAt(b),
        Request::Lock(b) | Request::Unlock(b) => Holding::LockAt(b),
    }
}

// The request gives back what it is about.
#[tactic(auto, unfolding(rules::specs::Line::gives_back))]
pub fn gives_back(q: Request) -> bool
    ensures { result ≡ gives_back q }
{
    matches!(q, Request::GiveBack(_) | Request::Unlock(_))
}

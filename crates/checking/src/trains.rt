// Code 27 at the trains of a line.
ghost use Rattle.std.specs.Prelude.{◌≡◌, ◌||◌, eqb};
ghost use Rattle.rules.specs.Track.{track_in, way_in, point_in};
ghost use Rattle.rules.specs.Record.{answer_code, address_fault, message_fault, train_fault, trains_fault};
ghost use Rattle.traincomputer.specs.Sight.{around_in};

use columns::Columns;
use rules::{Line, Message, Request, Train};
use traincomputer::{Computer, sight};

// A code that a box can give in answer to a request: numbers, since a record may hold any byte.
#[tactic(auto, unfolding(rules::specs::Record::answer_code))]
fn answer_code(q: Request, code: u8) -> bool
    ensures { result ≡ answer_code q code }
{
    match q {
        Request::Reserve(_) => matches!(code, 0 | 22 | 31),
        Request::Lock(_) => matches!(code, 0 | 23 | 24 | 25),
        Request::GiveBack(_) | Request::Unlock(_) => code == 0,
    }
}

// A request of the train with this number and record that 16 or 17 would stop. What stands around a train is looked up here alone, so that
// its parts are handed down.
#[tactic(auto, using(crate::proofs::Laws::step_tested), unfolding(rules::specs::Record::address_fault))]
fn address_faulty(number: u8, r: Train, q: Request, routes: &[u8; 1024], columns: &Columns) -> bool
    ensures { let c = columns.now in result ≡ address_fault (around_in c.a c.b c.ways c.kinds routes.now number r) r q }
{
    let around = sight::around(number, r, routes, columns);
    Computer { around, train: r }.check_address(q).is_err()
}

// Code 27 on a train's message.
#[tactic(auto, unfolding(rules::specs::Record::message_fault))]
fn message_faulty(number: u8, r: Train, routes: &[u8; 1024], columns: &Columns) -> bool
    ensures { let c = columns.now in result ≡ message_fault (around_in c.a c.b c.ways c.kinds routes.now number r) r r.message }
{
    match r.message {
        Message::Idle => false,
        Message::Sent(q) | Message::Lost(q) => address_faulty(number, r, q, routes, columns),
        Message::Answered(q, code) => {
            address_faulty(number, r, q, routes, columns) || !answer_code(q, code)
        }
    }
}

// Code 27 at the train with this number and record, by the routes as they stand and the columns of a table with n segments.
#[tactic(auto, using(crate::proofs::Laws::refused_tested), unfolding(rules::specs::Record::train_fault))]
fn train_faulty(number: u8, r: Train, n: u8, routes: &[u8; 1024], columns: &Columns) -> bool
    ensures { let c = columns.now in
        result ≡ train_fault n (track_in c.a c.b) (way_in c.ways) (point_in c.kinds) routes.now number r }
{
    placing::shape_faulty(r.direction, r.length)
        || placing::check_route(routes, number, r.direction, r.length, n, columns).is_err()
        || !(1..=r.length).contains(&r.place)
        || r.covered > r.place
        || !(1..=2).contains(&r.covered)
        || message_faulty(number, r, routes, columns)
}

// Code 27 at the trains of a line, with the columns of its table.
pub fn some_train_faulty(line: &Line, columns: &Columns) -> bool
    ensures { let l = line.now in
        let t = l.table in
        let c = columns.now in
        result ≡ trains_fault t.n t.k (track_in c.a c.b) (way_in c.ways) (point_in c.kinds) l.routes l.trains }
{
    let n = line.table.n;
    let k = line.table.k;
    let routes = &line.routes;
    // As a slice, whose length the proof knows.
    let trains: &[Train] = &line.trains;
    // Train 17 has no record: it reads as one with a route of length 0, which is at fault. Of what `1..=k` yields std has no lemma.
    k > 16
        || (1..k + 1)
            .zip(trains)
            .any(|(number, r)| train_faulty(number, *r, n, routes, columns))
}

// The trains of a table: code 10, the shape of routes; 11 and 28, their segments; 12, the first segments of trains; and 32, their ways.
#![tactic(auto)]

ghost use Rattle.std.specs.Prelude.{◌≡◌, ◌+◌, ◌≤◌, length};
ghost use Rattle.rules.specs.Rows.{first, any_of};
ghost use Rattle.rules.specs.Track.{route_at, track_in, way_in, follows};
ghost use Rattle.rules.specs.Placing.{route_shape_fault, shape_fault_at, route_fault, routes_fault, start_fault, start_against_at};
ghost use Rattle.rules.specs.Placing.{placing_rows, refusal_by};
ghost use Rattle.rules.specs.Errors.{refused};

use columns::Columns;
use rules::{FileError, RoutePlace, Table, TrainPlan};

// Code 10 on a train's direction and route length.
#[tactic(auto, unfolding(rules::specs::Placing::route_shape_fault, rules::specs::Rows::outside))]
pub fn shape_faulty(d: u8, r: u8) -> bool
    ensures { result ≡ route_shape_fault d r }
{
    d > 1 || !(1..=64).contains(&r)
}

// Code 10: some train has a direction above 1, or a route length outside 1 to 64.
fn some_shape_faulty(k: u8, trains: &[TrainPlan]) -> bool
    requires { length trains.now ≡ 16 }
    ensures { result ≡ any_of k (shape_fault_at trains.now) }
{
    // Train 17 has no plan: it reads as one with a route of length 0, which is at fault.
    k > 16
        || trains[..usize::from(k)]
            .iter()
            .any(|p| shape_faulty(p.direction, p.length))
}

// The segment at place p, counted from 1, of the route of the train with this number; 0 where there is none, as `route_at` has it.
pub fn segment_at(routes: &[u8; 1024], number: u8, p: usize) -> u8
    ensures { result ≡ route_at routes.now number p }
{
    if (1..=16).contains(&number) && (1..=64).contains(&p) {
        routes[64 * usize::from(number - 1) + p - 1]
    } else {
        0
    }
}

// Segment s follows segment `before`: the far end of `before` and the near end of s are at one box.
#[tactic(auto, unfolding(rules::specs::Track::follows, rules::specs::Track::far_box, rules::specs::Track::near_box))]
fn follows(before: u8, s: u8, near: &[u8; 256], far: &[u8; 256]) -> bool
    ensures { result ≡ follows (track_in near.now far.now) 0 before s }
{
    far[usize::from(before)] == near[usize::from(s)]
}

// Codes 11 and 28: the first place at fault of a train's route of length r, with the near ends for A ends and the far ends for B ends,
// so that the direction is 0 and is not asked at each place.
#[tactic(auto, using(crate::proofs::Routes::search_ends))]
fn check_places(
    routes: &[u8],
    train: u8,
    r: u8,
    n: u8,
    near: &[u8; 256],
    far: &[u8; 256],
) -> Result<(), FileError>
    requires { (1 ≤ train) × (train ≤ 16) × (length routes.now ≡ 1024) }
    ensures { refused result ≡ route_fault n (track_in near.now far.now) routes.now train 0 r }
{
    let start = 64 * usize::from(train - 1);
    let route = &routes[start..start + usize::from(r.min(64))];
    let mut before = 0;
    for (i, s) in route.iter().enumerate() {
        let at = RoutePlace {
            train,
            place: i as u8 + 1,
        };
        if network::outside(n, *s) {
            return Err(FileError::NoSuchSegment(at));
        }
        if i > 0 && !follows(before, *s, near, far) {
            return Err(FileError::NotFollowing(at));
        }
        before = *s;
    }
    // A longer route reads segment 0 at its place 65.
    if r > 64 {
        return Err(FileError::NoSuchSegment(RoutePlace { train, place: 65 }));
    }
    Ok(())
}

// Codes 11 and 28 on a train's route of direction d and length r: the first place at fault. They are numbers, since `checking` asks it of a
// train's record, and `check_routes` of its plan.
pub fn check_route(
    routes: &[u8; 1024],
    train: u8,
    d: u8,
    r: u8,
    n: u8,
    columns: &Columns,
) -> Result<(), FileError>
    ensures { refused result ≡ route_fault n (track_in columns.now.a columns.now.b) routes.now train d r }
{
    if r == 0 {
        return Ok(());
    }
    // A train that there is not reads segment 0 at its first place.
    if !(1..=16).contains(&train) {
        return Err(FileError::NoSuchSegment(RoutePlace { train, place: 1 }));
    }
    if d == 0 {
        check_places(routes, train, r, n, &columns.a, &columns.b)
    } else {
        check_places(routes, train, r, n, &columns.b, &columns.a)
    }
}

// Codes 11 and 28 in one search through the routes of all trains: the first place at fault. Numbers are an index and 1 here and below: of a
// `for` over a `zip` with a range the proof of a turn stayed open.
fn check_routes(table: &Table, columns: &Columns) -> Result<(), FileError>
    requires { table.now.k ≤ 16 }
    ensures { let t = table.now in
        refused result ≡ routes_fault t.n t.k (track_in columns.now.a columns.now.b) t.trains t.routes }
{
    // As a slice, whose length the proof knows.
    let trains: &[TrainPlan] = &table.trains;
    for (i, p) in trains[..usize::from(table.k)].iter().enumerate() {
        check_route(
            &table.routes,
            i as u8 + 1,
            p.direction,
            p.length,
            table.n,
            columns,
        )?;
    }
    Ok(())
}

// Code 12: two trains begin with one segment. The segments with which trains before begin are marked: `any` over a closure that marks is no
// plainer than the `for`.
fn some_start_shared(k: u8, routes: &[u8; 1024]) -> bool
    ensures { result ≡ any_of k (start_fault routes.now) }
{
    let mut begun = [false; 256];
    for number in 1..=k {
        let first = usize::from(segment_at(routes, number, 1));
        if begun[first] {
            return true;
        }
        begun[first] = true;
    }
    false
}

// Code 32: some train starts against the way of its first segment.
fn some_start_against(table: &Table, columns: &Columns) -> bool
    requires { table.now.k ≤ 16 }
    ensures { let t = table.now in
        result ≡ any_of t.k (start_against_at (way_in columns.now.ways) t.trains t.routes) }
{
    // As a slice, whose length the proof knows.
    let trains: &[TrainPlan] = &table.trains;
    trains[..usize::from(table.k)].iter().enumerate().any(|(i, p)| {
        let first = segment_at(&table.routes, i as u8 + 1, 1);
        network::runs_against(p.direction, columns.ways[usize::from(first)])
    })
}

// Codes 10 to 12, 28 and 32 of a table's trains: why a table with these trains is refused.
#[tactic(auto, using(rules::proofs::Coded::file_coded, crate::proofs::Routes::refusals))]
pub fn check_placing(table: &Table, columns: &Columns) -> Result<(), FileError>
    ensures { let t = table.now in
        let track = track_in columns.now.a columns.now.b in
        let rows = placing_rows t.n t.k track (way_in columns.now.ways) t.trains t.routes in
        refused result ≡ refusal_by (first rows) (routes_fault t.n t.k track t.trains t.routes) }
{
    if some_shape_faulty(table.k, &table.trains) {
        return Err(FileError::BadRouteShape);
    }
    check_routes(table, columns)?;
    if some_start_shared(table.k, &table.routes) {
        return Err(FileError::SharedStart);
    }
    if some_start_against(table, columns) {
        return Err(FileError::StartAgainstWay);
    }
    Ok(())
}

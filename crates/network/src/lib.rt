// The network of a table: codes 6 to 9. Here are 6 and 7, the segments and the plans of boxes; `listing` has 8, the segments that boxes
// list, and the crate `loops` has 9.
#![tactic(auto)]

mod listing;

ghost use Rattle.std.specs.Prelude.{◌≡◌, ◌≤◌, false};
ghost use Rattle.rules.specs.Rows.{first, any_of, outside};
ghost use Rattle.rules.specs.Track.{track_in, way_in, runs_against, position_fits};
ghost use Rattle.rules.specs.Network.{ends_fault, segment_fault, plan_fault, plan_fault_at, network_rows};
ghost use Rattle.rules.specs.Placing.{without_place};
ghost use Rattle.rules.specs.Errors.{refused};

use columns::Columns;
use rules::{BoxPlan, FileError, Table};

// x is 0 or above n.
#[tactic(auto, unfolding(rules::specs::Rows::outside))]
pub fn outside(n: u8, x: u8) -> bool
    ensures { result ≡ outside n x }
{
    !(1..=n).contains(&x)
}

// A train of direction d runs against a segment of this way.
#[tactic(auto, unfolding(rules::specs::Track::runs_against))]
pub fn runs_against(d: u8, way: u8) -> bool
    ensures { result ≡ runs_against d way }
{
    if d == 0 { way == 2 } else { way == 1 }
}

// Code 6 at the ends of segment s.
#[tactic(auto, unfolding(rules::specs::Network::ends_fault))]
fn ends_faulty(m: u8, s: u8, columns: &Columns) -> bool
    ensures { result ≡ ends_fault m (track_in columns.now.a columns.now.b) s }
{
    let x = columns.a[usize::from(s)];
    let y = columns.b[usize::from(s)];
    outside(m, x) || outside(m, y) || x == y
}

// Code 6 at segment s: its ends, or a way above 2.
#[tactic(auto, unfolding(rules::specs::Network::segment_fault))]
fn segment_faulty(m: u8, s: u8, columns: &Columns) -> bool
    ensures { result ≡ segment_fault m (track_in columns.now.a columns.now.b) (way_in columns.now.ways) s }
{
    ends_faulty(m, s, columns) || columns.ways[usize::from(s)] > 2
}

// Code 6: some segment has an end at no box, both ends at one box, or a way that there is not.
fn some_segment_faulty(n: u8, m: u8, columns: &Columns) -> bool
    ensures { result ≡ any_of n (segment_fault m (track_in columns.now.a columns.now.b) (way_in columns.now.ways)) }
{
    // Over `1..=n` `any` takes more than twice as long.
    (0..n).any(|i| segment_faulty(m, i + 1, columns))
}

// A position that a box of this kind can have.
#[tactic(auto, unfolding(rules::specs::Track::position_fits, rules::specs::Track::is_point))]
pub fn position_fits(p: BoxPlan, x: u8) -> bool
    ensures { result ≡ position_fits p x }
{
    if p.kind == 2 {
        matches!(x, 1 | 2)
    } else {
        x == 0
    }
}

// Code 7 on one box: every box needs its stem, a link left too, a point all three, left and right not the same.
#[tactic(auto, unfolding(rules::specs::Network::plan_fault, rules::specs::Network::place_fault, rules::specs::Network::branches_fault, rules::specs::Track::is_point))]
fn plan_faulty(n: u8, p: BoxPlan) -> bool
    ensures { result ≡ plan_fault n p }
{
    let branches = match p.kind {
        0 => p.left != 0 || p.right != 0,
        1 => outside(n, p.left) || p.right != 0,
        2 => outside(n, p.left) || outside(n, p.right) || p.left == p.right,
        _ => true,
    };
    outside(n, p.stem) || branches || !position_fits(p, p.position)
}

// Code 7: some box is not as its kind asks.
fn some_plan_faulty(n: u8, m: u8, plans: &[BoxPlan; 96]) -> bool
    ensures value { result ≡ any_of m (plan_fault_at n plans.now) }
    ensures few { result ≡ false → m ≤ 96 }
{
    // Box 97 has no plan: it reads as one with segment 0 at its stem, which is at fault.
    let Some(plans) = plans.get(..usize::from(m)) else {
        return true;
    };
    plans.iter().any(|p| plan_faulty(n, *p))
}

// Codes 6 to 9 of a table with these columns.
#[tactic(auto, using(crate::proofs::Codes::codes))]
pub fn check_network(table: &Table, columns: &Columns) -> Result<(), FileError>
    ensures { let t = table.now in
        let track = track_in columns.now.a columns.now.b in
        refused result ≡ without_place (first (network_rows t.n t.m track (way_in columns.now.ways) t.boxes)) }
{
    let n = table.n;
    let m = table.m;
    let plans = &table.boxes;
    if some_segment_faulty(n, m, columns) {
        return Err(FileError::BadSegment);
    }
    if some_plan_faulty(n, m, plans) {
        return Err(FileError::BadBox);
    }
    let sides = listing::stem_sides(m, plans, columns);
    if listing::some_listing_faulty(m, plans, &sides, columns)
        || listing::some_unlisted(n, m, plans)
    {
        return Err(FileError::BadListing);
    }
    if loops::has_loop(n, m, plans, columns) {
        return Err(FileError::Loop);
    }
    Ok(())
}

// Code 8: the segments that boxes list. The number of boxes stands beside their plans, since the rules count by it (`any_of`, `place_count`).
ghost use Rattle.std.specs.Prelude.{◌≡◌, not, ◌+◌, ◌*◌, ◌≤◌, eqb, length, get_or, sum_by};
ghost use Rattle.rules.specs.Rows.{any_of, list_of, filled};
ghost use Rattle.rules.specs.Track.{track_in};
ghost use Rattle.rules.specs.StemSide.{stem_side, stem_side_at};
ghost use Rattle.network.specs.Sided.{branch_away, some_branch_away, sided_fault, sided_fault_at};
ghost use Rattle.network.specs.Places.{place_count};

use columns::Columns;
use rules::{BoxPlan, StemSide};

// The stem side of the box with this number, whose stem is segment s.
#[tactic(auto, unfolding(rules::specs::StemSide::stem_side, rules::specs::StemSide::is_side, rules::specs::Network::has_end_a, rules::specs::Network::has_end_b))]
fn stem_side(number: u8, s: u8, columns: &Columns) -> StemSide
    ensures { result ≡ stem_side (track_in columns.now.a columns.now.b) number s }
{
    if columns.a[usize::from(s)] == number {
        StemSide::AEnd
    } else if columns.b[usize::from(s)] == number {
        StemSide::BEnd
    } else {
        StemSide::Neither
    }
}

// The stem sides of boxes 1 .. m, each worked out once.
#[tactic(auto, using(rules::proofs::Rows::fill_none, rules::proofs::Rows::fill_more, crate::proofs::Sides::side_at))]
pub(crate) fn stem_sides(m: u8, plans: &[BoxPlan; 96], columns: &Columns) -> [StemSide; 96]
    requires { m ≤ 96 }
    ensures { result ≡ filled 96 StemSide.Neither (list_of m (stem_side_at (track_in columns.now.a columns.now.b) plans.now)) }
{
    let mut sides = [StemSide::Neither; 96];
    for (i, plan) in plans[..usize::from(m)].iter().enumerate() {
        sides[i] = stem_side(i as u8 + 1, plan.stem, columns);
    }
    sides
}

// The end of branch s that is asked for is not at the box; `ends` has the A ends or the B ends of segments.
#[tactic(auto, unfolding(crate::specs::Sided::branch_away))]
fn branch_away(number: u8, s: u8, ends: &[u8; 256]) -> bool
    ensures { result ≡ branch_away (λ x. get_or ends.now x 0) number s }
{
    s != 0 && ends[usize::from(s)] != number
}

// The same of the left or the right of a box.
#[tactic(auto, unfolding(crate::specs::Sided::some_branch_away))]
fn some_branch_away(number: u8, p: BoxPlan, ends: &[u8; 256]) -> bool
    ensures { result ≡ some_branch_away (λ x. get_or ends.now x 0) number p }
{
    branch_away(number, p.left, ends) || branch_away(number, p.right, ends)
}

// Code 8 at a box by its stem side.
#[tactic(auto, unfolding(crate::specs::Sided::sided_fault))]
fn listing_faulty(number: u8, p: BoxPlan, side: StemSide, columns: &Columns) -> bool
    ensures { result ≡ sided_fault (track_in columns.now.a columns.now.b) number p side }
{
    match side {
        StemSide::AEnd => some_branch_away(number, p, &columns.b),
        StemSide::BEnd => some_branch_away(number, p, &columns.a),
        StemSide::Neither => true,
    }
}

// Code 8 at the boxes, by their stem sides: some box lists a segment without an end there, or a branch on the stem's side.
pub(crate) fn some_listing_faulty(
    m: u8,
    plans: &[BoxPlan; 96],
    sides: &[StemSide; 96],
    columns: &Columns,
) -> bool
    requires { m ≤ 96 }
    ensures { result ≡ any_of m (sided_fault_at (track_in columns.now.a columns.now.b) plans.now sides.now) }
{
    plans[..usize::from(m)].iter().zip(sides).enumerate().any(|(i, (p, side))| {
        let number = i as u8 + 1;
        listing_faulty(number, *p, *side, columns)
    })
}

// How many places these boxes have: a border one, a link two, a point three.
fn places(plans: &[BoxPlan]) -> u16
    requires { length plans.now ≤ 96 }
    ensures { result ≡ sum_by (λ p. p.kind + 1) plans.now }
{
    plans.iter().map(|p| u16::from(p.kind) + 1).sum()
}

// Code 8 at the segments, where 6 and 7 have found nothing, and 8 nothing at the boxes: each place of a box is one end that is there, and
// no end has two. So some end of the n segments is not listed by its box exactly where the boxes do not have 2 n places.
#[tactic(auto, using(crate::proofs::Sums::places_taken))]
pub(crate) fn some_unlisted(n: u8, m: u8, plans: &[BoxPlan; 96]) -> bool
    requires { m ≤ 96 }
    ensures { result ≡ not (eqb (place_count m plans.now) (2 * n)) }
{
    places(&plans[..usize::from(m)]) != 2 * u16::from(n)
}

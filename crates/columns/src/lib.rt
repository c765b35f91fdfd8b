// A table as columns: what is looked up by the number of a segment or a box, without asking whether there is one.
#![tactic(auto)]

ghost use Rattle.std.specs.Prelude.{◌≡◌};
ghost use Rattle.rules.specs.Track.{track_of, track_in, way_of, way_in, point_at, point_in, far_box, near_box};
ghost use Rattle.columns.specs.Column.{column, kind_of};

use rules::{BoxPlan, Segment, Table};

// The boxes at the A ends and at the B ends of segments and the ways of segments, each by the segment's number, and the kinds of boxes by
// theirs; 0 where there is none. Four columns, and no array of segments or model: the rules ask for the track, the ways and the points apart
// (`track_in`, `way_in`, `point_in`).
#[derive(Drop)]
pub struct Columns {
    pub a: [u8; 256],
    pub b: [u8; 256],
    pub ways: [u8; 256],
    pub kinds: [u8; 256],
}

impl Columns {
    // The columns of a table.
    #[tactic(auto, using(crate::proofs::Tracks::filled))]
    pub fn of(table: &Table) -> Columns
        ensures a { result.a ≡ column (far_box (track_of table.now) 1) }
        ensures b { result.b ≡ column (far_box (track_of table.now) 0) }
        ensures ways { result.ways ≡ column (way_of table.now) }
        ensures kinds { result.kinds ≡ column (kind_of table.now.boxes) }
        // So what is decided on the columns is decided on the table.
        ensures track { track_in result.a result.b ≡ track_of table.now }
        ensures way { way_in result.ways ≡ way_of table.now }
        ensures points { point_in result.kinds ≡ point_at table.now }
    {
        // As slices, whose lengths the proof knows.
        let segments: &[Segment] = &table.segments;
        let plans: &[BoxPlan] = &table.boxes;
        let mut a = [0; 256];
        let mut b = [0; 256];
        let mut ways = [0; 256];
        for (i, segment) in segments.iter().enumerate() {
            a[i + 1] = segment.a;
            b[i + 1] = segment.b;
            ways[i + 1] = segment.way;
        }
        let mut kinds = [0; 256];
        for (j, plan) in plans.iter().enumerate() {
            kinds[j + 1] = plan.kind;
        }
        Columns { a, b, ways, kinds }
    }

    // The box at the far end of segment s in direction d.
    #[tactic(auto, unfolding(rules::specs::Track::far_box))]
    pub fn far(&self, d: u8, s: u8) -> u8
        ensures { result ≡ far_box (track_in self.now.a self.now.b) d s }
    {
        let ends = if d == 0 { &self.b } else { &self.a };
        ends[s as usize]
    }

    // The box at its near end. One function for both ends would take a flag for which.
    #[tactic(auto, unfolding(rules::specs::Track::near_box))]
    pub fn near(&self, d: u8, s: u8) -> u8
        ensures { result ≡ near_box (track_in self.now.a self.now.b) d s }
    {
        let ends = if d == 0 { &self.a } else { &self.b };
        ends[s as usize]
    }
}

// The boxes and the trains of the line at its start, by a table and columns.
ghost use Rattle.std.specs.Prelude.{◌≡◌, ◌≤◌};
ghost use Rattle.rules.specs.Rows.{list_of, filled};
ghost use Rattle.rules.specs.Track.{track_in};
ghost use Rattle.rules.specs.Line.{no_box, no_train, start_train};
ghost use Rattle.reading.specs.Start.{free_box_at, boxes_after};

use columns::Columns;
use rules::{BoxPlan, SwitchBox, Table, Train, TrainPlan};

// The trains: single on their first segments, nothing recorded, no message. Trains and boxes have a loop each, and `rules` has no From for
// them: it is the start of this plan, and one function for both would take a closure and two types for three lines.
#[tactic(auto, using(rules::proofs::Rows::fill_none, crate::proofs::Begin::train_started))]
pub(crate) fn trains(k: u8, plans: &[TrainPlan; 16]) -> [Train; 16]
    requires { k ≤ 16 }
    ensures { result ≡ filled 16 no_train (list_of k (start_train plans.now)) }
{
    let mut all = [Train::default(); 16];
    for (i, plan) in plans[..usize::from(k)].iter().enumerate() {
        all[i] = Train {
            direction: plan.direction,
            length: plan.length,
            place: 1,
            covered: 1,
            ..Train::default()
        };
    }
    all
}

// The boxes with their positions, all else free and passive.
#[tactic(auto, using(rules::proofs::Rows::fill_none, crate::proofs::Begin::box_started))]
fn free_boxes(m: u8, plans: &[BoxPlan; 96]) -> [SwitchBox; 96]
    requires { m ≤ 96 }
    ensures { result ≡ filled 96 no_box (list_of m (free_box_at plans.now)) }
{
    let mut all = [SwitchBox::default(); 96];
    for (i, plan) in plans[..usize::from(m)].iter().enumerate() {
        all[i] = SwitchBox {
            position: plan.position,
            ..SwitchBox::default()
        };
    }
    all
}

// The boxes, with the first segment of each train reserved at the box ahead of it.
#[tactic(auto, using(crate::proofs::Begin::none_yet, crate::proofs::Begin::turn_here, crate::proofs::Begin::turn_nowhere), unfolding(rules::specs::Rows::outside))]
pub(crate) fn boxes(table: &Table, columns: &Columns) -> [SwitchBox; 96]
    requires m_bound { table.now.m ≤ 96 }
    requires k_bound { table.now.k ≤ 16 }
    ensures { result ≡ boxes_after table.now.m (track_in columns.now.a columns.now.b) table.now.boxes table.now.trains table.now.routes table.now.k }
{
    let mut all = free_boxes(table.m, &table.boxes);
    for (i, plan) in table.trains[..usize::from(table.k)].iter().enumerate() {
        let number = i as u8 + 1;
        let first = placing::segment_at(&table.routes, number, 1);
        let ahead = columns.far(plan.direction, first);
        if !network::outside(table.m, ahead) {
            let at = usize::from(ahead - 1);
            all[at] = switchbox::set_holder(table.boxes[at], all[at], first, number);
        }
    }
    all
}

// Code 27 at the boxes of a line.
ghost use Rattle.std.specs.Prelude.{◌≡◌, ◌||◌, ltb};
ghost use Rattle.rules.specs.Record.{switch_box_fault, switch_boxes_fault};

use rules::{BoxPlan, Line, SwitchBox};

// Code 27 at a box with this plan, on a line with k trains.
#[tactic(auto, unfolding(rules::specs::Record::switch_box_fault))]
fn box_record_faulty(k: u8, p: BoxPlan, x: SwitchBox) -> bool
    ensures { result ≡ switch_box_fault k p x }
{
    !network::position_fits(p, x.position) || x.lock > k || x.stem > k || x.left > k || x.right > k
}

// Code 27 at the boxes of a line: there is no room for so many, or one of them is at fault.
pub fn some_box_record_faulty(line: &Line) -> bool
    ensures { let t = line.now.table in result ≡ (ltb 96 t.m || switch_boxes_fault t.k t.m t.boxes line.now.boxes) }
{
    let k = line.table.k;
    let m = line.table.m;
    // As slices, whose lengths the proof knows.
    let plans: &[BoxPlan] = &line.table.boxes;
    let boxes: &[SwitchBox] = &line.boxes;
    m > 96
        || plans
            .iter()
            .take(m as usize)
            .zip(boxes)
            .any(|(p, x)| box_record_faulty(k, *p, *x))
}

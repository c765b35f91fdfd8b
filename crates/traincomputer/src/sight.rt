// What stands around a train.
ghost use Rattle.std.specs.Prelude.{◌≡◌};
ghost use Rattle.traincomputer.specs.Sight.{around_in};

use columns::Columns;
use placing::segment_at;
use rules::{Around, Train};

// What stands around the train with this number and record: by the routes in force, and by the columns of its table.
#[tactic(auto, unfolding(rules::specs::Line::around_on))]
pub fn around(number: u8, r: Train, routes: &[u8; 1024], columns: &Columns) -> Around
    ensures { result ≡ around_in columns.now.a columns.now.b columns.now.ways columns.now.kinds routes.now number r }
{
    let d = r.direction;
    let place = r.place as usize;
    let covered = r.covered as usize;
    let front = segment_at(routes, number, place);
    let next = segment_at(routes, number, place + 1);
    let tail = segment_at(routes, number, (place + 1).saturating_sub(covered));
    let ahead = columns.far(d, front);
    Around {
        number,
        front,
        next,
        tail,
        second: segment_at(routes, number, (place + 2).saturating_sub(covered)),
        against: network::runs_against(d, columns.ways[next as usize]),
        ahead,
        point: columns.kinds[ahead as usize] == 2,
        near_end: columns.near(d, next),
        far_end: columns.far(d, next),
        passed: columns.far(d, tail),
    }
}

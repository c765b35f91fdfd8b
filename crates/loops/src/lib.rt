// Code 9: a loop. Boxes get ranks that are to rise along every segment from its A end to its B end. They are guessed by an order
// in which every box comes after those that lead to it, and then raised where they do not rise, until they all do or one is too
// high for a line without a loop. The guess is right where code 8 passed and there is no loop, so that one pass is enough; that
// the answer is right does not rest on it.
#![tactic(auto)]

ghost use Rattle.std.specs.Prelude.{◌≡◌, ◌<◌, ◌≤◌};
ghost use Rattle.rules.specs.Track.{track_in};
ghost use Rattle.rules.specs.Loop.{has_loop};
ghost use Rattle.loops.specs.Ranks.{Low, Reached, Ended};

use columns::Columns;
use rules::BoxPlan;

// Boxes by number, in an order that is still read while it grows. One method is all that it needs of the kit's `ArrayVec`.
#[derive(Drop)]
struct Order {
    boxes: [u8; 96],
    known: usize,
    ghost within: { known ≤ 96 },
}

impl Order {
    // The next box of the order, where there is room for it.
    fn push(&mut self, number: u8) {
        if self.known < 96 {
            self.boxes[self.known] = number;
            self.known += 1;
        }
    }
}

// How many segments have their B end at each box.
fn entries(n: u8, columns: &Columns) -> [u8; 256] {
    let mut count = [0u8; 256];
    for s in 1..=n {
        let x = columns.b[s as usize] as usize;
        count[x] = count[x].wrapping_add(1);
    }
    count
}

// The boxes of 1 .. m that no segment leads to.
fn sources(m: u8, count: &[u8; 256]) -> Order {
    let mut order = Order {
        boxes: [0; 96],
        known: 0,
    };
    for number in 1..=m {
        if count[number as usize] == 0 {
            order.push(number);
        }
    }
    order
}

// The box that segment s leads to from box `number`.
fn leads_to(number: u8, s: u8, columns: &Columns) -> Option<u8> {
    (s != 0 && columns.a[s as usize] == number).then_some(columns.b[s as usize])
}

// Box b has one entry less, and with none left it is next in the order.
fn release(b: u8, count: &mut [u8; 256], order: &mut Order) {
    let i = b as usize;
    count[i] = count[i].wrapping_sub(1);
    if count[i] == 0 {
        order.push(b);
    }
}

// A rank for each box: its place in the order, and 96 for those that the order does not come to.
#[tactic(auto, using(crate::proofs::Rising::low_start, crate::proofs::Rising::low_set))]
fn guess(n: u8, m: u8, plans: &[BoxPlan; 96], columns: &Columns) -> [u16; 256]
    ensures { Low result }
{
    let mut count = entries(n, columns);
    let mut order = sources(m, &count);
    let mut ranks = [96u16; 256];
    for rank in 0..96u16 {
        let Some(&number) = order.boxes[..order.known].get(rank as usize) else {
            break;
        };
        ranks[number as usize] = rank;
        if let Some(plan) = plans.get((number as usize).wrapping_sub(1)) {
            for s in [plan.stem, plan.left, plan.right] {
                if let Some(next) = leads_to(number, s, columns) {
                    release(next, &mut count, &mut order);
                }
            }
        }
    }
    ranks
}

// What a pass over all segments ends in: the ranks rise along all of them, some rank was raised, or one would be higher than in
// any line without a loop. Three cases, none of them a failure: neither an Option nor a Result.
#[derive(Clone, Copy)]
enum Pass {
    Rising,
    Raised,
    TooHigh,
}

// One pass: along each segment in turn, the rank at its B end is raised above the one at its A end, where it is not so already.
fn raise(n: u8, columns: &Columns, ranks: &mut [u16; 256]) -> Pass
    requires { Reached n (track_in columns.now.a columns.now.b) ranks.old }
    ensures { Ended n (track_in columns.now.a columns.now.b) ranks.old ranks.new result }
{
    let highest = n as u16 + 96;
    let mut pass = Pass::Rising;
    for s in 1..=n {
        let x = columns.a[s as usize] as usize;
        let y = columns.b[s as usize] as usize;
        let rank = ranks[x];
        if ranks[y] <= rank {
            if rank >= highest {
                return Pass::TooHigh;
            }
            ranks[y] = rank + 1;
            pass = Pass::Raised;
        }
    }
    pass
}

// Code 9: some list of segments closes a loop.
#[tactic(auto, using(crate::proofs::Rising::passes))]
pub fn has_loop(n: u8, m: u8, plans: &[BoxPlan; 96], columns: &Columns) -> bool
    ensures { result ≡ has_loop n (track_in columns.now.a columns.now.b) }
{
    let mut ranks = guess(n, m, plans, columns);
    // As many passes as it takes: no number is gone through.
    loop {
        match raise(n, columns, &mut ranks) {
            Pass::Rising => return false,
            Pass::TooHigh => return true,
            Pass::Raised => {}
        }
    }
}

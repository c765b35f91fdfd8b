// The records of a line: the table that the railway writes, and the switch boxes and trains that run by it.
// What they mean and every rule over them is in specs/, which begins with specs/Lib.antt. There is no code here but the numbers of errors.
// Segments, boxes and trains are numbered from 1; record i of an array is the one numbered i + 1.
// Kinds, ways, positions, directions, holders and the codes of answers are bytes here, and no enums: a record may hold any of them, and
// `table_refusal` and `record_fault` (codes 6, 7, 10 and 27) say of any record which a line can have. 0 is no box, no segment, nobody.
#![tactic(auto)]

mod errors;

pub use errors::{Denial, FileError, RoutePlace, StepError};

// A segment: the box at its A end, the box at its B end, and the way in which trains pass it: 0 both ways, 1 from A to B only, 2 from
// B to A only.
#[derive(Clone, Copy, Default)]
pub struct Segment {
    pub a: u8,
    pub b: u8,
    pub way: u8,
}

// A switch box in the table: its kind (0 border, 1 link, 2 point), the segments at its three places, and its position
// (01: lie) at the start: 0, or at a point 1 (stem to left) or 2 (stem to right).
#[derive(Clone, Copy, Default)]
pub struct BoxPlan {
    pub kind: u8,
    pub stem: u8,
    pub left: u8,
    pub right: u8,
    pub position: u8,
}

// Which end of a box's stem segment is at the box: neither, its A end, or its B end. The first is what is read where there is no box. It is
// no Option of an end: `is_side` and `stem_side` (specs/StemSide.antt) name its three cases.
#[derive(Clone, Copy, Default)]
pub enum StemSide {
    #[default]
    Neither,
    AEnd,
    BEnd,
}

// A train in the table: its direction (0 from A ends to B ends, 1 back) and its route's length.
#[derive(Clone, Copy, Default)]
pub struct TrainPlan {
    pub direction: u8,
    pub length: u8,
}

// The table as read, which no step changes. The routes have 64 places a train, in one flat array: 01 names that form.
#[derive(Clone, Copy, Default)]
pub struct Table {
    pub version: u16,
    pub n: u8,
    pub m: u8,
    pub k: u8,
    pub segments: [Segment; 96],
    pub boxes: [BoxPlan; 96],
    pub trains: [TrainPlan; 16],
    pub routes: [u8; 1024],
}

// A switch box on the line: whether its sensor is active, its position (01: lie), the train that holds its lock, and for
// each of its places the train that the segment there is reserved for. Nobody is 0.
#[derive(Clone, Copy, Default)]
pub struct SwitchBox {
    pub sensor: bool,
    pub position: u8,
    pub lock: u8,
    pub stem: u8,
    pub left: u8,
    pub right: u8,
}

// What a train may hold at the box with this number: the reservation of its next segment, or the lock.
#[derive(Clone, Copy)]
pub enum Holding {
    NextAt(u8),
    LockAt(u8),
}

// What a train asks of a box, with the box's number: a reservation of the train's next segment (kind 1), the lock (kind 2); and to
// take back that reservation (kind 7) or the lock (kind 8).
#[derive(Clone, Copy)]
pub enum Request {
    Reserve(u8),
    Lock(u8),
    GiveBack(u8),
    Unlock(u8),
}

// A train's one message: none, a request under way to its box, the box's answer under way back, with its code, or a request of which
// nothing is under way: it was lost, or its answer was.
#[derive(Clone, Copy, Default)]
pub enum Message {
    #[default]
    Idle,
    Sent(Request),
    Answered(Request, u8),
    Lost(Request),
}

// A train on the line: its direction and its route's length as they stand; the place of its front on that route, counted
// from 1, and how many segments it covers; what it has recorded of its next segment: reserved at the near end, at the far
// end, and the lock of the box ahead; and its message.
#[derive(Clone, Copy, Default)]
pub struct Train {
    pub direction: u8,
    pub length: u8,
    pub place: u8,
    pub covered: u8,
    pub near: bool,
    pub far: bool,
    pub lock: bool,
    pub message: Message,
}

// A line: the table as read, and the boxes, trains and routes as they stand.
#[derive(Clone, Copy, Default)]
pub struct Line {
    pub table: Table,
    pub boxes: [SwitchBox; 96],
    pub trains: [Train; 16],
    pub routes: [u8; 1024],
}

// What stands around a train: its number; the segments at its front, next after it, at its tail and next after the tail (the
// front again where two are covered); whether the train runs against the way of next; the box ahead of the front and whether it is a
// point; the boxes at the near and the far end of next; and the box between the tail and the segment after it, which is passed when the
// tail is cleared. 0 where there is none, as `around_on` has it.
#[derive(Clone, Copy, Default)]
pub struct Around {
    pub number: u8,
    pub front: u8,
    pub next: u8,
    pub tail: u8,
    pub second: u8,
    pub against: bool,
    pub ahead: u8,
    pub point: bool,
    pub near_end: u8,
    pub far_end: u8,
    pub passed: u8,
}

// What a call on a line ends in: a code, and the line after it. It is no Result: a box's no is a code, and changes the line
// (`checked_step`).
#[derive(Clone, Copy)]
pub struct Outcome {
    pub code: u8,
    pub line: Line,
}

// What a step does to its train and to the box that it concerns, where it is not refused: a code, and the train and the box after it. The
// code is 0, a box's no, which changes the train, or what a train hears, any byte that its message holds.
#[derive(Clone, Copy)]
pub struct Changed {
    pub code: u8,
    pub train: Train,
    pub switchbox: SwitchBox,
}

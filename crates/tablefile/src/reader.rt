// The table reader (01, "Table file"): the lent bytes of a file together with the place of its next record. It is made behind the head;
// its methods leave the work to functions of `records` on the slice and the place. The last three have plain parameters: whoever calls
// them knows nothing of the reader.
#![tactic(auto, using(crate::proofs::Parts::places))]

ghost use Rattle.std.specs.Prelude.{◌≡◌, ◌+◌, ◌*◌, ◌≤◌, ◌<◌, ◌^◌, eqb, length};
ghost use Rattle.rules.specs.File.{trains_from, file_length, decode, route_start, route_in};
ghost use Rattle.tablefile.specs.Whole.{Whole, segments_of, boxes_of, trains_of, routes_of};
ghost use Rattle.tablefile.specs.Places.{AtSegments, AtBoxes, AtTrains, TrainsAt, HasTrain};
ghost use Rattle.tablefile.specs.Part.{pointer_after, RestOf};

use crate::head::Head;
use crate::records;
use rules::{BoxPlan, Segment, Table, TrainPlan};

#[derive(Clone, Copy)]
struct TableReader<'a> {
    bytes: &'a [u8],
    at: usize,
}

impl<'a> TableReader<'a> {
    // The reader of a file, at its first record, behind the head.
    fn new(bytes: &'a [u8]) -> Self
        ensures { (result.bytes ≡ bytes.entry) × (result.at ≡ 8) }
    {
        Self { bytes, at: 8 }
    }

    // The reader past records of this size, so many of them.
    fn past(self, size: u8, count: u8) -> Self
        requires { self.at < 2 ^ 32 }
        ensures { (result.bytes ≡ self.entry.bytes) × (result.at ≡ self.entry.at + size * count) }
    {
        Self {
            at: records::after(self.at, size, count),
            ..self
        }
    }

    // The reader past the first `count` train records, each as long as its route asks for.
    fn past_trains(self, count: u8) -> Self
        requires { TrainsAt self.bytes.now self.at }
        ensures { (result.bytes ≡ self.entry.bytes) × (result.at ≡ trains_from self.entry.bytes.now count) }
    {
        Self {
            at: records::after_trains(self.bytes, self.at, count),
            ..self
        }
    }

    // The segments, from a reader that stands at their first record.
    fn segments(self) -> [Segment; 96]
        requires { AtSegments self.bytes.now self.at }
        ensures { result ≡ segments_of self.entry.bytes.now }
    {
        records::segments(self.bytes, self.at)
    }

    // The boxes, likewise.
    fn boxes(self) -> [BoxPlan; 96]
        requires { AtBoxes self.bytes.now self.at }
        ensures { result ≡ boxes_of self.entry.bytes.now }
    {
        records::boxes(self.bytes, self.at)
    }

    // The trains without their routes, likewise.
    fn trains(self) -> [TrainPlan; 16]
        requires { AtTrains self.bytes.now self.at }
        ensures { result ≡ trains_of self.entry.bytes.now }
    {
        records::trains(self.bytes, self.at)
    }

    // The routes, from a reader that stands at the first train record.
    fn routes(self) -> [u8; 1024]
        requires { AtTrains self.bytes.now self.at }
        ensures { result ≡ routes_of self.entry.bytes.now }
    {
        records::routes(self.bytes, self.at)
    }

    // The reader stands at the end of the file.
    fn at_end(self) -> bool
        ensures { result ≡ eqb (length self.entry.bytes.now) self.entry.at }
    {
        records::ends(self.bytes, self.at)
    }

    // What is left of the file.
    fn left(self) -> &'a [u8]
        requires { self.at ≤ length self.bytes.now }
        ensures { RestOf self.entry.bytes self.entry.at result }
    {
        records::rest(self.bytes, self.at)
    }
}

// The reader behind the first `count` train records of a file.
fn behind_trains(bytes: &[u8], count: u8) -> TableReader<'_>
    requires { 8 ≤ length bytes.now }
    ensures { (result.bytes ≡ bytes.entry) × (result.at ≡ trains_from bytes.now count) }
{
    let head = Head::of(bytes);
    TableReader::new(bytes)
        .past(head.segment_size(), head.n)
        .past(5, head.m)
        .past_trains(count)
}

// The table record of a whole file.
pub(crate) fn table(bytes: &[u8]) -> Table
    requires { Whole bytes.now }
    ensures { result ≡ decode bytes.now }
{
    let head = Head::of(bytes);
    let at_segments = TableReader::new(bytes);
    let at_boxes = at_segments.past(head.segment_size(), head.n);
    let at_trains = at_boxes.past(5, head.m);
    Table {
        version: head.version,
        n: head.n,
        m: head.m,
        k: head.k,
        segments: at_segments.segments(),
        boxes: at_boxes.boxes(),
        trains: at_trains.trains(),
        routes: at_trains.routes(),
    }
}

// The file ends where its last train record ends.
#[tactic(auto, unfolding(rules::specs::File::file_length))]
pub(crate) fn ends_with_trains(bytes: &[u8]) -> bool
    requires { 8 ≤ length bytes.now }
    ensures { result ≡ eqb (length bytes.now) (file_length bytes.now) }
{
    behind_trains(bytes, Head::of(bytes).k).at_end()
}

// The route of a train as a part of the file.
pub(crate) fn route(bytes: &[u8], number: u8) -> &[u8]
    requires { HasTrain bytes.now number }
    ensures ref_ptr_value { result.ref_ptr ≡ pointer_after bytes.entry.ref_ptr (route_start bytes.now number) }
    ensures result_value { result.now ≡ route_in bytes.now number }
{
    let rest = behind_trains(bytes, number - 1).left();
    let end = 2 + usize::from(rest[1]);
    &rest[2..end]
}

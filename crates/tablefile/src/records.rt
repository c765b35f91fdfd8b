// The records of a file, by its bytes and the place at which they begin. Places of the arrays beyond them are 0. Box records are chunks of
// five bytes; the other loops go by the index of a record, which its place follows from: records of segments have two bytes or three, and
// those of trains are as long as their routes.
#![tactic(auto, using(crate::proofs::Parts::records), unfolding(crate::specs::Whole::segments_of, crate::specs::Whole::boxes_of, crate::specs::Whole::trains_of, crate::specs::Whole::routes_of))]

ghost use Rattle.std.specs.Prelude.{◌≡◌, ◌+◌, ◌*◌, ◌≤◌, ◌<◌, ◌^◌, eqb, length};
ghost use Rattle.rules.specs.File.{segment_size, byte_at, trains_from, segment_from};
ghost use Rattle.tablefile.specs.Whole.{segments_of, boxes_of, trains_of, routes_of};
ghost use Rattle.tablefile.specs.Places.{AtSegments, AtBoxes, AtTrains, TrainsAt};
ghost use Rattle.tablefile.specs.Part.{RestOf};

use crate::head::Head;
use rules::{BoxPlan, Segment, TrainPlan};

// The segment whose record of this version begins at a place.
#[tactic(auto, unfolding(rules::specs::File::segment_from, rules::specs::File::segment_size, rules::specs::File::byte_at))]
fn segment(bytes: &[u8], version: u16, at: usize) -> Segment
    requires { at + segment_size version ≤ length bytes.now }
    ensures { result ≡ segment_from bytes.now version at }
{
    Segment {
        a: bytes[at],
        b: bytes[at + 1],
        way: if layout::has_ways(version) {
            bytes[at + 2]
        } else {
            0
        },
    }
}

// The segments, of which the first begins at `from`.
pub(crate) fn segments(bytes: &[u8], from: usize) -> [Segment; 96]
    requires { AtSegments bytes.now from }
    ensures { result ≡ segments_of bytes.now }
{
    let head = Head::of(bytes);
    let n = usize::from(head.n);
    let size = usize::from(head.segment_size());
    let mut all = [Segment::default(); 96];
    for i in 0..n {
        all[i] = segment(bytes, head.version, from + size * i);
    }
    all
}

// The boxes, of which the first begins at `from`.
pub(crate) fn boxes(bytes: &[u8], from: usize) -> [BoxPlan; 96]
    requires { AtBoxes bytes.now from }
    ensures { result ≡ boxes_of bytes.now }
{
    let m = usize::from(Head::of(bytes).m);
    let (records, _) = bytes[from..from + 5 * m].as_chunks::<5>();
    let mut all = [BoxPlan::default(); 96];
    for (i, &[kind, stem, left, right, position]) in records.iter().enumerate() {
        all[i] = BoxPlan {
            kind,
            stem,
            left,
            right,
            position,
        };
    }
    all
}

// The trains without their routes; the first record begins at `from`.
pub(crate) fn trains(bytes: &[u8], from: usize) -> [TrainPlan; 16]
    requires { AtTrains bytes.now from }
    ensures { result ≡ trains_of bytes.now }
{
    let k = usize::from(Head::of(bytes).k);
    let mut all = [TrainPlan::default(); 16];
    let mut at = from;
    for i in 0..k {
        let length = bytes[at + 1];
        all[i] = TrainPlan {
            direction: bytes[at],
            length,
        };
        at += 2 + usize::from(length);
    }
    all
}

// The routes, 64 places a train; the first train's record begins at `from`. Of a longer route, which is refused by its length, 64
// segments are kept.
pub(crate) fn routes(bytes: &[u8], from: usize) -> [u8; 1024]
    requires { AtTrains bytes.now from }
    ensures { result ≡ routes_of bytes.now }
{
    let k = usize::from(Head::of(bytes).k);
    let mut all = [0; 1024];
    let mut at = from;
    for i in 0..k {
        let length = usize::from(bytes[at + 1]);
        let kept = length.min(64);
        let route = &bytes[at + 2..at + 2 + kept];
        all[64 * i..64 * i + kept].copy_from_slice(route);
        at += 2 + length;
    }
    all
}

// The place past records of this size, so many of them.
pub(crate) fn after(at: usize, size: u8, count: u8) -> usize
    requires { at < 2 ^ 32 }
    ensures { result ≡ at + size * count }
{
    at + usize::from(size) * usize::from(count)
}

// Byte i of a file, 0 past its end.
#[tactic(auto, unfolding(rules::specs::File::byte_at))]
fn byte_at(bytes: &[u8], i: usize) -> u8
    ensures { result ≡ byte_at bytes.now i }
{
    bytes.get(i).copied().unwrap_or(0)
}

// The place past the first `count` train records, of which the first begins at `from`. The file may end before it.
#[tactic(auto, using(crate::proofs::Parts::records), unfolding(rules::specs::File::byte_at))]
pub(crate) fn after_trains(bytes: &[u8], from: usize, count: u8) -> usize
    requires { TrainsAt bytes.now from }
    ensures { result ≡ trains_from bytes.now count }
{
    let mut at = from;
    for _ in 0..count {
        at += 2 + usize::from(byte_at(bytes, at + 1));
    }
    at
}

// The file ends at a place.
pub(crate) fn ends(bytes: &[u8], at: usize) -> bool
    ensures { result ≡ eqb (length bytes.now) at }
{
    bytes.len() == at
}

// The file from a place on.
pub(crate) fn rest(bytes: &[u8], at: usize) -> &[u8]
    requires { at ≤ length bytes.now }
    ensures { RestOf bytes.entry at result }
{
    &bytes[at..]
}

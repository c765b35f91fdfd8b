// Changes of a line record, one field each. A change is four bytes: the part of the record, the index of its record there, the
// field, and the value that it gets. A change of a part, an index or a field that is not there does nothing.
use rules::{BoxPlan, Line, Message, Request, Segment, SwitchBox, Table, Train, TrainPlan};

// The line after all these changes.
pub(crate) fn altered(mut line: Line, changes: &[u8]) -> Line {
    for [part, index, field, value] in changes.as_chunks::<4>().0 {
        change(&mut line, *part, *index, *field, *value);
    }
    line
}

// One change: of the boxes, trains, messages and routes as they stand, or of the table.
fn change(line: &mut Line, part: u8, index: u8, field: u8, value: u8) {
    match part {
        b'b' => set_at(&mut line.boxes, index, field, value),
        b't' => set_at(&mut line.trains, index, field, value),
        b'm' => {
            if let Some(train) = line.trains.get_mut(usize::from(index)) {
                train.message.set(field, value);
            }
        }
        b'R' => set_place(&mut line.routes, index, field, value),
        b'h' => line.table.set(field, value),
        b's' => set_at(&mut line.table.segments, index, field, value),
        b'p' => set_at(&mut line.table.boxes, index, field, value),
        b'd' => set_at(&mut line.table.trains, index, field, value),
        b'r' => set_place(&mut line.table.routes, index, field, value),
        _ => {}
    }
}

// A record with numbered fields, from 0.
trait Fields {
    fn set(&mut self, field: u8, value: u8);
}

fn set_at<R: Fields>(records: &mut [R], index: u8, field: u8, value: u8) {
    if let Some(record) = records.get_mut(usize::from(index)) {
        record.set(field, value);
    }
}

// The segment at a place, from 0, of a train's route.
fn set_place(routes: &mut [u8; 1024], index: u8, place: u8, value: u8) {
    if place < 64 {
        if let Some(segment) = routes.get_mut(64 * usize::from(index) + usize::from(place)) {
            *segment = value;
        }
    }
}

// The high and the low byte of the version, n, m and k.
impl Fields for Table {
    fn set(&mut self, field: u8, value: u8) {
        let [high, low] = self.version.to_be_bytes();
        match field {
            0 => self.version = u16::from_be_bytes([value, low]),
            1 => self.version = u16::from_be_bytes([high, value]),
            2 => self.n = value,
            3 => self.m = value,
            4 => self.k = value,
            _ => {}
        }
    }
}

// A segment's A end, B end and way.
impl Fields for Segment {
    fn set(&mut self, field: u8, value: u8) {
        match field {
            0 => self.a = value,
            1 => self.b = value,
            2 => self.way = value,
            _ => {}
        }
    }
}

// A box in the table: kind, stem, left, right, position.
impl Fields for BoxPlan {
    fn set(&mut self, field: u8, value: u8) {
        match field {
            0 => self.kind = value,
            1 => self.stem = value,
            2 => self.left = value,
            3 => self.right = value,
            4 => self.position = value,
            _ => {}
        }
    }
}

// A train in the table: direction and length.
impl Fields for TrainPlan {
    fn set(&mut self, field: u8, value: u8) {
        match field {
            0 => self.direction = value,
            1 => self.length = value,
            _ => {}
        }
    }
}

// A switch box: sensor (0 passive), position, lock, and the holders at stem, left and right.
impl Fields for SwitchBox {
    fn set(&mut self, field: u8, value: u8) {
        match field {
            0 => self.sensor = value != 0,
            1 => self.position = value,
            2 => self.lock = value,
            3 => self.stem = value,
            4 => self.left = value,
            5 => self.right = value,
            _ => {}
        }
    }
}

// A train: direction, length, place, covered, and whether near end, far end and lock are recorded (0 not).
impl Fields for Train {
    fn set(&mut self, field: u8, value: u8) {
        match field {
            0 => self.direction = value,
            1 => self.length = value,
            2 => self.place = value,
            3 => self.covered = value,
            4 => self.near = value != 0,
            5 => self.far = value != 0,
            6 => self.lock = value != 0,
            _ => {}
        }
    }
}

// None; a reservation or a lock of box `value`, sent; the same, answered yes; the answer's code; a reservation or a lock given back to
// box `value`, sent; the same, answered yes; or any of these four, lost.
impl Fields for Message {
    fn set(&mut self, field: u8, value: u8) {
        *self = match field {
            0 => Message::Idle,
            1 => Message::Sent(Request::Reserve(value)),
            2 => Message::Sent(Request::Lock(value)),
            3 => Message::Answered(Request::Reserve(value), 0),
            4 => Message::Answered(Request::Lock(value), 0),
            5 => match *self {
                Message::Answered(request, _) => Message::Answered(request, value),
                other => other,
            },
            6 => Message::Sent(Request::GiveBack(value)),
            7 => Message::Sent(Request::Unlock(value)),
            8 => Message::Answered(Request::GiveBack(value), 0),
            9 => Message::Answered(Request::Unlock(value), 0),
            10 => Message::Lost(Request::Reserve(value)),
            11 => Message::Lost(Request::Lock(value)),
            12 => Message::Lost(Request::GiveBack(value)),
            13 => Message::Lost(Request::Unlock(value)),
            _ => return,
        };
    }
}

// A line's trains and boxes as text: 11 bytes a train and 6 a box, in hexadecimal, with a colon between trains and boxes.
use crate::text::Hex;
use rules::{Line, Message, Request, SwitchBox, Train};
use std::fmt;

// The trains 1 to k and the boxes 1 to m, as far as there are records.
#[derive(Clone, Copy)]
pub(crate) struct Numbers<'a>(pub(crate) &'a Line);

impl fmt::Display for Numbers<'_> {
    fn fmt<W: fmt::Write>(&self, f: &mut fmt::Formatter<W>) -> fmt::Result {
        let line = self.0;
        for train in line.trains.iter().take(usize::from(line.table.k)) {
            write!(f, "{}", Hex(&train_numbers(train)))?;
        }
        write!(f, ":")?;
        for switchbox in line.boxes.iter().take(usize::from(line.table.m)) {
            write!(f, "{}", Hex(&box_numbers(switchbox)))?;
        }
        Ok(())
    }
}

// Direction, length, place, covered, near, far, lock; and the message.
fn train_numbers(train: &Train) -> [u8; 11] {
    let [state, kind, number, code] = message_numbers(train.message);
    [
        train.direction,
        train.length,
        train.place,
        train.covered,
        u8::from(train.near),
        u8::from(train.far),
        u8::from(train.lock),
        state,
        kind,
        number,
        code,
    ]
}

// Sensor, position, lock, and the holders at stem, left and right.
fn box_numbers(switchbox: &SwitchBox) -> [u8; 6] {
    [
        u8::from(switchbox.sensor),
        switchbox.position,
        switchbox.lock,
        switchbox.stem,
        switchbox.left,
        switchbox.right,
    ]
}

// A message's state (0 none, 1 sent, 2 answered, 3 lost), and its request's kind and box and its answer, 0 where there is none.
fn message_numbers(message: Message) -> [u8; 4] {
    let (state, request, code) = match message {
        Message::Idle => return [0; 4],
        Message::Sent(request) => (1, request, 0),
        Message::Answered(request, code) => (2, request, code),
        Message::Lost(request) => (3, request, 0),
    };
    let (kind, number) = match request {
        Request::Reserve(number) => (1, number),
        Request::Lock(number) => (2, number),
        Request::GiveBack(number) => (7, number),
        Request::Unlock(number) => (8, number),
    };
    [state, kind, number, code]
}

// Lines of the text, each of at most 18 bytes, and the lines of all steps, trains and boxes, one after the other.
ghost use Rattle.std.specs.Prelude.{◌≡◌, ◌+◌, ◌*◌, ◌≤◌, ◌<◌, cond, ◌∷◌, ◌++◌, [], length, map, get_or};
ghost use Rattle.rules.specs.Rows.{join_of};
ghost use Rattle.rules.specs.Errors.{refusal_of};
ghost use Rattle.rules.specs.Placing.{tells_place};
ghost use Rattle.rules.specs.Run.{step_count};
ghost use Rattle.rules.specs.Printout.{bytes_of, decimal, text_line, step_line, step_line_of, train_line, box_line, line_text, file_line};
ghost use Rattle.writing.specs.Written.{HasRoom, Written};
ghost use Rattle.printout.specs.Short.{Short, tail_in, train_words, box_words};

use itoa::write_digits;
use rules::{FileError, Line, SwitchBox, Train};
use writing::Pen;

// A number's digits, by `itoa`, at the end of five bytes: of a `write!` no clause says that it is `Ok`, and a `Buffer` of `itoa` has 40
// bytes, which take longer to clear than the digits to write.
#[tactic(auto, using(crate::proofs::Laws::count_fits, crate::proofs::Laws::printed_decimal))]
fn digits(x: u16, bytes: &mut [u8; 5]) -> &[u8]
    ensures text { result.now ≡ decimal x }
    ensures short { length result.now ≤ 5 }
{
    let from = write_digits(u64::from(x), bytes, 5);
    &bytes[from..]
}

// A space and a number, put together, so that the room is asked for once. Most numbers have one digit, which needs no division.
#[tactic(auto, using(crate::proofs::Laws::one_digit, crate::proofs::Laws::number_fits))]
fn put_number(x: u8, pen: &mut Pen)
    requires { HasRoom pen.old (length (decimal x) + 1) }
    ensures { Written pen.old (32 ∷ decimal x) pen.new }
{
    if x < 10 {
        return pen.put(&[b' ', b'0' + x]);
    }
    let mut word = [b' '; 4];
    let from = write_digits(u64::from(x), &mut word, 4);
    pen.put(&word[from - 1..]);
}

// A line: a word, and numbers after it.
fn put_line(word: &[u8], numbers: &[u8], pen: &mut Pen)
    requires room { HasRoom pen.old 18 }
    requires fits { length (text_line (word.now ∷ map decimal numbers.now)) ≤ 18 }
    ensures { Short 18 pen.old (text_line (word.now ∷ map decimal numbers.now)) pen.new }
{
    pen.put(word);
    for x in numbers {
        put_number(*x, pen);
    }
    pen.put(b"\n");
}

// The line of step i + 1, whose code this is. Of a last step of one or two bytes, a missing byte is 0: by the bytes' places, as `step_line_of`
// has it.
#[tactic(auto, using(crate::proofs::Laws::three_fit), unfolding(rules::specs::Printout::step_line))]
fn put_step_line(steps: &[u8], i: usize, code: u8, pen: &mut Pen)
    requires i_bound { i < 65535 }
    requires room { HasRoom pen.old 18 }
    ensures { Short 18 pen.old (step_line (i + 1) (get_or steps.now (3 * i) 0) (get_or steps.now (3 * i + 1) 0) code) pen.new }
{
    let kind = steps.get(3 * i).copied().unwrap_or(0);
    let train = steps.get(3 * i + 1).copied().unwrap_or(0);
    put_line(digits(i as u16 + 1, &mut [0; 5]), &[kind, train, code], pen);
}

// The lines of all steps, whose codes these are.
fn put_step_lines(steps: &[u8], answers: &[u8], pen: &mut Pen)
    requires steps_bound { step_count steps.now ≤ 65535 }
    requires answered { length answers.now ≡ step_count steps.now }
    requires room { HasRoom pen.old (18 * step_count steps.now) }
    ensures { Short (18 * step_count steps.now) pen.old (join_of (step_count steps.now) (step_line_of steps.now answers.now)) pen.new }
{
    for (i, code) in answers.iter().enumerate() {
        put_step_line(steps, i, *code, pen);
    }
}

// The tail of the train with this number, 0 where it covers its front alone.
fn tail(routes: &[u8; 1024], number: u8, place: u8, covered: u8) -> u8
    ensures { result ≡ tail_in routes.now number place covered }
{
    if covered <= 1 {
        return 0;
    }
    let from = usize::from(place) + 1;
    placing::segment_at(routes, number, from.saturating_sub(usize::from(covered)))
}

// The line of the train with this number.
#[tactic(auto, using(crate::proofs::Laws::three_fit))]
fn put_train_line(number: u8, r: &Train, routes: &[u8; 1024], pen: &mut Pen)
    requires { HasRoom pen.old 18 }
    ensures { Short 18 pen.old (train_words routes.now number r.now) pen.new }
{
    let front = placing::segment_at(routes, number, usize::from(r.place));
    let last = tail(routes, number, r.place, r.covered);
    put_line(b"train", &[number, front, last], pen);
}

// The lines of all trains; their numbers, and those of boxes, are an index and 1: a zip with a range would be no plainer.
fn put_train_lines(l: &Line, pen: &mut Pen)
    requires k_bound { l.now.table.k ≤ 16 }
    requires room { HasRoom pen.old (18 * l.now.table.k) }
    ensures { Short (18 * l.now.table.k) pen.old (join_of l.now.table.k (train_line l.now)) pen.new }
{
    for (i, r) in l.trains[..usize::from(l.table.k)].iter().enumerate() {
        put_train_line(i as u8 + 1, r, &l.routes, pen);
    }
}

// The line of the box with this number.
#[tactic(auto, using(crate::proofs::Laws::box_fits), unfolding(rules::specs::Printout::bit))]
fn put_box_line(number: u8, x: SwitchBox, pen: &mut Pen)
    requires number_bound { number ≤ 96 }
    requires room { HasRoom pen.old 18 }
    ensures { Short 18 pen.old (box_words number x) pen.new }
{
    put_line(
        b"box",
        &[number, u8::from(x.sensor), x.position, x.lock],
        pen,
    );
}

// The lines of all boxes.
fn put_box_lines(l: &Line, pen: &mut Pen)
    requires m_bound { l.now.table.m ≤ 96 }
    requires room { HasRoom pen.old (18 * l.now.table.m) }
    ensures { Short (18 * l.now.table.m) pen.old (join_of l.now.table.m (box_line l.now)) pen.new }
{
    for (i, x) in l.boxes[..usize::from(l.table.m)].iter().enumerate() {
        put_box_line(i as u8 + 1, *x, pen);
    }
}

// The error is about a place of a route.
#[tactic(auto, unfolding(rules::specs::Placing::tells_place))]
fn tells_place(error: FileError) -> bool
    ensures { result ≡ tells_place (refusal_of error).code }
{
    matches!(
        error,
        FileError::NoSuchSegment(_) | FileError::NotFollowing(_)
    )
}

// The line of a refused file: the code and, where it is about a place of a route, train and place.
#[tactic(auto, using(crate::proofs::Laws::three_fit, crate::proofs::Laws::one_fits), unfolding(rules::specs::Printout::file_line))]
pub(crate) fn put_file_line(error: FileError, pen: &mut Pen)
    requires { HasRoom pen.old 18 }
    ensures { Short 18 pen.old (file_line (refusal_of error)) pen.new }
{
    if !tells_place(error) {
        return put_line(b"file", &[error.code()], pen);
    }
    let at = error.at();
    put_line(b"file", &[error.code(), at.train, at.place], pen);
}

// The text of a run: the lines of all steps, the line after them, and the last line where there are more bytes.
#[tactic(auto, using(crate::proofs::Laws::word_fits))]
pub(crate) fn put_run(l: &Line, steps: &[u8], answers: &[u8], more: bool, pen: &mut Pen)
    requires k_bound { (l.now.table.k ≤ 16) × (l.now.table.m ≤ 96) }
    requires steps_bound { step_count steps.now ≤ 65535 }
    requires answered { length answers.now ≡ step_count steps.now }
    requires room { HasRoom pen.old (18 * (step_count steps.now + 113)) }
    ensures { let count = step_count steps.now in
        Short (18 * (count + 113)) pen.old
        (join_of count (step_line_of steps.now answers.now) ++ line_text l.now ++ cond more (text_line (bytes_of "more" ∷ [])) [])
        pen.new }
{
    put_step_lines(steps, answers, pen);
    put_train_lines(l, pen);
    put_box_lines(l, pen);
    if more {
        put_line(b"more", &[], pen);
    }
}

// The program: reads a table from the file `net` in the folder where it is started, and steps from standard input, and prints
// what 01 says ("Table S and its printout").
#![tactic(auto)]

ghost use Rattle.std.specs.Prelude.{◌≡◌, ◌≤◌, length, take, IfOk, IfSome, OnOk};
ghost use Rattle.std.specs.Io.KnownBytes.{Appends};
ghost use Rattle.rules.specs.Printout.{most_file, most_input, printout};

use std::io::{Read, Write};
use std::rt::Files;
use std::{fs, io};

// The most bytes that are read of the file and of the input. What lies beyond changes nothing in what is printed (`Enough` in
// crates/rules/specs/Printout.antt).
const MOST_FILE: usize = 4889;

const MOST_INPUT: usize = 196606;
// The room for the answers to all steps that are taken, and for every text.
const MOST_STEPS: usize = 65535;

const MOST_TEXT: usize = 1181664;

// Reads the front of a table file, and answers how many bytes it put at the front of the buffer.
fn read_file<R: Read>(file: &mut R, buffer: &mut [u8; MOST_FILE]) -> io::Result<usize>
    ensures within { IfOk result (λ size. size ≤ most_file) }
    ensures front { IfOk result (λ size. IfSome (R.remaining file.old) (λ bytes. take size buffer.new ≡ take most_file bytes)) }
{
    let (size, ended) = input::fill(file, buffer);
    ended?;
    Ok(size)
}

// The same of the file `net`; 0 where it cannot be opened or a read fails.
fn read_net(rt: &impl Files, buffer: &mut [u8; MOST_FILE]) -> usize
    ensures { result ≤ most_file }
{
    fs::open(rt, "net")
        .and_then(|mut file| read_file(&mut file, buffer))
        .unwrap_or(0)
}

// Reads the front of the steps, and answers how many bytes it put at the front of the buffer: those before a read that fails, too.
fn read_steps<R: Read>(input: &mut R, buffer: &mut [u8; MOST_INPUT]) -> (usize, io::Result<()>)
    ensures within { result.0 ≤ most_input }
    ensures front { OnOk result.1 (IfSome (R.remaining input.old) (λ bytes. take result.0 buffer.new ≡ take most_input bytes)) }
{
    input::fill(input, buffer)
}

// Puts what is printed at the front of the text's buffer, which has room for every text, and answers its length. The buffers are main's,
// since a proof about an array of so many zeros in the function itself did not end.
#[tactic(auto, using(crate::proofs::Room::room))]
fn put_text(
    net: &[u8],
    input: &[u8],
    answers: &mut [u8; MOST_STEPS],
    text: &mut [u8; MOST_TEXT],
) -> usize
    ensures prefix_len { result ≤ length text.new }
    ensures text_after { take result text.new ≡ printout net.now input.now }
{
    printout::print(net, input, answers, text).unwrap()
}

// Writes what is printed.
fn write_printout<W: Write>(
    out: &mut W,
    net: &[u8],
    input: &[u8],
    answers: &mut [u8; MOST_STEPS],
    text: &mut [u8; MOST_TEXT],
) -> io::Result<()>
    ensures { OnOk result (Appends (W.contents out.old) (W.contents out.new) (printout net.now input.now)) }
{
    let length = put_text(net, input, answers, text);
    out.write_all(&text[..length])
}

fn main(rt: HostRuntime) -> io::Result<()> {
    let mut net = [0; MOST_FILE];
    let size = read_net(&rt, &mut net);
    let mut input = [0; MOST_INPUT];
    let (length, _) = read_steps(&mut rt.stdin(), &mut input);
    let mut answers = [0; MOST_STEPS];
    let mut text = [0; MOST_TEXT];
    write_printout(
        &mut io::writer(&rt),
        &net[..size],
        &input[..length],
        &mut answers,
        &mut text,
    )
}

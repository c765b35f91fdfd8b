// Runs the reader, the writer and the engine on the records of a corpus, which is standard input, and writes a line of answers for
// each. The file `stdout` beside this folder has the lines that the second implementation gives
// (reference/src/bin/make_corpus/main.rs, which says what a corpus and a line hold).
#![tactic(auto)]

mod answers;
mod changes;
mod numbers;
mod parts;
mod records;
mod runs;
mod text;

use std::io;

// Room for a corpus.
const ROOM: usize = 262144;

fn main(rt: HostRuntime) -> io::Result<()> {
    let mut corpus = [0; ROOM];
    // The records before a read that fails are decided.
    let (length, _) = input::fill(&mut rt.stdin(), &mut corpus);
    records::decide_all(&rt, &corpus[..length])
}

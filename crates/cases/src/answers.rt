// The answers to a file, as a line of text with a space between them. Each is a refusal and, where bytes come with it, a colon and
// the bytes in hexadecimal.
use crate::text::{Hex, Told};
use rules::Table;
use std::io;

// Room for each file of a corpus. A file that is not refused for its length has at most 4,888 bytes.
const LONGEST: usize = 4896;

// Decides a file. A refused file's line has the reader's refusal alone, an accepted one's also the writer's answers and the routes.
pub(crate) fn decide(rt: &impl Print, file: &[u8]) -> io::Result<()> {
    let read = reading::read(file);
    print!(rt; "{}", Told(&read))?;
    if let Ok(line) = read {
        put_written(rt, &line.table)?;
        put_routes(rt, file, line.table.k)?;
    }
    println!(rt)
}

// Decides the file with the byte at an index changed; the empty file for one that there is no room for.
pub(crate) fn decide_changed(
    rt: &impl Print,
    file: &[u8],
    index: usize,
    value: u8,
) -> io::Result<()> {
    let mut buffer = [0; LONGEST];
    let Some(changed) = buffer.get_mut(..file.len()) else {
        return decide(rt, &[]);
    };
    changed.copy_from_slice(file);
    if let Some(byte) = changed.get_mut(index) {
        *byte = value;
    }
    decide(rt, changed)
}

// The writer's refusal and bytes for a buffer as long as the file, and its refusal for one that is a byte shorter.
fn put_written(rt: &impl Print, table: &Table) -> io::Result<()> {
    let size = writing::file_size(table);
    if (1..=LONGEST).contains(&size) {
        put_write(rt, table, &mut [0; LONGEST][..size])?;
        put_write(rt, table, &mut [0; LONGEST][..size - 1])?;
    }
    Ok(())
}

// The writer's refusal for a lent buffer and, where it is not refused, the bytes.
fn put_write(rt: &impl Print, table: &Table, buffer: &mut [u8]) -> io::Result<()> {
    let wrote = writing::write(table, buffer);
    print!(rt; " {}", Told(&wrote))?;
    if wrote.is_ok() {
        print!(rt; ":{}", Hex(buffer))?;
    }
    Ok(())
}

// The routes of the trains 0 to k + 1; of a file of 60 bytes or more only those of the trains 1 and k + 1.
fn put_routes(rt: &impl Print, file: &[u8], k: u8) -> io::Result<()> {
    let last = k.wrapping_add(1);
    for train in 0..=last {
        if file.len() < 60 || train == 1 || train == last {
            put_route(rt, file, train)?;
        }
    }
    Ok(())
}

// A train's refusal and route.
fn put_route(rt: &impl Print, file: &[u8], train: u8) -> io::Result<()> {
    let route = tablefile::route(file, train);
    print!(rt; " {}:{}", Told(&route), Hex(route.unwrap_or(&[])))
}

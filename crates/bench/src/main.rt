// Runs the bench, a table on standard input. Each line asks a question of the crate requests and says what its answer should be:
// the documents' values, the typesetter's traps, published examples, readings of open points, and recorded answers of the Rust.
// What fails is said on standard error, by a word at the start of the line: `unread` or `unwritten`.
#![tactic(auto)]

mod line;
mod tally;

use buffer::Pieces;
use std::io::{self, Write};
use stream::{Failure, Reader, Writer};
use tally::Tally;

// The answer to a question, at the front of room.
fn ask<'a>(question: &[u8], room: &'a mut [u8]) -> &'a [u8] {
    let mut answer = Pieces::new(room);
    if requests::answer(question, true, &mut answer).is_none() {
        return b"bad request";
    }
    let used = answer.len;
    lines::cut(room, used)
}

// Puts a line of two parts, each left out where it does not fit.
fn put_line(first: &[u8], second: &[u8], out: &mut Pieces) {
    out.put(first);
    out.put(second);
    out.put_byte(b'\n');
}

// Asks what one line asks, and compares. One that is as it should be gets a line, but for a recorded answer; one that is not two: what
// it should be, of a line that is too long its beginning, and what it is.
fn compare(s: &[u8], tally: &mut Tally, out: &mut Pieces) {
    let (question, expected) = line::parts(s);
    let mut room = [0; 8192];
    let answer = ask(question, &mut room);
    let agrees = line::agrees(expected, answer);
    tally.count(agrees);
    if !agrees {
        put_line(b"WRONG ", lines::cut(s, 8192), out);
        put_line(b"  is ", answer, out);
    } else if !line::is_recorded(s) {
        put_line(b"ok ", question, out);
    }
}

// A line of the table, once there is room for what it prints; an empty one is passed over, and a heading, which starts with `#`, is
// printed as it stands.
fn take(s: &[u8], tally: &mut Tally, out: &mut Writer<'_, impl Write>) -> io::Result<()> {
    out.make_room()?;
    match s {
        [] => {}
        [b'#', ..] => put_line(b"", s, &mut out.pieces),
        _ => compare(s, tally, &mut out.pieces),
    }
    Ok(())
}

// The totals, and all that is not written yet.
fn finish(tally: Tally, out: &mut Writer<'_, impl Write>) -> io::Result<()> {
    tally.put(&mut out.pieces);
    out.flush()
}

fn run(rt: HostRuntime) -> Result<(), Failure> {
    let mut read = [0; 65536];
    let mut held = [0; 65536];
    let mut input = Reader::new(rt.stdin(), &mut read);
    let mut out = Writer::new(rt.stdout(), &mut held);
    let mut tally = Tally::default();
    for _ in 0..u64::MAX {
        let Some(line) = input.next_line(8192).map_err(Failure::Unread)? else {
            break;
        };
        take(line, &mut tally, &mut out).map_err(Failure::Unwritten)?;
    }
    finish(tally, &mut out).map_err(Failure::Unwritten)
}

fn main(rt: HostRuntime) {
    if let Err(failure) = run(rt) {
        let _ = eprintln!(rt; "{failure}");
    }
}

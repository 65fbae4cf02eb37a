// Answers requests, one a line, each with one line (docs/INSPECT.md). Standard input may have any length. What fails is said on
// standard error, by a word at the start of the line that ./tusselgro turns into a status: `unread` or `unwritten`.
#![tactic(auto)]

use buffer::Pieces;
use std::io::{Read, Write};
use stream::{Failure, Reader, Writer};

// Puts the line that answers a request.
fn answer(request: &[u8], out: &mut Pieces) {
    if requests::answer(request, false, out).is_none() {
        out.put(b"bad request");
    }
    out.put_byte(b'\n');
}

// Answers each request of an input.
fn run(input: &mut Reader<'_, impl Read>, out: &mut Writer<'_, impl Write>) -> Result<(), Failure> {
    for _ in 0..u64::MAX {
        let Some(request) = input.next_line(4096).map_err(Failure::Unread)? else {
            break;
        };
        out.make_room().map_err(Failure::Unwritten)?;
        answer(request, &mut out.pieces);
    }
    out.flush().map_err(Failure::Unwritten)
}

fn main(rt: HostRuntime) {
    let mut read = [0; 65536];
    let mut held = [0; 65536];
    let mut input = Reader::new(rt.stdin(), &mut read);
    let mut out = Writer::new(rt.stdout(), &mut held);
    if let Err(failure) = run(&mut input, &mut out) {
        let _ = eprintln!(rt; "{failure}");
    }
}

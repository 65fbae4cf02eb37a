// Prints document 01's table: standard input, at most 65,536 bytes, one row a line; with the argument `--strict` every line is read
// strictly. What is wrong or fails is said on standard error, by a word at the start of the line that ./tusselgro turns into a status:
// `refused`, `usage`, `unread` or `unwritten`.
#![tactic(auto)]

use std::env::Env;
use std::io::{self, Write};
use stream::{Failure, Writer};

// Writes the heading and the rows of all lines; a row has 142 bytes at most.
fn list(capture: &[u8], strict: bool, out: &mut Writer<'_, impl Write>) -> io::Result<()> {
    out.write_all(&row::HEADING)?;
    for (number, line) in (1..).zip(stream::lines(capture)) {
        let mut text = [0; 142];
        let written = row::write_row(number, line, strict, &mut text);
        out.make_room()?;
        out.write_all(lines::cut(&text, written.reported))?;
    }
    out.flush()
}

// Says that there is too much input: document 01's words alone on standard output.
fn refuse(to: &mut impl Write) -> Failure {
    match to.write_all(b"too much input\n") {
        Ok(()) => Failure::Refused("the input is over 65,536 bytes"),
        Err(error) => Failure::Unwritten(error),
    }
}

// Reads the input, and lists it.
fn read(rt: HostRuntime, strict: bool) -> Result<(), Failure> {
    let mut input = [0; 65536];
    let mut held = [0; 65536];
    let read = stream::read_all(&mut rt.stdin(), &mut input).map_err(Failure::Unread)?;
    let Some(capture) = read else {
        return Err(refuse(&mut rt.stdout()));
    };
    let mut out = Writer::new(rt.stdout(), &mut held);
    list(capture, strict, &mut out).map_err(Failure::Unwritten)
}

// Whether the only argument, or none, is `--strict`.
fn is_strict(rt: &impl Env) -> Result<bool, Failure> {
    if !stream::is_given(rt, 1) {
        return Ok(false);
    }
    let mut word = [0; 8];
    match rt.arg(1, &mut word) {
        Ok(8) if word == *b"--strict" && !stream::is_given(rt, 2) => Ok(true),
        _ => Err(Failure::Usage("--strict is the only argument")),
    }
}

fn main(rt: HostRuntime) {
    let outcome = is_strict(&rt).and_then(|strict| read(rt, strict));
    if let Err(failure) = outcome {
        let _ = eprintln!(rt; "{failure}");
    }
}

// Prints the page that the bench uses: for each test setting all the fields that a unit may send. The settings are the
// program's arguments, or where there are none its standard input; a comma or the end of a line ends one. What is wrong or
// fails is said on standard error, by a word at the start of the line that ./tusselgro turns into a status.
#![tactic(auto)]

mod part;
mod table;

use page::Page;
use std::io::{self, Write};
use stream::{Failure, Writer};

// Puts the settings to the front of input; answers how many bytes they are.
fn gather(rt: HostRuntime, input: &mut [u8]) -> io::Result<usize> {
    if stream::is_given(&rt, 1) {
        return Ok(settings::arguments(&rt, input));
    }
    stream::read_full(&mut rt.stdin(), input)
}

// Prints the page of all settings, and tells which are wrong; answers how many settings there were.
fn print(rt: HostRuntime, settings: &[u8]) -> io::Result<usize> {
    let mut held = [0; 65536];
    let mut out = Writer::new(rt.stdout(), &mut held);
    let texts = settings
        .split(|b| *b == b'\n')
        .map(|text| settings::bare(text))
        .filter(|text| !text.is_empty());
    let mut count = 0;
    let mut shown = false;
    for (number, text) in (1..).zip(texts) {
        count = number;
        out.make_room()?;
        let mut room = [0; 108];
        match Page::of(text, &mut room) {
            Ok(page) => {
                let opening = if shown { "" } else { part::NOTE };
                part::put(opening, page, &mut out.pieces);
                shown = true;
            }
            Err(error) => page::tell(&rt, number, text, error),
        }
    }
    out.flush()?;
    Ok(count)
}

fn run(rt: HostRuntime) -> Result<(), Failure> {
    let mut input = [0; 65536];
    let held = gather(rt, &mut input).map_err(Failure::Unread)?;
    if held == input.len() {
        return Err(Failure::Refused("the settings are over 65,535 bytes"));
    }
    settings::tidy(&mut input);
    match print(rt, lines::cut(&input, held)).map_err(Failure::Unwritten)? {
        0 => Err(Failure::Usage("there is no setting")),
        _ => Ok(()),
    }
}

fn main(rt: HostRuntime) {
    if let Err(failure) = run(rt) {
        let _ = eprintln!(rt; "{failure}");
    }
}

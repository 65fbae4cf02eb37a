// Says for each Mic-E packet of a capture whether its field stands on the page of a setting. The setting is the program's
// arguments; the capture, at most 65,536 bytes, its standard input. What is wrong or fails is said on standard error, by a word
// at the start of the line that ./tusselgro turns into a status.
#![tactic(auto)]

mod row;

use page::Page;
use std::io::{self, Write};
use stream::{Failure, Writer};
use verdict::{Line, Tally};

// Writes the setting, a row for each Mic-E packet of a capture, and the line that counts.
fn print(page: Page<'_>, capture: &[u8], out: &mut Writer<'_, impl Write>) -> io::Result<Tally> {
    page.setting.put(&mut out.pieces);
    writeln!(out, "\n line{}", page::HEADING)?;
    let mut tally = Tally::default();
    for (number, text) in (1..).zip(stream::lines(capture)) {
        let line = Line::of(text, page);
        tally.count(line);
        if let Line::MicE(field, verdict) = line {
            out.make_room()?;
            row::put(number, field, verdict, &mut out.pieces);
        }
    }
    writeln!(out, "{tally}")?;
    out.flush()?;
    Ok(tally)
}

// Says no where a packet is not on the page, or there is none.
fn judge(tally: Tally) -> Result<(), Failure> {
    if tally.packets == 0 {
        return Err(Failure::Refused("there is no Mic-E packet"));
    }
    if tally.on_page < tally.packets {
        return Err(Failure::Refused("not every Mic-E packet is on the page"));
    }
    Ok(())
}

// Reads the capture, and holds it against a page.
fn check(rt: HostRuntime, page: Page<'_>) -> Result<(), Failure> {
    let mut input = [0; 65536];
    let mut held = [0; 65536];
    let capture = stream::read_all(&mut rt.stdin(), &mut input)
        .map_err(Failure::Unread)?
        .ok_or(Failure::Refused("the capture is over 65,536 bytes; split it at ends of lines"))?;
    let mut out = Writer::new(rt.stdout(), &mut held);
    judge(print(page, capture, &mut out).map_err(Failure::Unwritten)?)
}

// A single setting, and not none.
fn start(rt: HostRuntime, text: &[u8]) -> Result<(), Failure> {
    if text.is_empty() {
        return Err(Failure::Usage("there is no setting"));
    }
    if text.contains(&b'\n') {
        return Err(Failure::Usage("one setting at a time"));
    }
    let mut room = [0; 4096];
    match Page::of(text, &mut room) {
        Ok(page) => check(rt, page),
        Err(error) => {
            page::tell(&rt, 1, text, error);
            Ok(())
        }
    }
}

fn run(rt: HostRuntime) -> Result<(), Failure> {
    let mut words = [0; 4096];
    let used = settings::arguments(&rt, &mut words);
    if used == words.len() {
        return Err(Failure::Usage("the setting is over 4,095 bytes"));
    }
    settings::tidy(&mut words);
    start(rt, settings::bare(lines::cut(&words, used)))
}

fn main(rt: HostRuntime) {
    if let Err(failure) = run(rt) {
        let _ = eprintln!(rt; "{failure}");
    }
}

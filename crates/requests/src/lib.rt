// Any function asked by a line of text, and its answer in words: part of the programs inspect and bench. An answer starts with a
// number, 0 or the refusal's; words `name=value` follow, but for lists, bounds and rows. A question that is none answers None, and
// puts nothing.
#![tactic(auto)]

mod bounds;
mod read;
mod write;

use buffer::Pieces;
use words::{Reply, Words};

// Puts the answer to a request, of at most 4,096 bytes. The questions of docs/INSPECT.md alone are answered, whose bytes are in
// hexadecimal, or the bench's own too.
pub fn answer(request: &[u8], all: bool, out: &mut Pieces) -> Option<()> {
    if 4096 < request.len() {
        return None;
    }
    let mut asked = Words::of(request);
    let question = asked.next()?;
    let mut reply = Reply::behind(out, false);
    match question {
        b"T" => read::answer(asked.rest(), false, false, &mut reply),
        b"F" => read::answer(asked.rest(), true, false, &mut reply),
        b"ST" => read::answer(asked.rest(), false, true, &mut reply),
        b"SF" => read::answer(asked.rest(), true, true, &mut reply),
        b"M" => leaves::motions(asked, &mut reply),
        b"L" => leaves::longitudes(asked, &mut reply),
        b"B" => bounds::answer(asked, &mut reply),
        b"W" => write::answer(asked, &mut reply),
        _ if all => of_bench(question, asked.rest(), &mut reply),
        _ => None,
    }
}

// ---- the bench's own questions

// Their bytes are plain, `%` and two hexadecimal digits for one that is not printed.
fn of_bench(question: &[u8], spelled: &[u8], reply: &mut Reply) -> Option<()> {
    let mut room = [0u8; 4096];
    let text = words::plain(spelled, &mut room)?;
    reply.plain = true;
    of_packets(question, text, reply)
}

// `text LINE`, `frame BYTES` as T and F; `row NUMBER LINE`, the listing's row; the same by the strict entry; `long N LINE`, a line filled
// up with x to N bytes.
fn of_packets(question: &[u8], text: &[u8], reply: &mut Reply) -> Option<()> {
    match question {
        b"text" => read::shown(text, false, false, reply),
        b"frame" => read::shown(text, true, false, reply),
        b"long" => read::long(Words::of(text), reply)?,
        b"row" => read::row(Words::of(text), false, reply)?,
        b"strict-text" => read::shown(text, false, true, reply),
        b"strict-frame" => read::shown(text, true, true, reply),
        b"strict-row" => read::row(Words::of(text), true, reply)?,
        _ => return of_angles(question, text, reply),
    }
    Some(())
}

// `latitude TEXT`, `longitude BLANKS TEXT` read; `latitude-text ANGLE BLANKS`, `longitude-text ANGLE`, `information LONGITUDE SPEED
// COURSE` written; `motions SPEED COURSE ROOM`, `longitudes ANGLE OFFSET SIDE ROOM` as M and L, field by field.
fn of_angles(question: &[u8], text: &[u8], reply: &mut Reply) -> Option<()> {
    match question {
        b"latitude" => leaves::latitude(text, reply),
        b"longitude" => leaves::longitude(Words::of(text), reply)?,
        b"latitude-text" => leaves::latitude_text(Words::of(text), reply)?,
        b"longitude-text" => leaves::longitude_text(text, reply)?,
        b"information" => leaves::information(Words::of(text), reply)?,
        b"motions" => leaves::motions(Words::of(text), reply)?,
        b"longitudes" => leaves::longitudes(Words::of(text), reply)?,
        _ => return of_callsigns(question, text, reply),
    }
    Some(())
}

// `callsign TEXT`, `address BYTES` read; `spelled CALL_LEN SSID_LEN BYTES`, a callsign by its parts, written; `to`, `from`, `last-from`,
// `last-hop TEXT`, the callsign's address as destination, source, last source, heard last hop.
fn of_callsigns(question: &[u8], text: &[u8], reply: &mut Reply) -> Option<()> {
    match question {
        b"callsign" => leaves::text(text, reply),
        b"address" => leaves::address(text, reply),
        b"spelled" => leaves::spelled(Words::of(text), reply)?,
        b"to" => leaves::to(text, reply),
        b"from" => leaves::from(text, false, reply),
        b"last-from" => leaves::from(text, true, reply),
        b"last-hop" => leaves::last_hop(text, reply),
        _ => return of_times(question, text, reply),
    }
    Some(())
}

// `time TEXT` read; `time-text DAY HOUR MINUTE SECOND FORM` written, FORM the byte behind the digits, %00 for no time.
fn of_times(question: &[u8], text: &[u8], reply: &mut Reply) -> Option<()> {
    match question {
        b"time" => leaves::time(text, reply),
        b"time-text" => leaves::time_text(Words::of(text), reply)?,
        _ => return None,
    }
    Some(())
}

// A record in words, and written again: `KIND from= to= hops= lat= lon= blanks= table= code= flag= message= speed= course= comment=
// text= frame= letters= zeros= time= addressee= id= inner= inner-from= inner-to= inner-hops= inner-zeros=`. Part of the programs
// inspect and bench.
#![tactic(auto)]

use body::{Body, Kind, Report, Span};
use callsign::Callsign;
use header::{Header, Hop, Path};
use mic_e::Message;
use packet::Record;
use position::Place;
use time::Time;
use words::Reply;

// The answer 0 and the kind.
fn kind(k: Kind, reply: &mut Reply) {
    reply.put(match k {
        Kind::Unknown => b"0 unknown",
        Kind::Position => b"0 position",
        Kind::MicE => b"0 mic-e",
        Kind::Message => b"0 message",
        Kind::Status => b"0 status",
    });
}

// One hop: a Q element by its bare name, a callsign with a star behind it if it was heard.
fn hop(h: Hop, reply: &mut Reply) {
    if h.kind == header::Q_ELEMENT {
        let text = h.call.text;
        reply.put(lines::cut(&text, callsign::text_len(h.call)));
        return;
    }
    reply.call(b"", h.call);
    if h.kind == header::HEARD {
        reply.put(b"*");
    }
}

// The hops with a comma between two, or a dash for none.
fn path(label: &[u8], p: Path, reply: &mut Reply) {
    reply.put(label);
    if p.count == 0 {
        reply.put(b"-");
    }
    for (i, h) in p.hops.iter().take(p.count).enumerate() {
        if 0 < i {
            reply.put(b",");
        }
        hop(*h, reply);
    }
}

// Callsigns and hops of a header, each behind its label.
fn header(h: Header, labels: [&[u8]; 3], reply: &mut Reply) {
    let [from, to, hops] = labels;
    reply.call(from, h.from);
    reply.call(to, h.to);
    path(hops, h.path, reply);
}

// Latitude, longitude and blanks.
fn place(p: Place, reply: &mut Reply) {
    reply.number(b" lat=", p.latitude.0);
    reply.number(b" lon=", p.longitude.0);
    reply.count(b" blanks=", usize::from(p.blanks));
}

// The symbol, and the flag: a position that takes messages, or current Mic-E.
fn symbol(p: Place, flag: bool, reply: &mut Reply) {
    reply.count(b" table=", usize::from(p.table));
    reply.count(b" code=", usize::from(p.code));
    reply.count(b" flag=", usize::from(flag));
}

// What a Mic-E report says; no other kind does.
#[tactic(auto, unfolding(mic_e::specs::Message::message_number))]
fn message(k: Kind, m: Message, reply: &mut Reply) {
    reply.put(b" message=");
    reply.put(match k {
        Kind::MicE => words::MESSAGES[usize::from(mic_e::message_number(m))],
        _ => b"-",
    });
}

// Speed and course.
fn motion(r: Report, reply: &mut Reply) {
    reply.count(b" speed=", r.speed.0 as usize);
    reply.count(b" course=", r.course.0 as usize);
}

// The place and length of a part of the input.
fn span(label: &[u8], s: Span, reply: &mut Reply) {
    reply.count(label, s.at);
    reply.count(b"+", s.len);
}

// What stands behind the header.
fn body(b: Body, reply: &mut Reply) {
    place(b.place, reply);
    symbol(b.place, b.messaging || b.report.current, reply);
    message(b.kind, b.report.message, reply);
    motion(b.report, reply);
    span(b" comment=", b.comment, reply);
}

// ---- written again

// What a writer answered, and what it wrote.
fn written(label: &[u8], w: buffer::Answer, bytes: &[u8], reply: &mut Reply) {
    reply.count(label, usize::from(w.refusal));
    if w.refusal == 0 {
        reply.bytes(b":", lines::cut(bytes, w.reported));
    } else {
        reply.put(b":-");
    }
}

// The record written again, both ways, with the comment, or the text and the identifier, that it was read with.
fn again(r: Record, comment: &[u8], identifier: &[u8], reply: &mut Reply) {
    let mut bytes = [0u8; 512];
    let w = packet::write_text(r, comment, identifier, &mut bytes);
    written(b" text=", w, &bytes, reply);
    let w = packet::write_frame(r, comment, identifier, &mut bytes);
    written(b" frame=", w, &bytes, reply);
}

fn part(s: Span, line: &[u8]) -> &[u8] {
    lines::cut(lines::tail(line, s.at), s.len)
}

// ---- words of the change requests, in their order

// The letters of both angles, as they were read; only a kind with a position has them.
fn letters(k: Kind, p: Place, reply: &mut Reply) {
    reply.put(b" letters=");
    match k {
        Kind::Position | Kind::MicE => {
            reply.side(p.south, b"N", b"S");
            reply.side(p.west, b"E", b"W");
        }
        _ => reply.put(b"--"),
    }
}

// 1 where the text of a callsign had the SSID `0`.
fn zero(c: Callsign, reply: &mut Reply) {
    reply.side(c.had_zero_ssid, b"0", b"1");
}

// A digit for the source, one for the destination and one for each hop.
fn zeros(label: &[u8], h: Header, reply: &mut Reply) {
    reply.put(label);
    zero(h.from, reply);
    zero(h.to, reply);
    for hop in h.path.hops.iter().take(h.path.count) {
        zero(hop.call, reply);
    }
}

// The time as a packet has it; a dash for none.
fn time(t: Time, reply: &mut Reply) {
    let mut text = [0u8; 7];
    let w = time::write_time(t, &mut text);
    reply.put(b" time=");
    reply.put(if w.reported == 0 {
        b"-"
    } else {
        lines::cut(&text, w.reported)
    });
}

// A text without the spaces that it ends in.
fn unpadded(padded: &[u8]) -> &[u8] {
    let mut text = padded;
    while let [front @ .., b' '] = text {
        text = front;
    }
    text
}

// The addressee without those spaces; only a message has one.
fn addressee(k: Kind, addressee: [u8; 9], reply: &mut Reply) {
    reply.bytes(
        b" addressee=",
        match k {
            Kind::Message => unpadded(&addressee),
            _ => b"",
        },
    );
}

// The words of a header and a body.
fn requested(h: Header, b: Body, reply: &mut Reply) {
    letters(b.kind, b.place, reply);
    zeros(b" zeros=", h, reply);
    time(b.time, reply);
    addressee(b.kind, b.addressee, reply);
    span(b" id=", b.identifier, reply);
}

// How many packets are inside, and the innermost header, which is blank where there is none. The words of a later request go behind
// them.
fn inside(inner: u8, h: Header, reply: &mut Reply) {
    reply.count(b" inner=", usize::from(inner));
    header(h, [b" inner-from=", b" inner-to=", b" inner-hops="], reply);
    zeros(b" inner-zeros=", h, reply);
}

// A record in words, from the answer 0 on.
pub fn record(r: Record, line: &[u8], reply: &mut Reply) {
    kind(r.body.kind, reply);
    header(r.header, [b" from=", b" to=", b" hops="], reply);
    body(r.body, reply);
    again(
        r,
        part(r.body.comment, line),
        part(r.body.identifier, line),
        reply,
    );
    requested(r.header, r.body, reply);
    inside(r.inner, r.innermost, reply);
}

// A record made by hand, its headers and its body, by their words, and the identifier that goes with a message: part of the programs
// inspect and bench.
#![tactic(auto)]

use body::{Body, Kind, Report};
use callsign::Callsign;
use header::{Header, Hop, Path};
use lonlat::{Latitude, Longitude};
use mic_e::{Course, Message, Speed};
use position::Place;
use time::Time;
use words::Words;

// What is to be written. There is no body where no record can hold the letters or the addressee: that is out of range, whatever else
// it has.
#[derive(Clone, Copy)]
pub struct Asked<'a> {
    pub header: Header,
    pub body: Option<Body>,
    pub innermost: Header,
    pub identifier: &'a [u8],
    pub inner: u8,
}

// ---- callsigns

// Call, dash and SSID as they were given. What sixteen bytes cannot hold is cut off: the lengths tell.
fn joined(call: &[u8], ssid: &[u8]) -> [u8; 16] {
    let mut text = [0u8; 16];
    let dash = lines::cut(b"-", ssid.len());
    for (to, from) in text.iter_mut().zip(call.iter().chain(dash).chain(ssid)) {
        *to = *from;
    }
    text
}

// `CALL/SSID`, sixteen bytes in all
fn call_of(word: &[u8], had_zero_ssid: bool) -> Option<Callsign> {
    let mut parts = word.splitn(2, |b| *b == b'/');
    let mut call_room = [0u8; 16];
    let mut ssid_room = [0u8; 16];
    let call = words::hex(parts.next()?, &mut call_room)?;
    let ssid = words::hex(parts.next()?, ssid_room.get_mut(call.len()..)?)?;
    Some(Callsign {
        text: joined(call, ssid),
        call_len: u8::try_from(call.len()).ok()?,
        ssid_len: u8::try_from(ssid.len()).ok()?,
        had_zero_ssid,
    })
}

// ---- marks, by `BITS`: a digit for each callsign, 1 where its text had the SSID `0`

// Whether the digit at a place is 1; no digit there is as good as 0.
fn is_set(bits: &[u8], place: usize) -> bool {
    matches!(bits.get(place), Some(b'1'))
}

// Whether there are digits for source, destination and so many hops, and no others.
fn are_bits(bits: &[u8], hops: usize) -> bool {
    let counted = bits.get(2..).is_some_and(|b| b.len() == hops);
    counted && bits.iter().all(|b| matches!(b, b'0' | b'1'))
}

// ---- hops

// A Q element by its name, which has no star and no mark.
fn q_element(name: &[u8], marked: bool) -> Option<Hop> {
    if marked || !header::is_q_name(name) {
        return None;
    }
    let call = Callsign {
        text: joined(name, b""),
        call_len: 3,
        ssid_len: 0,
        had_zero_ssid: false,
    };
    Some(Hop {
        call,
        kind: header::Q_ELEMENT,
    })
}

// A word with a slash is a callsign, with a star behind it where it was heard; another is the name of a Q element.
fn hop_of(word: &[u8], marked: bool) -> Option<Hop> {
    if !word.contains(&b'/') {
        return q_element(word, marked);
    }
    let (text, heard) = match word {
        [text @ .., b'*'] => (text, true),
        _ => (word, false),
    };
    Some(Hop {
        call: call_of(text, marked)?,
        kind: if heard { header::HEARD } else { 0 },
    })
}

// ---- headers

// Hops joined by commas, or a dash for none.
fn path_of(word: &[u8], bits: &[u8]) -> Option<Path> {
    let mut path = header::blank().path;
    if word == b"-".as_slice() {
        return Some(path);
    }
    for (i, hop) in word.split(|b| *b == b',').enumerate() {
        *path.hops.get_mut(i)? = hop_of(hop, is_set(bits, i + 2))?;
        path.count = i + 1;
    }
    Some(path)
}

// `FROM`, `TO`, `HOPS` and `BITS`, left out where there are no marks
fn header_of(from: &[u8], to: &[u8], hops: &[u8], zeros: Option<&[u8]>) -> Option<Header> {
    let bits = zeros.unwrap_or(b"");
    let header = Header {
        from: call_of(from, is_set(bits, 0))?,
        to: call_of(to, is_set(bits, 1))?,
        path: path_of(hops, bits)?,
    };
    if zeros.is_some() && !are_bits(bits, header.path.count) {
        return None;
    }
    Some(header)
}

// `[inner-from=CALL/SSID] [inner-to=CALL/SSID] [inner-hops=HOPS] [inner-zeros=BITS]`; left out, there is nothing.
fn innermost_of(asked: &mut Words) -> Option<Header> {
    let from = asked.value(b"inner-from=").unwrap_or(b"-/-");
    let to = asked.value(b"inner-to=").unwrap_or(b"-/-");
    let hops = asked.value(b"inner-hops=").unwrap_or(b"-");
    header_of(from, to, hops, asked.value(b"inner-zeros="))
}

// ---- the body

// `KIND`
fn kind_of(word: &[u8]) -> Option<Kind> {
    match word {
        b"unknown" => Some(Kind::Unknown),
        b"position" => Some(Kind::Position),
        b"mic-e" => Some(Kind::MicE),
        b"message" => Some(Kind::Message),
        b"status" => Some(Kind::Status),
        _ => None,
    }
}

// `FLAG`
fn flag_of(word: &[u8]) -> Option<bool> {
    match word {
        b"0" => Some(false),
        b"1" => Some(true),
        _ => None,
    }
}

// A message by its name; a dash for none, where there need be none.
fn message_of(word: &[u8], needed: bool) -> Option<Message> {
    if word == b"-".as_slice() && !needed {
        return Some(Message::M0);
    }
    let number = words::MESSAGES.iter().position(|name| *name == word)?;
    Some(mic_e::message_at(u8::try_from(number).ok()?))
}

// `LAT LON BLANKS TABLE CODE`
fn place_of(asked: &mut Words) -> Option<Place> {
    Some(Place {
        latitude: Latitude(asked.number()?),
        longitude: Longitude(asked.number()?),
        blanks: asked.byte()?,
        table: asked.byte()?,
        code: asked.byte()?,
        south: false,
        west: false,
    })
}

// `MESSAGE SPEED COURSE`; only Mic-E must have a message, and its flag is whether it is current.
fn report_of(kind: Kind, flag: bool, asked: &mut Words) -> Option<Report> {
    let mic_e = matches!(kind, Kind::MicE);
    Some(Report {
        message: message_of(asked.next()?, mic_e)?,
        speed: Speed(asked.count_to(u32::MAX)?),
        course: Course(asked.count_to(u32::MAX)?),
        current: mic_e && flag,
    })
}

fn has_position(kind: Kind) -> bool {
    matches!(kind, Kind::Position | Kind::MicE)
}

fn is_message(kind: Kind) -> bool {
    matches!(kind, Kind::Message)
}

// `XY`: a letter for each angle, or a dash for none; left out, a kind with a position has its angles' own, which are N and E at 0.
fn letters_of(kind: Kind, place: Place, word: Option<&[u8]>) -> Option<[u8; 2]> {
    match word {
        Some([x @ (b'N' | b'S' | b'-'), y @ (b'E' | b'W' | b'-')]) => Some([*x, *y]),
        Some(_) => None,
        None if has_position(kind) => Some([
            if place.latitude.0 < 0 { b'S' } else { b'N' },
            if place.longitude.0 < 0 { b'W' } else { b'E' },
        ]),
        None => Some([b'-', b'-']),
    }
}

// `TIME`: a dash for none, or three numbers of two digits each, of any value, and the form.
fn time_of(word: &[u8]) -> Option<Time> {
    match word {
        b"-" => Some(time::blank()),
        [a, b, c, d, e, f, form @ (b'z' | b'/' | b'h')] => {
            let first = words::byte(&[*a, *b])?;
            let second = words::byte(&[*c, *d])?;
            let third = words::byte(&[*e, *f])?;
            Some(time::time_of(first, second, third, *form))
        }
        _ => None,
    }
}

// `HEX`, a dash for none: nine bytes at most, the last of them no space, filled up with spaces.
fn addressee_of(word: &[u8]) -> Option<Option<[u8; 9]>> {
    let mut addressee = [b' '; 9];
    match words::hex(word, &mut addressee)? {
        [] => Some(None),
        [.., b' '] => None,
        _ => Some(Some(addressee)),
    }
}

// `HEX`, a dash for none. Another kind than a message takes none.
fn identifier_of<'a>(kind: Kind, word: &[u8], room: &'a mut [u8]) -> Option<&'a [u8]> {
    let identifier = words::hex(word, room)?;
    if !is_message(kind) && !identifier.is_empty() {
        return None;
    }
    Some(identifier)
}

// ---- what a record of a kind can hold

// The sides of letters, south and west: a kind with a position has two letters, another none.
fn sides(kind: Kind, letters: [u8; 2]) -> Option<(bool, bool)> {
    let fit = if has_position(kind) {
        !letters.contains(&b'-')
    } else {
        letters == [b'-', b'-']
    };
    let [latitude, longitude] = letters;
    fit.then_some((latitude == b'S', longitude == b'W'))
}

// An addressee. Where none was given that is nine spaces in a message, and none in another kind. None is nine zeros, so another kind
// cannot hold nine zeros that were given.
fn addressee(kind: Kind, given: Option<[u8; 9]>) -> Option<[u8; 9]> {
    match given {
        None if is_message(kind) => Some([b' '; 9]),
        None => Some([0; 9]),
        Some(bytes) if !is_message(kind) && message::is_blank(bytes) => None,
        Some(bytes) => Some(bytes),
    }
}

// ---- all together

// A body with its letters and its addressee, where a record can hold them.
fn held(body: Body, letters: [u8; 2], given: Option<[u8; 9]>) -> Option<Body> {
    let (south, west) = sides(body.kind, letters)?;
    Some(Body {
        place: Place {
            south,
            west,
            ..body.place
        },
        addressee: addressee(body.kind, given)?,
        ..body
    })
}

// `KIND FLAG FROM TO HOPS LAT LON BLANKS TABLE CODE MESSAGE SPEED COURSE`, and the words that may follow, in their order, each at most
// once. The flag is Mic-E's own, or that a position takes messages. The identifier goes to the front of room.
pub fn record<'a>(mut asked: Words, room: &'a mut [u8]) -> Option<Asked<'a>> {
    let kind = kind_of(asked.next()?)?;
    let flag = flag_of(asked.next()?)?;
    let from = asked.next()?;
    let to = asked.next()?;
    let hops = asked.next()?;
    let place = place_of(&mut asked)?;
    let report = report_of(kind, flag, &mut asked)?;
    let letters = letters_of(kind, place, asked.value(b"letters="))?;
    let header = header_of(from, to, hops, asked.value(b"zeros="))?;
    let time = time_of(asked.value(b"time=").unwrap_or(b"-"))?;
    let given = addressee_of(asked.value(b"addressee=").unwrap_or(b"-"))?;
    let identifier = identifier_of(kind, asked.value(b"id=").unwrap_or(b"-"), room)?;
    let inner = words::byte(asked.value(b"inner=").unwrap_or(b"0"))?;
    let innermost = innermost_of(&mut asked)?;
    if !asked.is_over() {
        return None;
    }
    let body = Body {
        report,
        place,
        time,
        messaging: flag && !matches!(kind, Kind::MicE),
        kind,
        ..body::blank()
    };
    Some(Asked {
        header,
        body: held(body, letters, given),
        innermost,
        identifier,
        inner,
    })
}

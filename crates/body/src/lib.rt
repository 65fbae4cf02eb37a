// The body of a packet, by its type byte: read from a place of the input on, and written around its text, with the destination that
// goes with it.
#![tactic(auto)]

ghost use Rattle.std.specs.Prelude.{◌≡◌, cond, [], ◌+◌, ◌^◌, ◌≤◌, ◌<◌, length, drop};
ghost use Rattle.laws.specs.Bytes.{backquote, apostrophe};
ghost use Rattle.callsign.specs.Range.{call_part};
ghost use Rattle.time.specs.Time.{time_text};
ghost use Rattle.mic_e.specs.Destination.{read_destination, destination_bytes};
ghost use Rattle.mic_e.specs.Information.{read_information, information_out};
ghost use Rattle.message.specs.Message.{read_message, identifier_text, message_refusal};
ghost use Rattle.message.specs.Status.{read_status, status_text_refusal};
ghost use Rattle.body.specs.Body.{no_report, blank_body, body_accepted, body_refused, opening_of, span_from, error_number, time_at, positioned_from, report_body, mic_e_body, identifier_span, message_body, status_body, read_body_by};
ghost use Rattle.body.specs.Range.{is_no_letter, is_no_place, is_no_report, is_place_alone, is_report_alone, is_bare, unknown_in_range, position_in_range, mic_e_in_range, message_in_range, status_in_range};
ghost use Rattle.body.specs.Written.{mic_e_call, information_of, position_type, position_bytes, mic_e_bytes, message_bytes, status_bytes, without_tail, unwritten, written_as, written_or, write_body};

use callsign::Callsign;
use mic_e::{Course, Destination, Information, Message, Speed};
use position::Place;
use time::Time;

// What a body is.
#[derive(Clone, Copy, Debug, PartialEq, Eq)]
pub enum Kind {
    Unknown,
    Position,
    MicE,
    Message,
    Status,
}

// What a Mic-E report adds to a place.
#[derive(Clone, Copy)]
pub struct Report {
    pub speed: Speed,
    pub course: Course,
    pub message: Message,
    pub current: bool,
}

// Where a part of the input that was read stands, and its length. Writers ignore both.
#[repr(C)]
#[derive(Clone, Copy, Debug, Default, PartialEq, Eq)]
pub struct Span {
    pub at: usize,
    pub len: usize,
}

// A body by its parts. A part that the kind lacks is zero; a position or a status may have a time. The comment of a message or a
// status is its text. The report stands first: it is what C has in another form, so a header in front of it is copied by itself.
#[derive(Clone, Copy)]
pub struct Body {
    pub report: Report,
    pub place: Place,
    pub comment: Span,
    pub identifier: Span,
    pub time: Time,
    pub addressee: [u8; 9],
    pub messaging: bool,
    pub kind: Kind,
}

// What reading gives: the refusal's number and the blank body, or 0 and the body.
#[derive(Clone, Copy)]
pub struct BodyRead {
    pub body: Body,
    pub refusal: u8,
}

// What writing gives: the destination that goes with the body, its first `len` bytes, from the type byte up to the comment, and the
// `tail_len` bytes behind that, which only a message has; the other bytes are zero. At 14 and 18 there are no bytes and the
// destination is kept, at 15 there is neither.
#[derive(Clone, Copy)]
pub struct BodyWritten {
    pub to: Callsign,
    pub bytes: [u8; 27],
    pub tail: [u8; 6],
    pub len: usize,
    pub tail_len: usize,
    pub refusal: u8,
}

// What a body's first byte says: a position (messaging or not) without a time or with one, a Mic-E report (current or old), a message,
// a status, or none of these.
#[derive(Clone, Copy)]
enum Opening {
    Positioned { messaging: bool, timed: bool },
    Mic(bool),
    Addressed,
    Stated,
    Other,
}

// The time of a position, or none, and the place behind it.
#[derive(Clone, Copy)]
struct TimeAt {
    time: Time,
    behind: usize,
}

// Why a position has no time where it is to have one: its seven bytes are missing, or are none.
#[derive(Clone, Copy, Debug, PartialEq, Eq)]
enum TimeError {
    Missing,
    Bad,
}

// ---- nothing

#[tactic(auto, unfolding(crate::specs::Body::no_report))]
fn no_report() -> Report
    ensures { result ≡ no_report }
{
    Report {
        speed: Speed(0),
        course: Course(0),
        message: Message::M0,
        current: false,
    }
}

// The body with nothing in it, of Unknown kind.
#[tactic(auto, unfolding(crate::specs::Body::blank_body, crate::specs::Body::no_span, message::specs::Message::no_addressee, laws::specs::Lists::pad_to))]
pub fn blank() -> Body
    ensures { result ≡ blank_body }
{
    Body {
        report: no_report(),
        place: position::blank(),
        comment: Span::default(),
        identifier: Span::default(),
        time: time::blank(),
        addressee: [0; 9],
        messaging: false,
        kind: Kind::Unknown,
    }
}

fn accepted(body: Body) -> BodyRead
    ensures { result ≡ body_accepted body }
{
    BodyRead { body, refusal: 0 }
}

fn refused(n: u8) -> BodyRead
    ensures { result ≡ body_refused n }
{
    BodyRead {
        body: blank(),
        refusal: n,
    }
}

// ---- read

#[tactic(auto, unfolding(crate::specs::Body::opening_of))]
fn opening_of(b: u8) -> Opening
    ensures { result ≡ opening_of b }
{
    match b {
        b'!' => Opening::Positioned {
            messaging: false,
            timed: false,
        },
        b'=' => Opening::Positioned {
            messaging: true,
            timed: false,
        },
        b'/' => Opening::Positioned {
            messaging: false,
            timed: true,
        },
        b'@' => Opening::Positioned {
            messaging: true,
            timed: true,
        },
        0x1c | b'`' => Opening::Mic(true),
        0x1d | b'\'' => Opening::Mic(false),
        b':' => Opening::Addressed,
        b'>' => Opening::Stated,
        _ => Opening::Other,
    }
}

impl TimeError {
    // The number that it is refused with.
    #[tactic(auto, unfolding(crate::specs::Body::error_number, time::specs::Time::time_number))]
    fn number(self) -> u8
        ensures { result ≡ error_number self }
    {
        match self {
            TimeError::Missing => 10,
            TimeError::Bad => 17,
        }
    }
}

// The time that starts at the place `at`, if there is to be one, and the place behind it.
#[tactic(auto, unfolding(crate::specs::Body::time_at, crate::specs::Body::time_behind))]
fn time_at(s: &[u8], at: usize, timed: bool) -> Result<TimeAt, TimeError>
    requires { at ≤ length s.now }
    ensures { result ≡ time_at s.now at timed }
{
    if !timed {
        let time = time::blank();
        return Ok(TimeAt { time, behind: at });
    }
    if s.len() - at < 7 {
        return Err(TimeError::Missing);
    }
    let behind = at + 7;
    let time = time::read_time(&s[at..behind]).ok_or(TimeError::Bad)?;
    Ok(TimeAt { time, behind })
}

// From the place `at` to the end.
#[tactic(auto, unfolding(crate::specs::Body::span_from))]
fn span_from(s: &[u8], at: usize) -> Span
    requires { at ≤ length s.now }
    ensures { result ≡ span_from s.now at }
{
    Span {
        at,
        len: s.len() - at,
    }
}

// A position whose bytes behind the type byte start at the place `at`: its time, if it has one, and then its place.
#[tactic(auto, using(crate::proofs::Reading::behind_a_time), unfolding(crate::specs::Body::positioned_from, crate::specs::Body::behind_time, crate::specs::Body::position_from, crate::specs::Body::position_body, crate::specs::Body::blank_body))]
fn read_position(s: &[u8], at: usize, messaging: bool, timed: bool, strict: bool) -> BodyRead
    requires { at ≤ length s.now }
    ensures { result ≡ positioned_from strict s.now at messaging timed }
{
    let found = match time_at(s, at, timed) {
        Ok(found) => found,
        Err(error) => return refused(error.number()),
    };
    let p = position::read_position(&s[found.behind..], strict);
    if p.refusal != 0 {
        return refused(p.refusal);
    }
    accepted(Body {
        kind: Kind::Position,
        place: p.place,
        time: found.time,
        messaging,
        comment: span_from(s, found.behind + 19),
        ..blank()
    })
}

// What a destination's call says of a Mic-E report; its SSID is ignored.
#[tactic(auto, using(crate::proofs::Reading::call_other), unfolding(callsign::specs::Range::call_part))]
fn destination_of(to: Callsign) -> Option<Destination>
    ensures { result ≡ read_destination (call_part to) }
{
    if to.call_len != 6 {
        return None;
    }
    mic_e::read_destination(&to.text[..6])
}

// A Mic-E report whose destination was read, and whose information starts at the place `at`.
#[tactic(auto, using(crate::proofs::Reading::information_fits), unfolding(crate::specs::Body::report_body, crate::specs::Body::blank_body, mic_e::specs::Information::information_number))]
fn read_report(d: Destination, s: &[u8], at: usize, current: bool, strict: bool) -> BodyRead
    requires { at ≤ length s.now }
    ensures { result ≡ report_body strict d (read_information (drop at s.now) d.hundred d.west) current (span_from s.now (at + 8)) }
{
    let Some(i) = mic_e::read_information(&s[at..], d.hundred, d.west) else {
        return refused(12);
    };
    if position::is_off_table(strict, i.table) {
        return refused(20);
    }
    let place = Place {
        latitude: d.latitude,
        longitude: i.longitude,
        blanks: d.blanks,
        table: i.table,
        code: i.code,
        south: d.south,
        west: d.west,
    };
    let report = Report {
        speed: i.speed,
        course: i.course,
        message: d.message,
        current,
    };
    accepted(Body {
        kind: Kind::MicE,
        place,
        report,
        comment: span_from(s, at + 8),
        ..blank()
    })
}

// A Mic-E report: its destination, and then its information from the place `at` on.
#[tactic(auto, unfolding(crate::specs::Body::mic_e_body, mic_e::specs::Destination::destination_number))]
fn read_mic_e(to: Callsign, s: &[u8], at: usize, current: bool, strict: bool) -> BodyRead
    requires { at ≤ length s.now }
    ensures { result ≡ mic_e_body strict (read_destination (call_part to)) (drop at s.now) current (span_from s.now (at + 8)) }
{
    match destination_of(to) {
        Some(d) if !position::is_over(strict, d.sixty) => read_report(d, s, at, current, strict),
        _ => refused(11),
    }
}

// Where an identifier of `len` bytes stands behind a text that ends at the place `at`, past its `{`; nowhere where it has none.
#[tactic(auto, unfolding(crate::specs::Body::identifier_span, crate::specs::Body::no_span))]
fn identifier_span(at: usize, len: usize) -> Span
    requires { at + len < 2 ^ 64 }
    ensures { result ≡ identifier_span at len }
{
    if len == 0 {
        Span::default()
    } else {
        Span { at: at + 1, len }
    }
}

// A message whose bytes behind the type byte start at the place `at`.
#[tactic(auto, using(crate::proofs::Reading::of_a_message), unfolding(crate::specs::Body::message_body, crate::specs::Body::blank_body))]
fn read_message(s: &[u8], at: usize) -> BodyRead
    requires { at ≤ length s.now }
    ensures { result ≡ message_body (read_message (drop at s.now)) at }
{
    let m = message::read_message(&s[at..]);
    if m.refusal != 0 {
        return refused(m.refusal);
    }
    let start = at + 10;
    // Kept: the borrow checker takes an array into a literal from a variable alone.
    let addressee = m.addressee;
    accepted(Body {
        kind: Kind::Message,
        comment: Span {
            at: start,
            len: m.text,
        },
        identifier: identifier_span(start + m.text, m.identifier),
        addressee,
        ..blank()
    })
}

// The place behind a time that stands at the place `at`, or that place where there is no time.
#[tactic(auto, using(crate::proofs::Reading::text_length))]
fn behind_time(t: Time, at: usize) -> usize
    requires { at + length (time_text t) < 2 ^ 64 }
    ensures { result ≡ at + length (time_text t) }
{
    if t.form == 0 { at } else { at + 7 }
}

// A status whose bytes behind the type byte start at the place `at`.
#[tactic(auto, using(crate::proofs::Reading::time_ends), unfolding(crate::specs::Body::status_body, crate::specs::Body::blank_body, message::specs::Status::status_number))]
fn read_status(s: &[u8], at: usize) -> BodyRead
    requires { at ≤ length s.now }
    ensures { result ≡ status_body (read_status (drop at s.now)) s.now at }
{
    let Some(time) = message::read_status(&s[at..]) else {
        return refused(18);
    };
    accepted(Body {
        kind: Kind::Status,
        comment: span_from(s, behind_time(time, at)),
        time,
        ..blank()
    })
}

// Reads the body of a packet to that destination, which stands in s from the place `from` to the end. Where nothing stands
// there, it is of Unknown kind. Strictly minutes of 60 or more are 8, 9 or, in a Mic-E destination, 11, and a byte that names no symbol
// table is 20, last of all.
#[tactic(auto, unfolding(crate::specs::Body::read_body_by, crate::specs::Body::body_after))]
pub fn read(to: Callsign, s: &[u8], from: usize, strict: bool) -> BodyRead
    ensures { result ≡ read_body_by strict to s.now from }
{
    let Some(&first) = s.get(from) else {
        return accepted(blank());
    };
    match opening_of(first) {
        Opening::Positioned { messaging, timed } => {
            read_position(s, from + 1, messaging, timed, strict)
        }
        Opening::Mic(current) => read_mic_e(to, s, from + 1, current, strict),
        Opening::Addressed => read_message(s, from + 1),
        Opening::Stated => read_status(s, from + 1),
        Opening::Other => accepted(blank()),
    }
}

// ---- parts that a kind lacks

#[tactic(auto, unfolding(crate::specs::Range::is_no_letter))]
fn is_no_letter(p: Place) -> bool
    ensures { result ≡ is_no_letter p }
{
    !p.south && !p.west
}

#[tactic(auto, unfolding(crate::specs::Range::is_no_place))]
fn is_no_place(p: Place) -> bool
    ensures { result ≡ is_no_place p }
{
    p.latitude.0 == 0
        && p.longitude.0 == 0
        && p.blanks == 0
        && p.table == 0
        && p.code == 0
        && is_no_letter(p)
}

#[tactic(auto, unfolding(crate::specs::Range::is_no_report))]
fn is_no_report(m: Report) -> bool
    ensures { result ≡ is_no_report m }
{
    mic_e::message_number(m.message) == 0 && m.speed.0 == 0 && m.course.0 == 0 && !m.current
}

// Whether there is neither a report nor an addressee.
#[tactic(auto, unfolding(crate::specs::Range::is_place_alone))]
fn is_place_alone(b: Body) -> bool
    ensures { result ≡ is_place_alone b }
{
    is_no_report(b.report) && message::is_blank(b.addressee)
}

// Whether there is no messaging, no time and no addressee.
#[tactic(auto, unfolding(crate::specs::Range::is_report_alone))]
fn is_report_alone(b: Body) -> bool
    ensures { result ≡ is_report_alone b }
{
    !b.messaging && time::is_blank(b.time) && message::is_blank(b.addressee)
}

// Whether there is neither a place nor a report, and no flag.
#[tactic(auto, unfolding(crate::specs::Range::is_bare))]
fn is_bare(b: Body) -> bool
    ensures { result ≡ is_bare b }
{
    is_no_place(b.place) && !b.messaging && is_no_report(b.report)
}

// ---- written: each part is judged by what writes it

#[tactic(auto, unfolding(crate::specs::Written::written_as, laws::specs::Lists::pad_to))]
fn refused_to(n: u8, to: Callsign) -> BodyWritten
    ensures { result ≡ written_as n to [] [] }
{
    BodyWritten {
        to,
        bytes: [0; 27],
        tail: [0; 6],
        len: 0,
        tail_len: 0,
        refusal: n,
    }
}

#[tactic(auto, unfolding(crate::specs::Written::unwritten))]
fn unwritten() -> BodyWritten
    ensures { result ≡ unwritten }
{
    refused_to(15, callsign::blank())
}

// The first `len` bytes, and none behind the comment or text.
#[tactic(auto, unfolding(crate::specs::Written::without_tail, laws::specs::Lists::pad_to))]
fn without_tail(to: Callsign, bytes: [u8; 27], len: usize) -> BodyWritten
    ensures { result ≡ without_tail to bytes len }
{
    BodyWritten {
        to,
        bytes,
        tail: [0; 6],
        len,
        tail_len: 0,
        refusal: 0,
    }
}

#[tactic(auto, unfolding(crate::specs::Range::unknown_in_range))]
fn write_unknown(b: Body, to: Callsign) -> BodyWritten
    ensures { result ≡ cond (unknown_in_range b) (written_as 14 to [] []) unwritten }
{
    if !is_bare(b) || !time::is_blank(b.time) || !message::is_blank(b.addressee) {
        return unwritten();
    }
    refused_to(14, to)
}

// The type byte of a position that takes messages or not, with a time or without.
#[tactic(auto, unfolding(crate::specs::Written::position_type, time::specs::Time::is_present))]
fn position_type(messaging: bool, time: Time) -> u8
    ensures { result ≡ position_type messaging time }
{
    match (time.form == 0, messaging) {
        (true, true) => b'=',
        (true, false) => b'!',
        (false, true) => b'@',
        (false, false) => b'/',
    }
}

#[tactic(auto, unfolding(crate::specs::Range::position_in_range))]
fn write_position(b: Body, to: Callsign) -> BodyWritten
    ensures { result ≡ cond (position_in_range b) (written_as 0 to (position_bytes b.place b.messaging b.time) []) unwritten }
{
    if !is_place_alone(b) {
        return unwritten();
    }
    let mut bytes = [0u8; 27];
    bytes[0] = position_type(b.messaging, b.time);
    let t = time::write_time(b.time, &mut bytes[1..]);
    if t.refusal != 0 {
        return unwritten();
    }
    let behind = 1 + t.reported;
    let p = position::write_position(b.place, &mut bytes[behind..]);
    if p.refusal != 0 {
        return unwritten();
    }
    without_tail(to, bytes, behind + 19)
}

// The type byte of a Mic-E report.
fn report_type(current: bool) -> u8
    ensures { result ≡ cond current backquote apostrophe }
{
    if current { b'`' } else { b'\'' }
}

// The information of a Mic-E report behind its type byte, with the characters of its destination.
fn write_report(place: Place, report: Report, call: [u8; 6]) -> BodyWritten
    requires { call ≡ destination_bytes place.latitude.0 place.blanks report.message place.longitude.0 }
    ensures { result ≡ cond (information_out (information_of place report)) unwritten (written_as 0 (mic_e_call place report) (mic_e_bytes place report) []) }
{
    let i = Information {
        longitude: place.longitude,
        speed: report.speed,
        course: report.course,
        code: place.code,
        table: place.table,
    };
    let mut bytes = [0u8; 27];
    let w = mic_e::write_information(i, &mut bytes[1..]);
    if w.refusal != 0 {
        return unwritten();
    }
    bytes[0] = report_type(report.current);
    without_tail(callsign::address_call(call, 6, 0), bytes, 9)
}

#[tactic(auto, using(crate::proofs::Writing::of_mic_e), unfolding(crate::specs::Range::mic_e_in_range))]
fn write_mic_e(b: Body, to: Callsign) -> BodyWritten
    ensures { result ≡ cond (mic_e_in_range b to) (written_as 0 (mic_e_call b.place b.report) (mic_e_bytes b.place b.report) []) unwritten }
{
    let place = b.place;
    let report = b.report;
    if !callsign::is_blank(to) || !is_report_alone(b) || !position::letters_agree(place) {
        return unwritten();
    }
    let d = mic_e::write_destination(
        place.latitude,
        place.blanks,
        report.message,
        place.longitude,
    );
    if d.refusal != 0 {
        return unwritten();
    }
    write_report(place, report, d.bytes)
}

// A message to that addressee, around its text; or 18 for a text or an identifier that it may not have.
fn write_addressed(addressee: [u8; 9], to: Callsign, text: &[u8], identifier: &[u8]) -> BodyWritten
    ensures { result ≡ written_or (message_refusal text.now identifier.now) to (message_bytes addressee) (identifier_text identifier.now) }
{
    if !message::is_text(text) {
        return refused_to(18, to);
    }
    let mut tail = [0u8; 6];
    let w = message::write_identifier(identifier, &mut tail);
    if w.refusal != 0 {
        return refused_to(18, to);
    }
    let mut bytes = [0u8; 27];
    bytes[0] = b':';
    bytes[1..11].copy_from_slice(&message::front(addressee));
    BodyWritten {
        to,
        bytes,
        tail,
        len: 11,
        tail_len: w.reported,
        refusal: 0,
    }
}

#[tactic(auto, unfolding(crate::specs::Range::message_in_range))]
fn write_message(b: Body, to: Callsign, text: &[u8], identifier: &[u8]) -> BodyWritten
    ensures { result ≡ cond (message_in_range b) (written_or (message_refusal text.now identifier.now) to (message_bytes b.addressee) (identifier_text identifier.now)) unwritten }
{
    if !is_bare(b) || !time::is_blank(b.time) {
        return unwritten();
    }
    write_addressed(b.addressee, to, text, identifier)
}

#[tactic(auto, unfolding(crate::specs::Range::status_in_range))]
fn write_status(b: Body, to: Callsign, text: &[u8]) -> BodyWritten
    ensures { result ≡ cond (status_in_range b) (written_or (status_text_refusal b.time text.now) to (status_bytes b.time) []) unwritten }
{
    if !is_bare(b) || !message::is_blank(b.addressee) {
        return unwritten();
    }
    let mut bytes = [0u8; 27];
    bytes[0] = b'>';
    let t = message::write_status_time(b.time, &mut bytes[1..]);
    if t.refusal != 0 {
        return unwritten();
    }
    if !message::is_status_text(b.time, text) {
        return refused_to(18, to);
    }
    without_tail(to, bytes, 1 + t.reported)
}

// Writes the body of a record with the destination `to`: the destination that goes with it, and its bytes around the comment or text;
// or 15, 14 for an Unknown kind, or 18 for a text or an identifier that the kind may not have. A Mic-E body has its destination built,
// and its record has none. Only a message takes the identifier, where an empty one is none.
#[tactic(auto, using(crate::proofs::Writing::by_kind))]
pub fn write(b: Body, to: Callsign, text: &[u8], identifier: &[u8]) -> BodyWritten
    ensures { result ≡ write_body b to text.now identifier.now }
{
    match b.kind {
        Kind::Unknown => write_unknown(b, to),
        Kind::Position => write_position(b, to),
        Kind::MicE => write_mic_e(b, to),
        Kind::Message => write_message(b, to, text, identifier),
        Kind::Status => write_status(b, to, text),
    }
}

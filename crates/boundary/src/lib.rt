// The way in for C and Rust: packets read and written, fields listed, bounds and boxes, as functions of the C ABI over lent bytes,
// numbers and records by value. A record is the library's own, but that an enum in it is a number. No function asks more of its
// caller than its C type says. The parts of a packet have a library of their own, the crate parts.
#![tactic(auto)]

ghost use Rattle.std.specs.Prelude.{◌≡◌};
ghost use Rattle.buffer.specs.Wrote.{ends, wrote};
ghost use Rattle.lonlat.specs.Angle.{most_latitude, most_longitude};
ghost use Rattle.lonlat.specs.Longitude.{longitude_refusal};
ghost use Rattle.position.specs.Bounds.{bounds_of};
ghost use Rattle.position.specs.Page.{box_of};
ghost use Rattle.fields.specs.Lists.{listed, motion_refusal, motion_fields, longitude_fields};
ghost use Rattle.packet.specs.Packet.{read_text, read_frame, strict_text, strict_frame};
ghost use Rattle.packet.specs.Outer.{alone_of};
ghost use Rattle.packet.specs.Written.{text_bytes, frame_bytes};
ghost use Rattle.boundary.specs.Numbers.{kind_number, kind_at};
ghost use Rattle.boundary.specs.Record.{report_in_c, body_in_c, record_in_c, read_in_c, is_known, report_meant, body_meant, record_meant, text_refusal_in_c, frame_refusal_in_c};

use body::{Body, Kind, Report, Span};
use header::Header;
use lonlat::{Latitude, Longitude};
use mic_e::{Course, Speed};
use packet::{Outer, PacketRead, Record};
use position::{BoundsAnswer, PageBox, Place};
use time::Time;

// A report as C has it: its message is a number.
#[repr(C)]
#[derive(Clone, Copy)]
pub struct CReport {
    pub speed: Speed,
    pub course: Course,
    pub message: u8,
    pub current: bool,
}

// A body as C has it: its kind is a number.
#[repr(C)]
#[derive(Clone, Copy)]
pub struct CBody {
    pub report: CReport,
    pub place: Place,
    pub comment: Span,
    pub identifier: Span,
    pub time: Time,
    pub addressee: [u8; 9],
    pub messaging: bool,
    pub kind: u8,
}

// A record as C has it.
#[repr(C)]
#[derive(Clone, Copy)]
pub struct CRecord {
    pub header: Header,
    pub body: CBody,
    pub innermost: Header,
    pub inner: u8,
}

// What reading gives: 0 and the record, or the refusal's number and zeros.
// Kept: a number beside the values, since C has the record as it stands.
#[repr(C)]
#[derive(Clone, Copy)]
pub struct CRead {
    pub record: CRecord,
    pub refusal: u8,
}

// ---- numbers

// The number of a kind: C has no enum of ours.
#[tactic(auto, unfolding(crate::specs::Numbers::kind_number))]
fn kind_number(kind: Kind) -> u8
    ensures { result ≡ kind_number kind }
{
    match kind {
        Kind::Unknown => 0,
        Kind::Position => 1,
        Kind::MicE => 2,
        Kind::Message => 3,
        Kind::Status => 4,
    }
}

// The kind of a number; of any other, Unknown.
#[tactic(auto, unfolding(crate::specs::Numbers::kind_at))]
fn kind_at(n: u8) -> Kind
    ensures { result ≡ kind_at n }
{
    match n {
        1 => Kind::Position,
        2 => Kind::MicE,
        3 => Kind::Message,
        4 => Kind::Status,
        _ => Kind::Unknown,
    }
}

// ---- a record as C has it, and the record that is meant

impl From<Report> for CReport {
    ghost from_gives = { λ r c. c ≡ report_in_c r };

    #[tactic(auto, unfolding(crate::specs::Record::report_in_c))]
    fn from(r: Report) -> CReport {
        CReport {
            speed: r.speed,
            course: r.course,
            message: mic_e::message_number(r.message),
            current: r.current,
        }
    }
}

impl From<Body> for CBody {
    ghost from_gives = { λ b c. c ≡ body_in_c b };

    #[tactic(auto, unfolding(crate::specs::Record::body_in_c))]
    fn from(b: Body) -> CBody {
        let addressee = b.addressee;
        CBody {
            report: CReport::from(b.report),
            place: b.place,
            comment: b.comment,
            identifier: b.identifier,
            time: b.time,
            addressee,
            messaging: b.messaging,
            kind: kind_number(b.kind),
        }
    }
}

impl From<Record> for CRecord {
    ghost from_gives = { λ r c. c ≡ record_in_c r };

    #[tactic(auto, unfolding(crate::specs::Record::record_in_c))]
    fn from(r: Record) -> CRecord {
        CRecord {
            header: r.header,
            body: CBody::from(r.body),
            innermost: r.innermost,
            inner: r.inner,
        }
    }
}

impl From<PacketRead> for CRead {
    ghost from_gives = { λ p c. c ≡ read_in_c p };

    #[tactic(auto, unfolding(crate::specs::Record::read_in_c))]
    fn from(p: PacketRead) -> CRead {
        CRead {
            record: CRecord::from(p.record),
            refusal: p.refusal,
        }
    }
}

// A packet with none inside.
impl From<Outer> for CRead {
    ghost from_gives = { λ o c. c ≡ read_in_c (alone_of o) };

    #[tactic(auto, unfolding(crate::specs::Record::read_in_c, crate::specs::Record::record_in_c, packet::specs::Outer::alone_of))]
    fn from(o: Outer) -> CRead {
        CRead {
            record: CRecord {
                header: o.header,
                body: CBody::from(o.body),
                innermost: header::blank(),
                inner: 0,
            },
            refusal: o.refusal,
        }
    }
}

// Whether the numbers of kind and message stand for one.
#[tactic(auto, unfolding(crate::specs::Record::is_known))]
fn is_known(b: CBody) -> bool
    ensures { result ≡ is_known b }
{
    b.kind <= 4 && b.report.message <= 15
}

impl From<CReport> for Report {
    ghost from_gives = { λ c r. r ≡ report_meant c };

    #[tactic(auto, unfolding(crate::specs::Record::report_meant))]
    fn from(c: CReport) -> Report {
        Report {
            speed: c.speed,
            course: c.course,
            message: mic_e::message_at(c.message),
            current: c.current,
        }
    }
}

impl From<CBody> for Body {
    ghost from_gives = { λ c b. b ≡ body_meant c };

    #[tactic(auto, unfolding(crate::specs::Record::body_meant))]
    fn from(c: CBody) -> Body {
        let addressee = c.addressee;
        Body {
            report: Report::from(c.report),
            place: c.place,
            comment: c.comment,
            identifier: c.identifier,
            time: c.time,
            addressee,
            messaging: c.messaging,
            kind: kind_at(c.kind),
        }
    }
}

impl From<CRecord> for Record {
    ghost from_gives = { λ c r. r ≡ record_meant c };

    #[tactic(auto, unfolding(crate::specs::Record::record_meant))]
    fn from(c: CRecord) -> Record {
        Record {
            header: c.header,
            body: Body::from(c.body),
            innermost: c.innermost,
            inner: c.inner,
        }
    }
}

// ---- packets: one with none inside, read as usually, goes to C as it was read by itself, so that its record is not handed on once more

// Reads a line of text: the record, or the number of its first fault and zeros.
#[unsafe(no_mangle)]
pub extern "C" fn tusselgro_read_text(line: &[u8]) -> CRead
    ensures { result ≡ read_in_c (read_text line.now) }
{
    let o = packet::read_outer(line, false, packet::MOST, false);
    if packet::holds_packet(line, o.at) {
        return CRead::from(packet::read_inside(o, line, false));
    }
    CRead::from(o)
}

// Reads an AX.25 frame, from its destination to the end of its information: as tusselgro_read_text.
#[unsafe(no_mangle)]
pub extern "C" fn tusselgro_read_frame(frame: &[u8]) -> CRead
    ensures { result ≡ read_in_c (read_frame frame.now) }
{
    let o = packet::read_outer(frame, true, packet::MOST, false);
    if packet::holds_packet(frame, o.at) {
        return CRead::from(packet::read_inside(o, frame, false));
    }
    CRead::from(o)
}

// Reads a line of text strictly: minutes of 60 or more are 8, 9 or, in a Mic-E destination, 11, and a byte that names no symbol table is
// 20, last of all. What is accepted is the record of tusselgro_read_text.
#[unsafe(no_mangle)]
pub extern "C" fn tusselgro_read_text_strictly(line: &[u8]) -> CRead
    ensures { result ≡ read_in_c (strict_text line.now) }
{
    CRead::from(packet::read(line, false, true))
}

// Reads an AX.25 frame strictly: as tusselgro_read_text_strictly.
#[unsafe(no_mangle)]
pub extern "C" fn tusselgro_read_frame_strictly(frame: &[u8]) -> CRead
    ensures { result ≡ read_in_c (strict_frame frame.now) }
{
    CRead::from(packet::read(frame, true, true))
}

// Writes a record with its comment, or its text and identifier, as a line of text; refused with 15, 14, 18, 1 or 16. Where the record
// says that they stood is ignored. Only a message takes the identifier; an empty one is none.
#[unsafe(no_mangle)]
pub extern "C" fn tusselgro_write_text(
    r: CRecord,
    comment: &[u8],
    identifier: &[u8],
    out: &mut [u8],
) -> buffer::Answer
    ensures { ends result out.new ≡ wrote (text_refusal_in_c r comment.now identifier.now) (text_bytes (record_meant r) comment.now identifier.now) out.old }
{
    if !is_known(r.body) {
        return buffer::refused(15);
    }
    packet::write_text(Record::from(r), comment, identifier, out)
}

// The same as an AX.25 frame; refused with 15, 14, 18, 13, 1 or 16.
#[unsafe(no_mangle)]
pub extern "C" fn tusselgro_write_frame(
    r: CRecord,
    comment: &[u8],
    identifier: &[u8],
    out: &mut [u8],
) -> buffer::Answer
    ensures { ends result out.new ≡ wrote (frame_refusal_in_c r comment.now identifier.now) (frame_bytes (record_meant r) comment.now identifier.now) out.old }
{
    if !is_known(r.body) {
        return buffer::refused(15);
    }
    packet::write_frame(Record::from(r), comment, identifier, out)
}

// ---- fields

// All the Mic-E fields that read as that speed and course, in ascending order; or 15 or 16.
#[unsafe(no_mangle)]
pub extern "C" fn tusselgro_list_motion(speed: u32, course: u32, out: &mut [u8]) -> buffer::Answer
    ensures { ends result out.new ≡ listed (motion_refusal speed course) (motion_fields speed course) out.old }
{
    fields::list_motion(Speed(speed), Course(course), out)
}

// All the Mic-E fields that read as that longitude under the offset and the side, in ascending order; or 15 or 16.
#[unsafe(no_mangle)]
pub extern "C" fn tusselgro_list_longitude(
    longitude: i32,
    hundred: bool,
    west: bool,
    out: &mut [u8],
) -> buffer::Answer
    ensures { ends result out.new ≡ listed (longitude_refusal longitude) (longitude_fields hundred west longitude) out.old }
{
    fields::list_longitude(Longitude(longitude), hundred, west, out)
}

// ---- bounds and boxes

// The bounds in degrees of a latitude whose last digits are blank, as many as blanks says; or 15 and 0, 0.
#[unsafe(no_mangle)]
pub extern "C" fn tusselgro_latitude_bounds(latitude: i32, blanks: u8) -> BoundsAnswer
    ensures { result ≡ bounds_of most_latitude latitude blanks }
{
    position::latitude_bounds(Latitude(latitude), blanks)
}

// The same of a longitude.
#[unsafe(no_mangle)]
pub extern "C" fn tusselgro_longitude_bounds(longitude: i32, blanks: u8) -> BoundsAnswer
    ensures { result ≡ bounds_of most_longitude longitude blanks }
{
    position::longitude_bounds(Longitude(longitude), blanks)
}

// The box for the page, in half hundredths of a minute, of a latitude with such blanks and the letter S where south, else N; or 15
// and 0, 0, also for a letter that contradicts the angle.
#[unsafe(no_mangle)]
pub extern "C" fn tusselgro_latitude_box(latitude: i32, blanks: u8, south: bool) -> PageBox
    ensures { result ≡ box_of most_latitude latitude blanks south }
{
    position::latitude_box(Latitude(latitude), blanks, south)
}

// The same of a longitude, with the letter W where west, else E.
#[unsafe(no_mangle)]
pub extern "C" fn tusselgro_longitude_box(longitude: i32, blanks: u8, west: bool) -> PageBox
    ensures { result ≡ box_of most_longitude longitude blanks west }
{
    position::longitude_box(Longitude(longitude), blanks, west)
}

// A packet: the record of its header and body, read from a line of text or an AX.25 frame, and written as either. A body may hold
// another packet, as text, and so on up to four: then the record has the innermost header and body beside the outermost header.
#![tactic(auto)]

ghost use Rattle.std.specs.Prelude.{◌≡◌, cond, ◌+◌, ◌^◌, ◌≤◌, ◌<◌, length, drop};
ghost use Rattle.header.specs.Text.{read_header_text};
ghost use Rattle.header.specs.Frame.{read_frame_header};
ghost use Rattle.header.specs.Range.{text_refusal as header_text_refusal};
ghost use Rattle.buffer.specs.Wrote.{refused_by, ends, wrote};
ghost use Rattle.packet.specs.Record.{blank_record, packet_refused};
ghost use Rattle.packet.specs.Packet.{most_inner, kept_to, holds_packet, is_nowhere, moved_span, moved_body, innermost_of, packet_around, read_any_text, read_text_by, read_text, strict_text, read_frame_by, read_frame, strict_frame};
ghost use Rattle.packet.specs.Outer.{outer_refused, outer_within, alone_of, inside_of, packet_from};
ghost use Rattle.packet.specs.Range.{range_refusal};
ghost use Rattle.packet.specs.Written.{text_bytes, frame_bytes, or_else, text_refusal, frame_refusal};
ghost use Rattle.packet.specs.Private.{head_bytes, head_refusal, wrote_behind};

use body::{Body, Kind, Span};
use buffer::Pieces;
use callsign::Callsign;
use header::{Header, HeaderRead};

// A packet by its parts: its own header, and how many packets are inside it, with the header of the innermost and its body. Without
// one the body is the packet's own and the innermost header blank. The header that a Mic-E body belongs to has no destination.
#[derive(Clone, Copy)]
pub struct Record {
    pub header: Header,
    pub body: Body,
    pub innermost: Header,
    pub inner: u8,
}

// What reading gives: the refusal's number and the blank record, or 0 and the record.
#[derive(Clone, Copy)]
pub struct PacketRead {
    pub record: Record,
    pub refusal: u8,
}

// A packet read by itself, whatever its body holds: its header, its body by the type byte, of Unknown kind where it holds a packet, and
// the place of the body; or the refusal's number, nothing, and the end of the input for the place.
#[derive(Clone, Copy)]
pub struct Outer {
    pub header: Header,
    pub body: Body,
    pub at: usize,
    pub refusal: u8,
}

// The most bytes of a line or a frame.
pub const MOST: usize = 512;

// The most packets inside a packet.
const MOST_INNER: u8 = 4;

// ---- nothing

// The record with nothing in it.
#[tactic(auto, unfolding(crate::specs::Record::blank_record))]
pub fn blank() -> Record
    ensures { result ≡ blank_record }
{
    Record {
        header: header::blank(),
        body: body::blank(),
        innermost: header::blank(),
        inner: 0,
    }
}

#[tactic(auto, unfolding(crate::specs::Record::packet_refused))]
fn refused(n: u8) -> PacketRead
    ensures { result ≡ packet_refused n }
{
    PacketRead {
        record: blank(),
        refusal: n,
    }
}

// ---- read

#[tactic(auto, unfolding(crate::specs::Packet::kept_to))]
fn kept_to(kind: Kind, to: Callsign) -> Callsign
    ensures { result ≡ kept_to kind to }
{
    match kind {
        Kind::MicE => callsign::blank(),
        Kind::Unknown | Kind::Position | Kind::Message | Kind::Status => to,
    }
}

#[tactic(auto, unfolding(crate::specs::Outer::outer_refused))]
fn outer_refused(s: &[u8], n: u8) -> Outer
    ensures { result ≡ outer_refused s.now n }
{
    Outer {
        header: header::blank(),
        body: body::blank(),
        at: s.len(),
        refusal: n,
    }
}

// The header of an AX.25 frame where framed, else of a text, however long.
fn header_in(s: &[u8], framed: bool) -> HeaderRead
    ensures { result ≡ cond framed (read_frame_header s.now) (read_header_text s.now) }
{
    if framed {
        header::read_frame(s)
    } else {
        header::read_any_length(s)
    }
}

// Reads an AX.25 frame where framed, else a text, by itself: refused with 1 where it is longer than `most`, and then as its header
// and its body are, which is judged strictly where strict.
// Kept: `framed` and `strict` are flags, by which the definitions and the promises of the public functions go.
#[tactic(auto, unfolding(crate::specs::Outer::outer_within, crate::specs::Outer::outer_after, crate::specs::Outer::outer_of))]
pub fn read_outer(s: &[u8], framed: bool, most: usize, strict: bool) -> Outer
    ensures { result ≡ outer_within strict most framed s.now }
{
    if most < s.len() {
        return outer_refused(s, 1);
    }
    let h = header_in(s, framed);
    if h.refusal != 0 {
        return outer_refused(s, h.refusal);
    }
    let found = body::read(h.header.to, s, h.body, strict);
    if found.refusal != 0 {
        return outer_refused(s, found.refusal);
    }
    Outer {
        header: Header {
            to: kept_to(found.body.kind, h.header.to),
            ..h.header
        },
        body: found.body,
        at: h.body,
        refusal: 0,
    }
}

// A packet with none inside.
#[tactic(auto, unfolding(crate::specs::Outer::alone_of))]
fn alone(o: Outer) -> PacketRead
    ensures { result ≡ alone_of o }
{
    PacketRead {
        record: Record {
            header: o.header,
            body: o.body,
            innermost: header::blank(),
            inner: 0,
        },
        refusal: o.refusal,
    }
}

// Whether the body that stands in s from the place `at` on holds a packet.
#[tactic(auto, unfolding(crate::specs::Packet::holds_packet))]
pub fn holds_packet(s: &[u8], at: usize) -> bool
    ensures { result ≡ holds_packet s.now at }
{
    at < s.len() && s[at] == b'}'
}

#[tactic(auto, unfolding(crate::specs::Packet::is_nowhere))]
fn is_nowhere(p: Span) -> bool
    ensures { result ≡ is_nowhere p }
{
    p == Span::default()
}

#[tactic(auto, unfolding(crate::specs::Packet::moved_span))]
fn moved_span(p: Span, by: usize) -> Span
    requires { p.at + by < 2 ^ 64 }
    ensures { result ≡ moved_span by p }
{
    if is_nowhere(p) {
        return p;
    }
    Span { at: p.at + by, ..p }
}

// The body of a packet that starts so far inside another, with the places of the whole.
#[tactic(auto, unfolding(crate::specs::Packet::moved_body))]
fn moved_body(b: Body, by: usize) -> Body
    requires { (b.comment.at + by < 2 ^ 64) × (b.identifier.at + by < 2 ^ 64) }
    ensures { result ≡ moved_body by b }
{
    Body {
        comment: moved_span(b.comment, by),
        identifier: moved_span(b.identifier, by),
        ..b
    }
}

#[tactic(auto, unfolding(crate::specs::Packet::innermost_of))]
fn innermost_of(r: Record) -> Header
    ensures { result ≡ innermost_of r }
{
    if r.inner == 0 { r.header } else { r.innermost }
}

// The packet of a header around another packet, which starts at the place `at`.
#[tactic(auto, unfolding(crate::specs::Packet::packet_around, crate::specs::Packet::record_around))]
fn packet_around(h: Header, at: usize, p: PacketRead) -> PacketRead
    requires { (p.record.inner < 255) × (p.record.body.comment.at + at < 2 ^ 64) × (p.record.body.identifier.at + at < 2 ^ 64) }
    ensures { result ≡ packet_around h at p }
{
    if p.refusal != 0 {
        return refused(p.refusal);
    }
    PacketRead {
        record: Record {
            header: h,
            body: moved_body(p.record.body, at),
            innermost: innermost_of(p.record),
            inner: p.record.inner + 1,
        },
        refusal: 0,
    }
}

// The packet reader: what an outer packet, read from s, is with the packets that it holds, `left` of which may still be read.
#[cycle(body_from_packet_from)]
#[tactic(auto, unfolding(crate::specs::Outer::packet_from))]
fn packet_from(o: Outer, s: &[u8], left: u8, strict: bool) -> PacketRead
    ensures { result ≡ packet_from strict left o s.now }
{
    if holds_packet(s, o.at) {
        return packet_around(o.header, o.at + 1, body_from(s, o.at, left, strict));
    }
    alone(o)
}

// The body reader: the packet that the body at the place `at` holds.
#[cycle(body_from_packet_from)]
#[tactic(auto, using(crate::proofs::ByItself::inside_text))]
fn body_from(s: &[u8], at: usize, left: u8, strict: bool) -> PacketRead
    requires { at < length s.now }
    ensures { result ≡ inside_of strict left (drop (at + 1) s.now) }
{
    if left == 0 {
        return refused(19);
    }
    let inside = &s[at + 1..];
    let o = read_outer(inside, false, inside.len(), strict);
    packet_from(o, inside, left - 1, strict)
}

// What an outer packet, read from s, is with the packets that it holds.
pub fn read_inside(o: Outer, s: &[u8], strict: bool) -> PacketRead
    ensures { result ≡ packet_from strict most_inner o s.now }
{
    packet_from(o, s, MOST_INNER, strict)
}

// Reads a text, however long: the record, or the number of its first fault and the blank record.
#[tactic(auto, using(crate::proofs::ByItself::any_from))]
pub fn read_any_length(s: &[u8]) -> PacketRead
    ensures { result ≡ read_any_text s.now }
{
    packet_from(read_outer(s, false, s.len(), false), s, MOST_INNER, false)
}

// Reads an AX.25 frame where framed, else a line of text: refused with 1, and then as a text of any length. Strictly minutes of 60 or
// more are refused with 8, 9 or 11, and with 20, last of all, a byte that names no symbol table; a packet inside is judged likewise.
#[tactic(auto, using(crate::proofs::ByItself::either_from))]
pub fn read(s: &[u8], framed: bool, strict: bool) -> PacketRead
    ensures { result ≡ cond framed (read_frame_by strict s.now) (read_text_by strict s.now) }
{
    read_inside(read_outer(s, framed, MOST, strict), s, strict)
}

// Reads a line of text.
pub fn read_text(s: &[u8]) -> PacketRead
    ensures { result ≡ read_text s.now }
{
    read(s, false, false)
}

// Reads an AX.25 frame, from its destination to the end of its information.
pub fn read_frame(s: &[u8]) -> PacketRead
    ensures { result ≡ read_frame s.now }
{
    read(s, true, false)
}

// Reads a line of text strictly.
pub fn read_text_strictly(s: &[u8]) -> PacketRead
    ensures { result ≡ strict_text s.now }
{
    read(s, false, true)
}

// Reads an AX.25 frame strictly.
pub fn read_frame_strictly(s: &[u8]) -> PacketRead
    ensures { result ≡ strict_frame s.now }
{
    read(s, true, true)
}

// ---- written

#[tactic(auto, unfolding(crate::specs::Private::head_refusal, crate::specs::Private::head_bytes))]
fn write_header(h: Header, framed: bool, out: &mut [u8]) -> buffer::Answer
    ensures { ends result out.new ≡ wrote (head_refusal framed h) (head_bytes framed h) out.old }
{
    if framed {
        header::write_frame(h, out)
    } else {
        header::write_text(h, out)
    }
}

// The answer where the body is refused: a header out of range comes before that, with 15.
fn refused_beside(h: Header, n: u8) -> buffer::Answer
    ensures { result ≡ refused_by (or_else (header_text_refusal h) n) }
{
    let mut bytes = [0u8; 178];
    let judged = header::write_text(h, &mut bytes);
    if judged.refusal != 0 {
        return buffer::refused(judged.refusal);
    }
    buffer::refused(n)
}

// Writes a header, at most 178 bytes, the body up to its text, at most 27, the text, and what stands behind it.
fn write_behind(
    h: Header,
    framed: bool,
    body: &[u8],
    text: &[u8],
    tail: &[u8],
    out: &mut [u8],
) -> buffer::Answer
    requires { length body.now ≤ 27 }
    ensures { ends result out.new ≡ wrote_behind framed h body.now text.now tail.now out.old }
{
    let mut bytes = [0u8; 205];
    let w = write_header(h, framed, &mut bytes);
    if w.refusal != 0 {
        return buffer::refused(w.refusal);
    }
    let mut front = Pieces::behind(&mut bytes, w.reported);
    front.put(body);
    buffer::write_three(MOST, front.written(), text, tail, out)
}

// The answer where there is a packet inside: 15 for a number, a header or a part out of range, else 14.
#[tactic(auto, using(crate::proofs::Order::inside_refused))]
fn refused_inside(r: Record) -> buffer::Answer
    requires { r.inner ≡ 0 → ⊥ }
    ensures { result ≡ refused_by (or_else (range_refusal r) 14) }
{
    if MOST_INNER < r.inner {
        return buffer::refused(15);
    }
    let b = body::write(r.body, r.innermost.to, b"", b"");
    if b.refusal == 15 {
        return buffer::refused(15);
    }
    let judged = refused_beside(r.innermost, 14);
    refused_beside(r.header, judged.refusal)
}

// Writes a record with its comment, or its text and identifier, as an AX.25 frame where framed, else as a line of text; refused with 15,
// 14, 18, 13 (a frame alone), 1 or 16. Where the record says that they stood is ignored. Only a message takes the identifier; an empty
// one is none.
pub fn write(
    r: Record,
    framed: bool,
    text: &[u8],
    identifier: &[u8],
    out: &mut [u8],
) -> buffer::Answer
    ensures { ends result out.new ≡ cond framed (wrote (frame_refusal r text.now identifier.now) (frame_bytes r text.now identifier.now) out.old) (wrote (text_refusal r text.now identifier.now) (text_bytes r text.now identifier.now) out.old) }
{
    if r.inner != 0 {
        return refused_inside(r);
    }
    if !header::is_blank(r.innermost) {
        return buffer::refused(15);
    }
    let b = body::write(r.body, r.header.to, text, identifier);
    let header = Header {
        to: b.to,
        ..r.header
    };
    if b.refusal != 0 {
        return refused_beside(header, b.refusal);
    }
    write_behind(
        header,
        framed,
        &b.bytes[..b.len],
        text,
        &b.tail[..b.tail_len],
        out,
    )
}

// Writes a record as a line of text; refused with 15, 14, 18, 1 or 16.
pub fn write_text(r: Record, text: &[u8], identifier: &[u8], out: &mut [u8]) -> buffer::Answer
    ensures { ends result out.new ≡ wrote (text_refusal r text.now identifier.now) (text_bytes r text.now identifier.now) out.old }
{
    write(r, false, text, identifier, out)
}

// Writes a record as an AX.25 frame; refused with 15, 14, 18, 13, 1 or 16.
pub fn write_frame(r: Record, text: &[u8], identifier: &[u8], out: &mut [u8]) -> buffer::Answer
    ensures { ends result out.new ≡ wrote (frame_refusal r text.now identifier.now) (frame_bytes r text.now identifier.now) out.old }
{
    write(r, true, text, identifier, out)
}

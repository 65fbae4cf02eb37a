// The header of a packet: source, destination, up to eight hops, and where the body starts; of a line of text and of an
// AX.25 frame, read and written.
#![tactic(auto)]

ghost use Rattle.std.specs.Prelude.{◌≡◌, true, cond, not, ◌&&◌, [], ◌∷◌, ◌≤◌, length, drop, slice_index_or};
ghost use Rattle.std.specs.List.{list_all, list_any};
ghost use Rattle.laws.specs.Bytes.{capital_a, small_q};
ghost use Rattle.buffer.specs.Wrote.{ends, wrote};
ghost use Rattle.buffer.specs.Filled.{front_of};
ghost use Rattle.callsign.specs.Packed.{write_address};
ghost use Rattle.callsign.specs.Text.{read_text};
ghost use Rattle.callsign.specs.Range.{in_range, text_of};
ghost use Rattle.header.specs.Hop.{is_q_name, is_heard, is_call, q_hop};
ghost use Rattle.header.specs.Header.{number_of, blank_hop, path_of, blank_header, header_refused, header_accepted};
ghost use Rattle.header.specs.Text.{fields, starts_q, hop_named, text_hops, read_route, read_before, read_header_text, read_text_header, header_text};
ghost use Rattle.header.specs.Frame.{starts_with_pair, frame_hops, with_pair, read_source, read_frame_header, header_frame};
ghost use Rattle.header.specs.Range.{is_blank, is_blank_header, text_refusal, frame_refusal};
ghost use Rattle.header.specs.Private.{frame_read, text_read, starred_read, carried_kind, is_tidy_hop, is_tidy};
ghost use Rattle.header.specs.Pieces.{building, plain, call_piece, address_piece, hop_piece, hop_address_piece, with_refusal, with_piece, with_pieces, hop_pieces, hop_address_pieces};

use buffer::Answer;
use callsign::{Callsign, Field};
use std::marker::Model;

// How long a line or a frame may be.
const MOST_BYTES: usize = 512;

// The control and protocol bytes of a frame.
const PAIR: [u8; 2] = [0x03, 0xf0];

// The kinds of a hop: a callsign that was not heard is 0, one that was heard is 1; a Q element, whose name is its callsign's text, is 2.
// Kept: bytes and no enum, since a writer refuses with 15 what C's record of a hop may hold besides, and header_in_range says so.
pub const HEARD: u8 = 1;

pub const Q_ELEMENT: u8 = 2;

// A hop of a packet's path. A heard Q element has no number.
#[repr(C)]
#[derive(Clone, Copy)]
pub struct Hop {
    pub call: Callsign,
    pub kind: u8,
}

// How many hops there are, and the hops in their order; those beyond `count` are blank. The count stands first, since a header has a
// gap behind its callsigns: next to it the hops are copied with the gap and without, and the compiler does not join the two.
#[repr(C)]
#[derive(Clone, Copy)]
pub struct Path {
    pub count: usize,
    pub hops: [Hop; 8],
}

// Source, destination and path.
#[repr(C)]
#[derive(Clone, Copy)]
pub struct Header {
    pub from: Callsign,
    pub to: Callsign,
    pub path: Path,
}

// What reading gives: the refusal's number or 0, the header, the place of the first body byte, and the stars as typed, bit i for
// hop i of a line (0 in a frame). At a refusal the header is blank, place and stars 0.
#[derive(Clone, Copy)]
pub struct HeaderRead {
    pub header: Header,
    pub body: usize,
    pub stars: u8,
    pub refusal: u8,
}

// Hops whose stars are carried back, and the stars as typed.
#[derive(Clone, Copy)]
struct StarredPath {
    path: Path,
    stars: u8,
}

// Why no header is read.
#[derive(Clone, Copy)]
enum Fault {
    TooLong,
    Incomplete,
    // A callsign or an address, with the number that its own reader gives.
    Call(u8),
    NinthHop,
    OddName,
}

impl Fault {
    // Its number by document 01.
    fn number(self) -> u8
        ensures { result ≡ number_of self }
    {
        match self {
            Fault::TooLong => 1,
            Fault::Incomplete => 2,
            Fault::Call(n) => n,
            Fault::NinthHop => 5,
            Fault::OddName => 6,
        }
    }
}

// ---- nothing, and refusals

#[tactic(auto, unfolding(crate::specs::Header::blank_hop, crate::specs::Hop::call_hop, crate::specs::Hop::heard_as))]
fn blank_hop() -> Hop
    ensures { result ≡ blank_hop }
{
    Hop {
        call: callsign::blank(),
        kind: 0,
    }
}

// The path of no hops.
#[tactic(auto, unfolding(crate::specs::Header::path_of, laws::specs::Lists::pad_to))]
fn no_path() -> Path
    ensures { result ≡ path_of [] }
{
    Path {
        count: 0,
        hops: [blank_hop(); 8],
    }
}

// The header with nothing in it.
#[tactic(auto, unfolding(crate::specs::Header::blank_header, crate::specs::Header::header_of))]
pub fn blank() -> Header
    ensures { result ≡ blank_header }
{
    Header {
        from: callsign::blank(),
        to: callsign::blank(),
        path: no_path(),
    }
}

#[tactic(auto, unfolding(crate::specs::Header::header_refused))]
fn refused(why: Fault) -> HeaderRead
    ensures { result ≡ header_refused (number_of why) }
{
    HeaderRead {
        header: blank(),
        body: 0,
        stars: 0,
        refusal: why.number(),
    }
}

#[tactic(auto, unfolding(crate::specs::Header::header_accepted, crate::specs::Header::header_of))]
fn accepted(from: Callsign, to: Callsign, path: Path, body: usize, stars: u8) -> HeaderRead
    ensures { result ≡ header_accepted from to path body stars }
{
    HeaderRead {
        header: Header { from, to, path },
        body,
        stars,
        refusal: 0,
    }
}

// ---- a line of text read

// The third of three bytes that start `qA`.
#[tactic(auto, unfolding(crate::specs::Text::starts_q))]
fn q_letter(t: &[u8]) -> Option<u8>
    ensures { result ≡ cond (starts_q t.now) (Some (slice_index_or t.now 2 0)) None }
{
    match t {
        [b'q', b'A', c] => Some(*c),
        _ => None,
    }
}

// Whether `qA` and c are the name of a Q element.
#[tactic(auto, unfolding(crate::specs::Hop::is_q_name, laws::specs::Lists::any_of, laws::specs::Lists::same_bytes))]
fn ends_name(c: u8) -> bool
    ensures { result ≡ is_q_name (small_q ∷ capital_a ∷ c ∷ []) }
{
    matches!(
        c,
        b'C' | b'X' | b'U' | b'o' | b'O' | b'S' | b'r' | b'R' | b'Z' | b'I'
    )
}

// Whether t is the name of a Q element.
pub fn is_q_name(t: &[u8]) -> bool
    ensures { result ≡ is_q_name t.now }
{
    match q_letter(t) {
        Some(c) => ends_name(c),
        None => false,
    }
}

// The Q element of `qA` and c.
#[tactic(auto, unfolding(crate::specs::Hop::q_hop, callsign::specs::Text::made, callsign::specs::Text::joined, laws::specs::Lists::pad_to))]
fn q_hop(c: u8) -> Hop
    ensures { result ≡ q_hop (small_q ∷ capital_a ∷ c ∷ []) }
{
    let mut text = [0u8; 16];
    text[0] = b'q';
    text[1] = b'A';
    text[2] = c;
    let call = Callsign {
        text,
        call_len: 3,
        ssid_len: 0,
        had_zero_ssid: false,
    };
    Hop {
        call,
        kind: Q_ELEMENT,
    }
}

// Reads a hop of `qA` and c: a Q element, or none.
#[tactic(auto, unfolding(crate::specs::Text::hop_named))]
fn read_q(c: u8) -> Result<Hop, Fault>
    ensures { result ≡ cond (is_q_name (small_q ∷ capital_a ∷ c ∷ [])) (hop_named (small_q ∷ capital_a ∷ c ∷ [])) (Err Fault.OddName) }
{
    if ends_name(c) {
        Ok(q_hop(c))
    } else {
        Err(Fault::OddName)
    }
}

// The number of a hop of such a number, where a callsign is heard or not; a Q element stays one.
#[tactic(auto, unfolding(crate::specs::Private::carried_kind), using(crate::proofs::Hops::flag_as))]
fn carried_kind(kind: u8, heard: bool) -> u8
    ensures { result ≡ carried_kind kind heard }
{
    if kind == Q_ELEMENT {
        return kind;
    }
    heard as u8
}

// The path, each callsign heard where it or a later one is starred, and the stars as typed.
fn carry(typed: Path) -> StarredPath
    requires { typed.count ≤ 8 }
    ensures { result ≡ starred_read typed }
{
    let mut path = typed;
    let mut stars: u8 = 0;
    let mut heard = false;
    for i in (0..typed.count).rev() {
        let kind = path.hops[i].kind;
        let starred = kind == HEARD;
        stars = 2 * stars + (starred as u8);
        heard = starred | heard;
        path.hops[i].kind = carried_kind(kind, heard);
    }
    StarredPath { path, stars }
}

// The hops of a text, with commas between them. Q elements and callsigns are set in a branch each: where one function answers either,
// the compiler puts every hop together byte by byte.
// Kept: a callsign's refusal is looked at here; through a function's Result and `?` reading a header took 3 % more instructions.
// Kept: parts are found by `laws::find`, for the speed that its own line speaks of, and not by `split`.
fn read_hops(s: &[u8]) -> Result<StarredPath, Fault>
    ensures { result ≡ text_read (text_hops 8 (fields s.now)) }
{
    let mut hops = [blank_hop(); 8];
    let mut n: usize = 0;
    let mut t = s;
    loop {
        if n == 8 {
            return Err(Fault::NinthHop);
        }
        let e = laws::find(t, b',');
        let part = &t[..e];
        match q_letter(part) {
            Some(c) => hops[n] = read_q(c)?,
            None => {
                let c = callsign::read_text(part);
                if c.refusal != 0 {
                    return Err(Fault::Call(c.refusal));
                }
                hops[n] = Hop {
                    call: c.call,
                    kind: c.starred as u8,
                };
            }
        }
        n += 1;
        if e == t.len() {
            return Ok(carry(Path { count: n, hops }));
        }
        t = &t[e + 1..];
    }
}

// Destination and hops: what stands between `>` and `:`.
fn read_route(from: Callsign, t: &[u8], body: usize) -> HeaderRead
    ensures { result ≡ read_route from t.now body }
{
    let d = laws::find(t, b',');
    let to = callsign::read_text(&t[..d]);
    if to.refusal != 0 {
        return refused(Fault::Call(to.refusal));
    }
    if d == t.len() {
        return accepted(from, to.call, no_path(), body, 0);
    }
    match read_hops(&t[d + 1..]) {
        Ok(hops) => accepted(from, to.call, hops.path, body, hops.stars),
        Err(fault) => refused(fault),
    }
}

// What stands before `:`.
fn read_before(t: &[u8], body: usize) -> HeaderRead
    ensures { result ≡ read_before t.now body }
{
    let g = laws::find(t, b'>');
    if g == t.len() {
        return refused(Fault::Incomplete);
    }
    let from = callsign::read_text(&t[..g]);
    if from.refusal != 0 {
        return refused(Fault::Call(from.refusal));
    }
    read_route(from.call, &t[g + 1..], body)
}

// Reads the header of a text, however long: refused with 2 to 6, as document 01 orders them; hops before a starred one are
// heard.
pub fn read_any_length(s: &[u8]) -> HeaderRead
    ensures { result ≡ read_header_text s.now }
{
    let c = laws::find(s, b':');
    if c == s.len() {
        return refused(Fault::Incomplete);
    }
    read_before(&s[..c], c + 1)
}

// Reads the header of a line: refused with 1, and then as that of a text of any length.
#[tactic(auto, unfolding(crate::specs::Text::read_text_header))]
pub fn read_text(s: &[u8]) -> HeaderRead
    ensures { result ≡ read_text_header s.now }
{
    if MOST_BYTES < s.len() {
        return refused(Fault::TooLong);
    }
    read_any_length(s)
}

// ---- a frame read

// The hops' addresses at the front of s, up to the first whose low bit is set.
// Kept: a labelled loop, as document 01 asks for this one, and a count beside the array, which C has so.
fn walk(s: &[u8]) -> Result<Path, Fault>
    ensures { result ≡ frame_read (frame_hops 8 s.now) }
{
    let mut hops = [blank_hop(); 8];
    let mut count: usize = 0;
    let mut rest = s;
    'hops: loop {
        if count == 8 {
            break 'hops Err(Fault::NinthHop);
        }
        let Some((address, later)) = rest.split_first_chunk::<7>() else {
            break 'hops Err(Fault::Incomplete);
        };
        let mut call = [0u8; 6];
        let mut n: usize = 0;
        let mut space = false;
        for d in &address[..6] {
            if callsign::last(*d) {
                break 'hops Err(Fault::Call(3));
            }
            let c = *d >> 1;
            if c == b' ' {
                space = true;
                continue;
            }
            if space || !callsign::letter_or_digit(c) {
                break 'hops Err(Fault::Call(3));
            }
            call[n] = callsign::capital(c);
            n += 1;
        }
        let seventh = address[6];
        hops[count] = Hop {
            call: callsign::address_call(call, n, seventh),
            kind: callsign::heard(seventh) as u8,
        };
        count += 1;
        if callsign::last(seventh) {
            break 'hops Ok(Path { count, hops });
        }
        rest = later;
    }
}

// The hops of a frame whose source is its last address, or not.
fn hops_of(last: bool, s: &[u8]) -> Result<Path, Fault>
    requires { 14 ≤ length s.now }
    ensures { result ≡ frame_read (cond last (Ok []) (frame_hops 8 (drop 14 s.now))) }
{
    if last {
        return Ok(no_path());
    }
    walk(&s[14..])
}

// Whether the control and protocol bytes stand in s at the place `at`.
#[tactic(auto, using(crate::proofs::Frames::pair_short, crate::proofs::Frames::pair_first, crate::proofs::Frames::pair_second))]
fn has_pair(s: &[u8], at: usize) -> bool
    requires { at ≤ 70 }
    ensures { result ≡ starts_with_pair (drop at s.now) }
{
    at + 2 <= s.len() && s[at] == PAIR[0] && s[at + 1] == PAIR[1]
}

// The header of a source, a destination and a path, if the control and protocol bytes follow the addresses in s.
fn with_pair(from: Callsign, to: Callsign, path: Path, s: &[u8]) -> HeaderRead
    requires { path.count ≤ 8 }
    ensures { result ≡ with_pair from to path s.now }
{
    let at = 14 + 7 * path.count;
    if has_pair(s, at) {
        return accepted(from, to, path, at + 2, 0);
    }
    refused(Fault::Incomplete)
}

// Source and hops of a frame whose destination is read.
fn read_source(to: Callsign, s: &[u8]) -> HeaderRead
    ensures { result ≡ read_source to s.now }
{
    if s.len() < 14 {
        return refused(Fault::Incomplete);
    }
    let from = callsign::read_address(&s[7..14]);
    if from.refusal != 0 {
        return refused(Fault::Call(from.refusal));
    }
    match hops_of(from.last, s) {
        Ok(path) => with_pair(from.call, to, path, s),
        Err(fault) => refused(fault),
    }
}

// Reads the header of a frame: refused with 1, 2, 3 or 5, as document 01 orders them; each hop's heard bit as it is.
pub fn read_frame(s: &[u8]) -> HeaderRead
    ensures { result ≡ read_frame_header s.now }
{
    if MOST_BYTES < s.len() {
        return refused(Fault::TooLong);
    }
    if s.len() < 7 {
        return refused(Fault::Incomplete);
    }
    let to = callsign::read_address(&s[..7]);
    if to.refusal != 0 {
        return refused(Fault::Call(to.refusal));
    }
    if to.last {
        return refused(Fault::Incomplete);
    }
    read_source(to.call, s)
}

// ---- which paths can be written

// A hop with nothing in it, and not heard.
#[tactic(auto, unfolding(crate::specs::Range::is_blank))]
fn is_blank_hop(h: Hop) -> bool
    ensures { result ≡ is_blank h }
{
    h.kind == 0 && callsign::is_blank(h.call)
}

fn all_blank(hops: &[Hop]) -> bool
    ensures { result ≡ list_all is_blank hops.now }
{
    hops.iter().all(|h| is_blank_hop(*h))
}

// Whether a path has at most eight hops, and nothing in the spare ones.
#[tactic(auto, unfolding(crate::specs::Private::is_tidy))]
fn is_tidy(p: &Path) -> bool
    ensures { result ≡ is_tidy p.now }
{
    p.count <= 8 && all_blank(&p.hops[p.count..])
}

// Whether there is nothing in a header: neither source nor destination, and no hop.
#[tactic(auto, unfolding(crate::specs::Range::is_blank_header), using(crate::proofs::Chains::all_every))]
pub fn is_blank(h: Header) -> bool
    ensures { result ≡ is_blank_header h }
{
    callsign::is_blank(h.from)
        && callsign::is_blank(h.to)
        && h.path.count == 0
        && all_blank(&h.path.hops)
}

// Whether the callsign of a Q element is in range, and its text a name.
fn is_named(c: Callsign) -> bool
    ensures { result ≡ (is_q_name (text_of c) && in_range c) }
{
    callsign::in_range(c) && is_q_name(&c.text[..callsign::text_len(c)])
}

// Whether a hop is a Q element in range, or has the number of a callsign, which its own writer judges.
#[tactic(auto, unfolding(crate::specs::Private::is_tidy_hop, crate::specs::Hop::is_q_element), using(crate::proofs::InRange::q_in_range))]
fn is_tidy_hop(h: Hop) -> bool
    ensures { result ≡ is_tidy_hop h }
{
    if h.kind == Q_ELEMENT {
        is_named(h.call)
    } else {
        h.kind <= HEARD
    }
}

// ---- which hop is the last

#[tactic(auto, unfolding(crate::specs::Hop::is_heard))]
fn any_heard(hops: &[Hop]) -> bool
    ensures { result ≡ list_any is_heard hops.now }
{
    hops.iter().any(|h| h.kind == HEARD)
}

// Whether a hop is heard, and none of those behind it.
#[tactic(auto, unfolding(crate::specs::Hop::is_heard))]
fn is_last_heard(h: Hop, later: &[Hop]) -> bool
    ensures { result ≡ (is_heard h && not (list_any is_heard later.now)) }
{
    h.kind == HEARD && !any_heard(later)
}

#[tactic(auto, unfolding(crate::specs::Hop::is_q_element))]
fn any_call(hops: &[Hop]) -> bool
    ensures { result ≡ list_any is_call hops.now }
{
    hops.iter().any(|h| h.kind != Q_ELEMENT)
}

// ---- pieces put into a scratch array, each judged by its own writer

// A lent array, the pieces at its front, and the greatest refusal of their writers or 0: 15 counts before 13.
#[derive(Drop)]
struct Draft<'a> {
    bytes: &'a mut [u8],
    len: usize,
    refusal: u8,
}

impl<'a> Model for Draft<'a> {
    ghost use Rattle.std.specs.Prelude.{◌≤◌, length};
    ghost use Rattle.header.specs.Pieces.{Building, building};

    ghost Value = { Building };

    ghost view = { λ d. building d.refusal d.bytes.now d.len };

    ghost invariant = { λ d. d.len ≤ length d.bytes.now };
}

impl<'a> Draft<'a> {
    fn new(bytes: &'a mut [u8]) -> Draft<'a>
        ensures { result ≡ building 0 bytes.old 0 }
    {
        Draft {
            bytes,
            len: 0,
            refusal: 0,
        }
    }

    // Puts nothing of a piece that is refused.
    #[tactic(auto, unfolding(crate::specs::Pieces::with_refusal))]
    fn refuse(&mut self, refusal: u8)
        ensures { self.new ≡ with_refusal self.old refusal }
    {
        self.refusal = self.refusal.max(refusal);
    }

    // Puts bytes that nothing refuses.
    fn put(&mut self, s: &[u8])
        ensures { self.new ≡ with_piece self.old (plain s.now) }
    {
        let at = self.len;
        let w = buffer::write(s, &mut self.bytes[at..]);
        self.len = at + w.reported;
        self.refusal = self.refusal.max(w.refusal);
    }

    // Puts a callsign's text, with a star behind it where starred.
    fn put_call(&mut self, c: Callsign, starred: bool)
        ensures { self.new ≡ with_piece self.old (call_piece c starred) }
    {
        let at = self.len;
        let text = callsign::write_text(c, starred, &mut self.bytes[at..]);
        self.len = at + text.reported;
        self.refusal = self.refusal.max(text.refusal);
    }

    // Puts a callsign's address.
    fn put_address(&mut self, c: Callsign, field: Field, last: bool)
        ensures { self.new ≡ with_piece self.old (address_piece (write_address c field last)) }
    {
        let a = callsign::write_address(c, field, last);
        if a.refusal == 0 {
            self.put(&a.bytes);
        } else {
            self.refuse(a.refusal);
        }
    }

    // Puts a hop's text, with a star behind it where starred.
    fn put_hop(&mut self, h: Hop, starred: bool)
        ensures { self.new ≡ with_piece self.old (hop_piece h starred) }
    {
        if is_tidy_hop(h) {
            self.put_call(h.call, starred);
        } else {
            self.refuse(15);
        }
    }

    // Puts a hop's address; of a Q element nothing.
    fn put_hop_address(&mut self, h: Hop, last: bool)
        ensures { self.new ≡ with_piece self.old (hop_address_piece h last) }
    {
        if !is_tidy_hop(h) {
            self.refuse(15);
        } else if h.kind == Q_ELEMENT {
            self.put(b"");
        } else {
            self.put_address(h.call, Field::Hop(h.kind == HEARD), last);
        }
    }

    // Puts each hop after a comma, with a star after the last that was heard.
    // Kept: this loop and that of the addresses share a `while let` alone; a closure or a trait for what they put would be longer.
    fn put_hops(&mut self, hops: &[Hop])
        ensures { self.new ≡ with_pieces self.old (hop_pieces hops.now) }
    {
        let mut rest = hops;
        while let Some((h, later)) = rest.split_first() {
            self.put(b",");
            self.put_hop(*h, is_last_heard(*h, later));
            rest = later;
        }
    }

    // Puts the addresses of the callsigns among the hops, the last of them marked.
    fn put_hop_addresses(&mut self, hops: &[Hop])
        ensures { self.new ≡ with_pieces self.old (hop_address_pieces hops.now) }
    {
        let mut rest = hops;
        while let Some((h, later)) = rest.split_first() {
            self.put_hop_address(*h, !any_call(later));
            rest = later;
        }
    }

    // Writes what is put, unless a piece of it was refused.
    fn write(&self, out: &mut [u8]) -> Answer
        ensures { ends result out.new ≡ wrote self.now.refusal (front_of self.now.array) out.old }
    {
        if self.refusal != 0 {
            return buffer::refused(self.refusal);
        }
        buffer::write(&self.bytes[..self.len], out)
    }
}

// ---- a header written

// Writes a header as text, with its colon; refused with 15 or 16.
pub fn write_text(h: Header, out: &mut [u8]) -> Answer
    ensures { ends result out.new ≡ wrote (text_refusal h) (header_text h) out.old }
{
    if !is_tidy(&h.path) {
        return buffer::refused(15);
    }
    let mut scratch = [0u8; 178];
    let mut draft = Draft::new(&mut scratch);
    draft.put_call(h.from, false);
    draft.put(b">");
    draft.put_call(h.to, false);
    draft.put_hops(&h.path.hops[..h.path.count]);
    draft.put(b":");
    draft.write(out)
}

// Writes the header of a frame, addresses and control pair; refused with 15, 13 or 16.
pub fn write_frame(h: Header, out: &mut [u8]) -> Answer
    ensures { ends result out.new ≡ wrote (frame_refusal h) (header_frame h) out.old }
{
    if !is_tidy(&h.path) {
        return buffer::refused(15);
    }
    let hops = &h.path.hops[..h.path.count];
    let mut scratch = [0u8; 72];
    let mut draft = Draft::new(&mut scratch);
    draft.put_address(h.to, Field::Destination, false);
    draft.put_address(h.from, Field::Source, !any_call(hops));
    draft.put_hop_addresses(hops);
    draft.put(&PAIR);
    draft.write(out)
}

// One callsign: its text read and written, its UTF-8 judged, and its AX.25 address unpacked and packed by
// shifts and masks.
#![tactic(auto)]

ghost use Rattle.std.specs.Prelude.{◌≡◌, ◌+◌, ◌<◌, ◌≤◌, ◌∷◌, ◌++◌, min, not, ◌&&◌, length, take, drop};
ghost use Rattle.laws.specs.Bytes.{dash, is_letter_or_digit, raised};
ghost use Rattle.laws.specs.Lists.{pad_to, zeros};
ghost use Rattle.buffer.specs.Wrote.{ends, wrote};
ghost use Rattle.callsign.specs.Utf8.{after, asked_by, utf8};
ghost use Rattle.callsign.specs.Text.{call_as, made, blank_call, call_refused, call_accepted, is_zero, parted, read_unstarred, read_text};
ghost use Rattle.callsign.specs.Range.{text_len, ssid_part, is_dashed, in_range, is_blank_call, range_refusal, sound, text_of, with_star};
ghost use Rattle.callsign.specs.Address.{heard_of, last_of, ssid_of, ssid_text, address_refused, read_address};
ghost use Rattle.callsign.specs.Packed.{ssid_number, upper_bits, seventh_of, unwritten_by, packed_as, write_address};

use numbers::CountError;

// A callsign as it is written: call, dash and SSID in `text`, the rest of it zero. Without an SSID there is no dash. The mark says
// that it was read from a text whose SSID was a lone `0`, which is dropped; nothing that judges or writes a callsign looks at it.
#[repr(C)]
#[derive(Clone, Copy, Default)]
pub struct Callsign {
    pub text: [u8; 16],
    pub call_len: u8,
    pub ssid_len: u8,
    pub had_zero_ssid: bool,
}

// What reading a text gives: the refusal's number or 0, the callsign, and whether a star followed it.
// Kept: a number beside the values, since C has the record as it stands.
#[repr(C)]
#[derive(Drop)]
pub struct CallRead {
    pub call: Callsign,
    pub starred: bool,
    pub refusal: u8,
}

// What reading an address gives: the refusal's number or 0, the callsign, and the two flags of the seventh byte.
// Kept: a number beside the values, since C has the record as it stands.
#[repr(C)]
#[derive(Drop)]
pub struct AddressRead {
    pub call: Callsign,
    pub heard: bool,
    pub last: bool,
    pub refusal: u8,
}

// The field of a frame that an address goes into; a hop is heard or not.
#[derive(Clone, Copy, Debug, PartialEq, Eq)]
pub enum Field {
    Destination,
    Source,
    Hop(bool),
}

// The seven bytes of an address, or the refusal's number and zeros.
// Kept: a number beside the values, since C has the record as it stands.
#[repr(C)]
#[derive(Drop)]
pub struct AddressWritten {
    pub bytes: [u8; 7],
    pub refusal: u8,
}

// ---- UTF-8

// The bytes that a character's first byte asks for: how many, and the next one's lowest and highest value.
#[derive(Clone, Copy)]
struct Tails {
    count: u8,
    lowest: u8,
    highest: u8,
}

impl Tails {
    fn new(count: u8, lowest: u8, highest: u8) -> Tails
        ensures { result ≡ record { count = count; lowest = lowest; highest = highest } }
    {
        Tails {
            count,
            lowest,
            highest,
        }
    }
}

// What follows a first byte, where it starts a character.
fn after_first(b: u8) -> Option<Tails>
    ensures { asked_by result ≡ after b }
{
    match b {
        0x00..=0x7f => Some(Tails::new(0, 0x80, 0xbf)),
        0x80..=0xc1 => None,
        0xc2..=0xdf => Some(Tails::new(1, 0x80, 0xbf)),
        0xe0 => Some(Tails::new(2, 0xa0, 0xbf)),
        0xe1..=0xec => Some(Tails::new(2, 0x80, 0xbf)),
        0xed => Some(Tails::new(2, 0x80, 0x9f)),
        0xee..=0xef => Some(Tails::new(2, 0x80, 0xbf)),
        0xf0 => Some(Tails::new(3, 0x90, 0xbf)),
        0xf1..=0xf3 => Some(Tails::new(3, 0x80, 0xbf)),
        0xf4 => Some(Tails::new(3, 0x80, 0x8f)),
        0xf5..=0xff => None,
    }
}

// Whether t is UTF-8: `owed` is what the character begun still asks for. It stays out of its caller, which seldom comes here.
#[inline(never)]
fn is_utf8(t: &[u8]) -> bool
    ensures { result ≡ utf8 t.now }
{
    let mut owed = Tails::new(0, 0x80, 0xbf);
    for &b in t {
        if owed.count == 0 {
            if b.is_ascii() {
                continue;
            }
            let Some(next) = after_first(b) else {
                return false;
            };
            owed = next;
        } else if owed.lowest <= b && b <= owed.highest {
            owed = Tails::new(owed.count - 1, 0x80, 0xbf);
        } else {
            return false;
        }
    }
    owed.count == 0
}

// ---- the text read

// The bytes of t, and zeros up to 16.
#[tactic(auto, using(crate::proofs::Padded::copied))]
fn pad(t: &[u8]) -> [u8; 16]
    requires { length t.now ≤ 16 }
    ensures { result ≡ pad_to 16 0 t.now }
{
    let mut out = [0; 16];
    out[..t.len()].copy_from_slice(t);
    out
}

// The callsign with nothing in it.
pub fn blank() -> Callsign
    ensures { result ≡ blank_call }
{
    Callsign::default()
}

#[tactic(auto, unfolding(crate::specs::Text::call_refused))]
fn refused(n: u8) -> CallRead
    ensures { result ≡ call_refused n }
{
    CallRead {
        call: blank(),
        starred: false,
        refusal: n,
    }
}

// The callsign of a text, the lengths of its call and its SSID, and its mark.
fn call_as(text: [u8; 16], n: usize, k: usize, zero: bool) -> Callsign
    requires { (n ≤ 16) × (k ≤ 16) }
    ensures { result ≡ call_as text n k zero }
{
    Callsign {
        text,
        call_len: n as u8,
        ssid_len: k as u8,
        had_zero_ssid: zero,
    }
}

#[tactic(auto, unfolding(crate::specs::Text::call_accepted))]
fn accepted(call: Callsign, starred: bool) -> CallRead
    ensures { result ≡ call_accepted call starred }
{
    CallRead {
        call,
        starred,
        refusal: 0,
    }
}

// Whether t, which `whole` begins with, is UTF-8. Nearly all texts are ASCII, and the sixteen bytes are tested for that at once.
fn is_text(t: &[u8], whole: &[u8; 16]) -> bool
    requires { t.now ≡ take (length t.now) whole.now }
    ensures { result ≡ utf8 t.now }
{
    whole.is_ascii() || is_utf8(t)
}

// Whether an SSID is `0` alone.
#[tactic(auto, unfolding(crate::specs::Text::is_zero), using(crate::proofs::Texts::zero_same))]
fn is_zero(ssid: &[u8]) -> bool
    ensures { result ≡ is_zero ssid.now }
{
    ssid == b"0".as_slice()
}

// Reads the two sides of a dash; they stand in `padded` too, with the dash between them and zeros behind.
fn read_parted(call: &[u8], ssid: &[u8], padded: [u8; 16], starred: bool) -> CallRead
    requires { (length call.now + 1 + length ssid.now ≤ 16) × (padded ≡ pad_to 16 0 (call.now ++ dash ∷ ssid.now)) }
    ensures { result ≡ parted call.now ssid.now starred }
{
    if call.is_empty() || ssid.is_empty() {
        return refused(3);
    }
    if is_zero(ssid) {
        return accepted(call_as(pad(call), call.len(), 0, true), starred);
    }
    accepted(call_as(padded, call.len(), ssid.len(), false), starred)
}

// Reads a text whose star, if it had one, is off.
fn read_unstarred(t: &[u8], starred: bool) -> CallRead
    ensures { result ≡ read_unstarred t.now starred }
{
    if 16 < t.len() {
        return refused(4);
    }
    let padded = pad(t);
    if !is_text(t, &padded) {
        return refused(3);
    }
    let d = laws::find(t, b'-');
    if d == t.len() {
        return accepted(call_as(padded, d, 0, false), starred);
    }
    read_parted(&t[..d], &t[d + 1..], padded, starred)
}

// Reads a callsign's text: one star at its end comes off and is reported; refused with 4 or 3.
pub fn read_text(s: &[u8]) -> CallRead
    ensures { result ≡ read_text s.now }
{
    match s {
        [] => accepted(blank(), false),
        [t @ .., b'*'] => read_unstarred(t, true),
        _ => read_unstarred(s, false),
    }
}

// ---- the range, and the text written

// Whether the bytes from n on are zero. It stays out of its caller, so that the sixteen are compared at once.
#[inline(never)]
fn is_spare(text: &[u8; 16], n: usize) -> bool
    requires { n ≤ 16 }
    ensures { result ≡ zeros (drop n text.now) }
{
    *text == pad(&text[..n])
}

// Whether the first n bytes are UTF-8 and the others zero.
fn is_sound(text: &[u8; 16], n: usize) -> bool
    requires { n ≤ 16 }
    ensures { result ≡ sound text.now n }
{
    is_text(&text[..n], text) && is_spare(text, n)
}

// How many bytes call, dash and SSID take.
#[tactic(auto, unfolding(crate::specs::Range::text_len))]
fn whole_len(c: &Callsign) -> usize
    ensures { result ≡ text_len c.now }
{
    let n = c.call_len as usize;
    match c.ssid_len as usize {
        0 => n,
        k => n + 1 + k,
    }
}

// How many bytes of a callsign's text are shown: never more than the 16 that it has.
pub fn text_len(c: Callsign) -> usize
    ensures { result ≡ min (text_len c) 16 }
{
    whole_len(&c).min(16)
}

// Whether a callsign has nothing in it.
pub fn is_blank(c: Callsign) -> bool
    ensures { result ≡ is_blank_call c }
{
    c.call_len == 0 && c.ssid_len == 0 && c.text == [0; 16]
}

// Whether a dash stands behind the call, and no SSID `0` alone behind the dash, where there is an SSID.
fn is_parted(c: &Callsign) -> bool
    requires { text_len c.now ≤ 16 }
    ensures { result ≡ (not (is_zero (ssid_part c.now)) && is_dashed c.now) }
{
    let n = c.call_len as usize;
    match c.ssid_len {
        0 => true,
        1 => c.text[n] == b'-' && c.text[n + 1] != b'0',
        _ => c.text[n] == b'-',
    }
}

// Whether a callsign is in range. The dash is ASCII, so the text is judged whole where the definition judges call and
// SSID each.
pub fn in_range(c: Callsign) -> bool
    ensures { result ≡ in_range c }
{
    let n = whole_len(&c);
    n <= 16 && is_parted(&c) && is_sound(&c.text, n)
}

// Writes a text of at most 16 bytes, and a star where starred.
fn write_starred(text: &[u8], starred: bool, out: &mut [u8]) -> buffer::Answer
    requires { length text.now ≤ 16 }
    ensures { ends result out.new ≡ wrote 0 (with_star text.now starred) out.old }
{
    if starred {
        buffer::write_two(17, text, b"*", out)
    } else {
        buffer::write(text, out)
    }
}

// Writes a callsign as text, with a star after it where starred; refused with 15 or 16.
pub fn write_text(c: Callsign, starred: bool, out: &mut [u8]) -> buffer::Answer
    ensures { ends result out.new ≡ wrote (range_refusal c) (with_star (text_of c) starred) out.old }
{
    if !in_range(c) {
        return buffer::refused(15);
    }
    write_starred(&c.text[..text_len(c)], starred, out)
}

// ---- one byte of an address

// Whether the low bit is set: in the seventh byte, that the address is the last.
pub fn last(b: u8) -> bool
    ensures { result ≡ last_of b }
{
    b & 0x01 != 0
}

// Whether bit 7 of the seventh byte is set.
pub fn heard(b: u8) -> bool
    ensures { result ≡ heard_of b }
{
    b & 0x80 != 0
}

// The SSID in bits 1 to 4 of the seventh byte.
pub fn ssid(b: u8) -> u8
    ensures { result ≡ ssid_of b }
{
    (b >> 1) & 0x0f
}

// Whether c is an ASCII letter or digit.
#[tactic(auto, unfolding(laws::specs::Bytes::within))]
pub fn letter_or_digit(c: u8) -> bool
    ensures { result ≡ is_letter_or_digit c }
{
    c.is_ascii_alphanumeric()
}

// A small letter's capital, and any other byte as it is.
pub fn capital(c: u8) -> u8
    ensures { result ≡ raised c }
{
    c.to_ascii_uppercase()
}

// ---- an address read

// The callsign of an address's characters and an SSID's number, 0 for none.
fn numbered(call: &[u8], ssid: u8) -> Callsign
    requires { (length call.now ≤ 6) × (ssid < 16) }
    ensures { result ≡ made call.now (ssid_text ssid) }
{
    let n = call.len();
    let mut text = pad(call);
    if ssid == 0 {
        return call_as(text, n, 0, false);
    }
    text[n] = b'-';
    if ssid < 10 {
        text[n + 1] = b'0' + ssid;
        return call_as(text, n, 1, false);
    }
    text[n + 1] = b'1';
    text[n + 2] = b'0' + (ssid - 10);
    call_as(text, n, 2, false)
}

// The characters of an address, unpacked.
// Kept: their number stands beside them, since `address_call` is given both, by header too, and promises its result for any number.
pub type Characters = [u8; 6];

// The callsign of an address's characters, the first `len` of `call`, and of the SSID in its seventh byte.
pub fn address_call(call: Characters, len: usize, seventh: u8) -> Callsign
    ensures { result ≡ made (take len call) (ssid_text (ssid_of seventh)) }
{
    numbered(&call[..len.min(6)], ssid(seventh))
}

#[tactic(auto, unfolding(crate::specs::Address::address_refused))]
fn no_address() -> AddressRead
    ensures { result ≡ address_refused 3 }
{
    AddressRead {
        call: blank(),
        heard: false,
        last: false,
        refusal: 3,
    }
}

// Reads the seven bytes of an address; any other number of bytes, or a byte out of place, is refused with 3.
pub fn read_address(b: &[u8]) -> AddressRead
    ensures { result ≡ read_address b.now }
{
    if b.len() != 7 {
        return no_address();
    }
    let mut call = [0; 6];
    let mut n = 0;
    let mut space = false;
    for &d in &b[..6] {
        let c = d >> 1;
        if last(d) {
            return no_address();
        }
        if c == b' ' {
            space = true;
            continue;
        }
        if space || !letter_or_digit(c) {
            return no_address();
        }
        call[n] = capital(c);
        n += 1;
    }
    let s = b[6];
    AddressRead {
        call: address_call(call, n, s),
        heard: heard(s),
        last: last(s),
        refusal: 0,
    }
}

// ---- an address written

// The number of an SSID's text: an optional `+`, then digits; 0 for no text.
fn ssid_number(s: &[u8]) -> Result<u32, CountError>
    ensures { result ≡ ssid_number s.now }
{
    match s {
        [] => Ok(0),
        [b'+', digits @ ..] => numbers::read_count(digits, 15),
        _ => numbers::read_count(s, 15),
    }
}

// The three upper bits of the seventh byte.
#[tactic(auto, unfolding(crate::specs::Packed::upper_bits, crate::specs::Packed::bit))]
fn upper(field: Field) -> u8
    ensures { result ≡ upper_bits field }
{
    match field {
        Field::Destination => 0b111,
        Field::Source => 0b011,
        Field::Hop(heard) => ((heard as u8) << 2) | 0b011,
    }
}

// The seventh byte: three bits by the field, four of SSID, and the last flag.
fn seventh(field: Field, ssid: u8, last: bool) -> u8
    requires { ssid < 16 }
    ensures { result ≡ seventh_of field ssid last }
{
    (upper(field) << 5) | (ssid << 1) | (last as u8)
}

#[tactic(auto, unfolding(crate::specs::Packed::unwritten_by))]
fn unwritten(n: u8) -> AddressWritten
    ensures { result ≡ unwritten_by n }
{
    AddressWritten {
        bytes: [0; 7],
        refusal: n,
    }
}

// The call's characters, spaces up to six, and the seventh byte.
fn packed(call: &[u8], seventh: u8) -> AddressWritten
    ensures { result ≡ packed_as call.now seventh }
{
    if 6 < call.len() {
        return unwritten(13);
    }
    let mut bytes = [b' ' << 1; 7];
    for (i, &c) in call.iter().enumerate() {
        if !letter_or_digit(c) {
            return unwritten(13);
        }
        bytes[i] = capital(c) << 1;
    }
    bytes[6] = seventh;
    AddressWritten { bytes, refusal: 0 }
}

// Writes the seven bytes of a callsign's address in a field of a frame; refused with 15 or 13.
pub fn write_address(c: Callsign, field: Field, last: bool) -> AddressWritten
    ensures { result ≡ write_address c field last }
{
    if !in_range(c) {
        return unwritten(15);
    }
    let n = c.call_len as usize;
    let k = c.ssid_len as usize;
    let call = &c.text[..n];
    if k == 0 {
        return packed(call, seventh(field, 0, last));
    }
    match ssid_number(&c.text[n + 1..n + 1 + k]) {
        Ok(ssid) => packed(call, seventh(field, ssid as u8, last)),
        Err(_) => unwritten(13),
    }
}

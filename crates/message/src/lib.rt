// Messages and status lines, from the byte behind their type byte on: a message's addressee and how long its text and its identifier
// are, and a status's time; read and written.
#![tactic(auto)]

ghost use Rattle.std.specs.Prelude.{◌≡◌, ◌≤◌, length, take};
ghost use Rattle.laws.specs.Lists.{every, zeros};
ghost use Rattle.buffer.specs.Wrote.{ends, wrote};
ghost use Rattle.time.specs.Time.{time_text};
ghost use Rattle.message.specs.Message.{addressee_bytes, is_text_byte, is_text, message_accepted, message_refused, read_message, addressee_text, identifier_refusal, identifier_text, message_refusal, message_text};
ghost use Rattle.message.specs.Status.{time_before, read_status, status_time_refusal, is_status_text, status_refusal, status_text};

use time::Time;

// What the bytes of a message read as: how long its text is and how long its identifier, which is 0 where there is none, the
// addressee's nine bytes, spaces and all, and the refusal's number or 0. The text starts at the place 10, the identifier one behind
// the text's end. At a refusal all else is 0.
// Kept: a number beside the values, since C has the record as it stands.
#[repr(C)]
#[derive(Clone, Copy)]
pub struct MessageRead {
    pub text: usize,
    pub identifier: usize,
    pub addressee: [u8; 9],
    pub refusal: u8,
}

// ---- what a message may hold

// Whether there is no addressee, as in the other kinds. No test is left early, so that all bytes are tested at once.
// Kept: a loop, since `== [0; 9]` of std leaves at the first byte that differs, and of a `fold` the search did not find what it gives.
pub fn is_blank(addressee: [u8; 9]) -> bool
    ensures { result ≡ zeros addressee }
{
    let mut fine = true;
    for b in addressee {
        fine &= b == 0;
    }
    fine
}

// Whether a byte may stand in a text.
#[tactic(auto, unfolding(crate::specs::Message::is_text_byte))]
fn is_text_byte(b: u8) -> bool
    ensures { result ≡ is_text_byte b }
{
    !matches!(b, b'|' | b'~' | b'{')
}

// Whether each byte may stand in a text.
#[tactic(auto, unfolding(laws::specs::Lists::every))]
fn are_text_bytes(s: &[u8]) -> bool
    ensures { result ≡ every is_text_byte s.now }
{
    s.iter().all(|b| is_text_byte(*b))
}

// Whether the bytes may be the text of a message.
#[tactic(auto, unfolding(crate::specs::Message::is_text))]
pub fn is_text(s: &[u8]) -> bool
    ensures { result ≡ is_text s.now }
{
    s.len() <= 67 && are_text_bytes(s)
}

// ---- a message read

// A message with the addressee that s starts with.
fn message_in(s: &[u8], text: usize, identifier: usize) -> MessageRead
    requires { addressee_bytes ≤ length s.now }
    ensures { result ≡ message_accepted (take addressee_bytes s.now) text identifier }
{
    let mut addressee = [0; 9];
    addressee.copy_from_slice(&s[..9]);
    MessageRead {
        text,
        identifier,
        addressee,
        refusal: 0,
    }
}

fn malformed() -> MessageRead
    ensures { result ≡ message_refused }
{
    MessageRead {
        text: 0,
        identifier: 0,
        addressee: [0; 9],
        refusal: 18,
    }
}

// Reads what stands behind the type byte of a message: the addressee's nine bytes, `:`, the text and, behind its first `{`, the
// identifier. What is malformed is 18.
pub fn read_message(s: &[u8]) -> MessageRead
    ensures { result ≡ read_message s.now }
{
    if s.len() < 10 || s[9] != b':' {
        return malformed();
    }
    let rest = &s[10..];
    let n = laws::find(rest, b'{');
    if !is_text(&rest[..n]) {
        return malformed();
    }
    match rest.len() - n {
        0 => message_in(s, n, 0),
        behind @ 2..=6 => message_in(s, n, behind - 1),
        _ => malformed(),
    }
}

// ---- a message written

// The addressee and the colon behind it.
pub fn front(addressee: [u8; 9]) -> [u8; 10]
    ensures { result ≡ addressee_text addressee }
{
    let mut front = [b':'; 10];
    front[..9].copy_from_slice(&addressee);
    front
}

// Writes `{` and an identifier, or nothing where that is empty; one of more than five bytes is 18, a buffer without room 16.
pub fn write_identifier(identifier: &[u8], out: &mut [u8]) -> buffer::Answer
    ensures { ends result out.new ≡ wrote (identifier_refusal identifier.now) (identifier_text identifier.now) out.old }
{
    match identifier.len() {
        0 => buffer::done(0),
        1..=5 => buffer::write_two(6, b"{", identifier, out),
        _ => buffer::refused(18),
    }
}

// Writes a message, from the byte behind its type byte on. A text or an identifier that no message has is 18, a buffer without room 16.
pub fn write_message(
    addressee: [u8; 9],
    text: &[u8],
    identifier: &[u8],
    out: &mut [u8],
) -> buffer::Answer
    ensures { ends result out.new ≡ wrote (message_refusal text.now identifier.now) (message_text addressee text.now identifier.now) out.old }
{
    if !is_text(text) {
        return buffer::refused(18);
    }
    let mut tail = [0u8; 6];
    let w = write_identifier(identifier, &mut tail);
    if w.refusal != 0 {
        return buffer::refused(18);
    }
    let head = front(addressee);
    buffer::write_three(83, &head, text, &tail[..w.reported], out)
}

// ---- a status read

// The time in UTC that the bytes start with: day, hour, minute and `z`; or none.
fn time_before(s: &[u8]) -> Time
    ensures { result ≡ time_before s.now }
{
    match time::read_time(&s[..s.len().min(7)]) {
        Some(t) if t.form == b'z' => t,
        _ => time::blank(),
    }
}

// Reads what stands behind the type byte of a status: a time, or none, and the text. Time and text have 62 bytes at most, as a text
// without a time has; else it is 18, none.
pub fn read_status(s: &[u8]) -> Option<Time>
    ensures { result ≡ read_status s.now }
{
    if 62 < s.len() {
        None
    } else {
        Some(time_before(s))
    }
}

// ---- a status written

// Writes the seven bytes of a status's time, or none where there is none. A time that is out of range or has another letter than `z` is
// 15, a buffer without room 16.
pub fn write_status_time(t: Time, out: &mut [u8]) -> buffer::Answer
    ensures { ends result out.new ≡ wrote (status_time_refusal t) (time_text t) out.old }
{
    match t.form {
        0 | b'z' => time::write_time(t, out),
        _ => buffer::refused(15),
    }
}

// Whether the bytes may be the text of a status with that time, or with none: where there is none, they may not start with one.
pub fn is_status_text(t: Time, text: &[u8]) -> bool
    ensures { result ≡ is_status_text t text.now }
{
    if t.form != 0 {
        text.len() <= 55
    } else {
        text.len() <= 62 && time_before(text).form == 0
    }
}

// Writes a status, from the byte behind its type byte on. A time that no status has is 15, a text that it may not have 18, a buffer
// without room 16.
pub fn write_status(t: Time, text: &[u8], out: &mut [u8]) -> buffer::Answer
    ensures { ends result out.new ≡ wrote (status_refusal t text.now) (status_text t text.now) out.old }
{
    let mut head = [0u8; 7];
    let w = write_status_time(t, &mut head);
    if w.refusal != 0 {
        return buffer::refused(15);
    }
    if !is_status_text(t, text) {
        return buffer::refused(18);
    }
    buffer::write_two(62, &head[..w.reported], text, out)
}

// Callsigns read and written: their text, and their address in a frame.
use callsign::{AddressWritten, Callsign, Field};
use words::{Reply, Words};

// The refusal, or 0 and the callsign.
fn called(refusal: u8, c: Callsign, reply: &mut Reply) {
    reply.refusal(refusal);
    if refusal == 0 {
        reply.call(b" call=", c);
    }
}

// `callsign TEXT`
pub fn text(s: &[u8], reply: &mut Reply) {
    let r = callsign::read_text(s);
    called(r.refusal, r.call, reply);
    reply.count(b" starred=", usize::from(r.starred));
    reply.count(b" zero=", usize::from(r.call.had_zero_ssid));
}

// `address BYTES`
pub fn address(s: &[u8], reply: &mut Reply) {
    let r = callsign::read_address(s);
    called(r.refusal, r.call, reply);
    reply.count(b" heard=", usize::from(r.heard));
    reply.count(b" last=", usize::from(r.last));
}

// The refusal, or 0 and an address in hexadecimal.
fn packed(w: AddressWritten, reply: &mut Reply) {
    reply.refusal(w.refusal);
    if w.refusal == 0 {
        reply.hex(b" address=", &w.bytes);
    }
}

// `to TEXT`: the address of the callsign that the text reads as, as a destination
pub fn to(s: &[u8], reply: &mut Reply) {
    let c = callsign::read_text(s).call;
    packed(callsign::write_address(c, Field::Destination, false), reply);
}

// `from TEXT`, `last-from TEXT`: as a source
pub fn from(s: &[u8], last: bool, reply: &mut Reply) {
    let c = callsign::read_text(s).call;
    packed(callsign::write_address(c, Field::Source, last), reply);
}

// `last-hop TEXT`: as the last hop, heard
pub fn last_hop(s: &[u8], reply: &mut Reply) {
    let c = callsign::read_text(s).call;
    packed(callsign::write_address(c, Field::Hop(true), true), reply);
}

// `spelled CALL_LEN SSID_LEN BYTES`: a callsign by its text and lengths, written
pub fn spelled(mut asked: Words, reply: &mut Reply) -> Option<()> {
    let call_len = asked.byte()?;
    let ssid_len = asked.byte()?;
    let mut text = [0u8; 16];
    buffer::write(asked.rest(), &mut text);
    let c = Callsign {
        text,
        call_len,
        ssid_len,
        had_zero_ssid: false,
    };
    let mut line = [0u8; 32];
    let w = callsign::write_text(c, false, &mut line);
    reply.written(w, &line);
    Some(())
}

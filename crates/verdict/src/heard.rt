// What a packet of a capture is: a Mic-E packet, or another.
use body::Kind;
use settings::Way;

// A Mic-E packet, told by its body and by the way that its destination says.
#[derive(Clone, Copy)]
pub struct Heard<'a> {
    pub body: &'a [u8],
    pub way: Way,
}

// The innermost packet of a line that has so many inside.
pub fn innermost(line: &[u8], inner: u8) -> &[u8] {
    let mut packet = line;
    for _ in 0..inner {
        let read = header::read_any_length(packet);
        packet = lines::tail(lines::tail(packet, read.body), 1);
    }
    packet
}

// A packet with none inside, whose body is of that kind, if it is a Mic-E packet.
pub fn mic_e(packet: &[u8], kind: Kind) -> Option<Heard<'_>> {
    if !matches!(kind, Kind::MicE) {
        return None;
    }
    let read = header::read_any_length(packet);
    let to = read.header.to;
    let text = to.text;
    let destination = mic_e::read_destination(lines::cut(&text, to.call_len as usize))?;
    Some(Heard {
        body: lines::tail(packet, read.body),
        way: Way::from(destination),
    })
}

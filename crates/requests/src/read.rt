// A line or a frame read and shown; and the listing's row of a line.
use words::{Reply, Words};

// What a line, or a frame, reads as, as usually or strictly.
pub fn shown(line: &[u8], framed: bool, strict: bool, reply: &mut Reply) {
    let read = packet::read(line, framed, strict);
    if read.refusal != 0 {
        reply.refusal(read.refusal);
        return;
    }
    show::record(read.record, line, reply);
}

// `T HEX` and `F HEX`; strictly `ST HEX` and `SF HEX`
pub fn answer(digits: &[u8], framed: bool, strict: bool, reply: &mut Reply) -> Option<()> {
    let mut room = [0u8; 2048];
    let bytes = words::hex(digits, &mut room)?;
    shown(bytes, framed, strict, reply);
    Some(())
}

// `long N LINE`: a line filled up with x to N bytes.
pub fn long(mut asked: Words, reply: &mut Reply) -> Option<()> {
    let n = asked.count_to(1024)?;
    let mut bytes = [b'x'; 1024];
    buffer::write(asked.rest(), &mut bytes);
    shown(lines::cut(&bytes, n as usize), false, false, reply);
    Some(())
}

// `row NUMBER LINE` and `strict-row NUMBER LINE`: what the writer answers, and the row without its LF.
pub fn row(mut asked: Words, strict: bool, reply: &mut Reply) -> Option<()> {
    let number = asked.count_to(u32::MAX)? as usize;
    let mut bytes = [0u8; 256];
    let w = row::write_row(number, asked.rest(), strict, &mut bytes);
    reply.refusal(w.refusal);
    reply.put(b" ");
    reply.put(lines::cut(&bytes, laws::find(&bytes, b'\n')));
    Some(())
}

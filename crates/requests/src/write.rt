// Request W: a record made by hand, written as a line or a frame.
use ask::Asked;
use buffer::Answer;
use packet::Record;
use words::{Reply, Words};

// What the writer answers; of a body that no record can hold 15, which is its first refusal.
fn written(asked: Asked, framed: bool, comment: &[u8], out: &mut [u8]) -> Answer {
    let Some(body) = asked.body else {
        return buffer::refused(15);
    };
    let record = Record {
        header: asked.header,
        body,
        innermost: asked.innermost,
        inner: asked.inner,
    };
    packet::write(record, framed, comment, asked.identifier, out)
}

// `W WHERE ROOM COMMENT KIND FLAG FROM TO HOPS LAT LON BLANKS TABLE CODE MESSAGE SPEED COURSE`, and `[letters=XY] [zeros=BITS]
// [time=TIME] [addressee=HEX] [id=HEX] [inner=N] [inner-from=CALL/SSID] [inner-to=CALL/SSID] [inner-hops=HOPS] [inner-zeros=BITS]`
pub fn answer(mut asked: Words, reply: &mut Reply) -> Option<()> {
    let framed = match asked.next()? {
        b"text" => false,
        b"frame" => true,
        _ => return None,
    };
    let room = asked.count_to(600)?;
    let mut comment = [0u8; 2048];
    let comment = words::hex(asked.next()?, &mut comment)?;
    let mut identifier = [0u8; 2048];
    let asked = ask::record(asked, &mut identifier)?;
    let mut bytes = [0xaau8; 600];
    let buffer = bytes.get_mut(..room as usize)?;
    let w = written(asked, framed, comment, &mut *buffer);
    reply.whole(w, buffer);
    Some(())
}

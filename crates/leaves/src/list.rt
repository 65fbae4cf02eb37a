// The fields that read as a motion or as a longitude, in a buffer of a given room; and the information of a Mic-E report.
use buffer::Answer;
use lonlat::Longitude;
use mic_e::{Course, Information, Speed};
use words::{Reply, Words};

// What a lister answered: the refusal and the bytes needed, or the count and each field.
fn each(w: Answer, bytes: &[u8], reply: &mut Reply) {
    reply.refusal(w.refusal);
    if w.refusal != 0 {
        reply.count(b" needed=", w.needed);
        return;
    }
    reply.count(b" count=", w.reported);
    for field in bytes.chunks(3).take(w.reported) {
        reply.decimals(b" field=", field);
    }
}

// What a lister answers with a buffer of `ROOM` bytes, field by field, or else the whole buffer afterwards.
fn listed<F: FnOnce(&mut [u8]) -> Answer>(room: &[u8], list: F, reply: &mut Reply) -> Option<()>
    requires { F.IsAlwaysCallable list }
{
    let room = numbers::read_count(room, 512).ok()? as usize;
    let mut bytes = [0xaau8; 512];
    let buffer = bytes.get_mut(..room)?;
    let w = list(&mut *buffer);
    if reply.plain {
        each(w, buffer, reply);
    } else {
        reply.whole(w, buffer);
    }
    Some(())
}

// `SPEED COURSE ROOM`
pub fn motions(mut asked: Words, reply: &mut Reply) -> Option<()> {
    let speed = Speed(asked.count_to(u32::MAX)?);
    let course = Course(asked.count_to(u32::MAX)?);
    listed(
        asked.rest(),
        |buffer| fields::list_motion(speed, course, buffer),
        reply,
    )
}

// `ANGLE OFFSET SIDE ROOM`
pub fn longitudes(mut asked: Words, reply: &mut Reply) -> Option<()> {
    let angle = Longitude(asked.number()?);
    let hundred = match asked.next()? {
        b"0" => false,
        b"100" => true,
        _ => return None,
    };
    let west = match asked.next()? {
        b"E" => false,
        b"W" => true,
        _ => return None,
    };
    listed(
        asked.rest(),
        |buffer| fields::list_longitude(angle, hundred, west, buffer),
        reply,
    )
}

// `information LONGITUDE SPEED COURSE`; the symbol is `/>`.
pub fn information(mut asked: Words, reply: &mut Reply) -> Option<()> {
    let longitude = Longitude(asked.number()?);
    let speed = Speed(asked.count_to(u32::MAX)?);
    let course = Course(numbers::read_count(asked.rest(), u32::MAX).ok()?);
    let mut bytes = [0u8; 8];
    let w = mic_e::write_information(
        Information {
            longitude,
            speed,
            course,
            code: b'>',
            table: b'/',
        },
        &mut bytes,
    );
    reply.refusal(w.refusal);
    if w.refusal == 0 {
        reply.decimals(b" lon=", &bytes[..3]);
        reply.decimals(b" motion=", &bytes[3..6]);
        reply.decimals(b" symbol=", &bytes[6..]);
    }
    Some(())
}

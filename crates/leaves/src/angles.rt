// Latitude and longitude read from their text, and written.
use lonlat::{Latitude, Longitude, LongitudeError};
use words::{Reply, Words};

// `latitude TEXT`
pub fn latitude(text: &[u8], reply: &mut Reply) {
    let Some(read) = lonlat::read_latitude(text) else {
        reply.refusal(8);
        return;
    };
    reply.number(b"0 lat=", read.latitude.0);
    reply.side(read.south, b" side=N", b" side=S");
    reply.count(b" blanks=", usize::from(read.blanks));
    reply.count(b" sixty=", usize::from(read.sixty));
}

// `longitude BLANKS TEXT`
pub fn longitude(mut asked: Words, reply: &mut Reply) -> Option<()> {
    let blanks = asked.byte()?;
    match lonlat::read_longitude(asked.rest(), blanks) {
        Ok(read) => {
            reply.number(b"0 lon=", read.longitude.0);
            reply.side(read.west, b" side=E", b" side=W");
            reply.count(b" sixty=", usize::from(read.sixty));
        }
        Err(LongitudeError::Malformed) => reply.refusal(9),
        Err(LongitudeError::OutOfRange) => reply.refusal(15),
    }
    Some(())
}

// `latitude-text ANGLE BLANKS`
pub fn latitude_text(mut asked: Words, reply: &mut Reply) -> Option<()> {
    let angle = Latitude(asked.number()?);
    let blanks = words::byte(asked.rest())?;
    let mut text = [0u8; 16];
    let w = lonlat::write_latitude(angle, blanks, &mut text);
    reply.written(w, &text);
    Some(())
}

// `longitude-text ANGLE`
pub fn longitude_text(text: &[u8], reply: &mut Reply) -> Option<()> {
    let angle = Longitude(numbers::read_number(text)?);
    let mut text = [0u8; 16];
    let w = lonlat::write_longitude(angle, &mut text);
    reply.written(w, &text);
    Some(())
}

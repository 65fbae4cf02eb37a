// What the standard's own writer sends: the three bytes of a motion or of a longitude, and the offset and the direction that
// go with a longitude.
use lonlat::{Latitude, Longitude};
use mic_e::{Course, Information, Message, Speed};
use settings::Way;

// The eight bytes of information, or zeros where the writer refuses.
fn information(longitude: Longitude, speed: Speed, course: Course) -> [u8; 8] {
    let mut bytes = [0; 8];
    let information = Information {
        longitude,
        speed,
        course,
        code: 0,
        table: 0,
    };
    mic_e::write_information(information, &mut bytes);
    bytes
}

// The field of a motion.
pub fn motion(speed: Speed, course: Course) -> [u8; 3] {
    let [_, _, _, a, b, c, _, _] = information(Longitude(0), speed, course);
    [a, b, c]
}

// The way that the longitude's destination says; the writer sends no longitude of 180 degrees.
pub fn way_of(longitude: Longitude) -> Option<Way> {
    let written = mic_e::write_destination(Latitude(0), 0, Message::M0, longitude);
    if written.refusal != 0 {
        return None;
    }
    mic_e::read_destination(&written.bytes).map(Way::from)
}

// The field of a longitude, if that is sent in this way.
pub fn longitude(longitude: Longitude, way: Way) -> Option<[u8; 3]> {
    if way_of(longitude)? != way {
        return None;
    }
    let [a, b, c, _, _, _, _, _] = information(longitude, Speed(0), Course(0));
    Some([a, b, c])
}

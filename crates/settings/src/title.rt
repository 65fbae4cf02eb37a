// How a setting is named in print.
use crate::{Setting, Way};
use buffer::Pieces;
use lonlat::Longitude;
use mic_e::{Course, Speed};

impl Setting {
    // Puts the setting's name.
    pub fn put(self, out: &mut Pieces) {
        match self {
            Setting::Moving(speed, course) => put_motion(speed, course, out),
            Setting::Lying(longitude, way) => put_longitude(longitude, way, out),
        }
    }
}

impl Way {
    // Puts `offset 100, west`.
    pub fn put(self, out: &mut Pieces) {
        let offset = if self.hundred {
            "offset 100, "
        } else {
            "offset 0, "
        };
        let direction = if self.west { "west" } else { "east" };
        out.put(offset.as_bytes());
        out.put(direction.as_bytes());
    }
}

fn put_motion(speed: Speed, course: Course, out: &mut Pieces) {
    let unit = if speed.0 == 1 { " knot" } else { " knots" };
    out.put(b"Motion: ");
    numbers::put_count(speed.0 as usize, out);
    out.put(unit.as_bytes());
    out.put(b", course ");
    numbers::put_count(course.0 as usize, out);
}

fn put_longitude(longitude: Longitude, way: Way, out: &mut Pieces) {
    out.put(b"Longitude: ");
    put_angle(longitude, out);
    out.put(b" (");
    numbers::put_number(longitude.0, out);
    out.put(b" hundredths), ");
    way.put(out);
}

// Puts degrees, minutes and the letter; zero lies on neither side, and has none.
fn put_angle(longitude: Longitude, out: &mut Pieces) {
    let mut text = [0; 9];
    lonlat::write_longitude(longitude, &mut text);
    out.put(&text[..3]);
    out.put_byte(b' ');
    out.put(&text[3..8]);
    if longitude.0 != 0 {
        out.put_byte(b' ');
        out.put_byte(text[8]);
    }
}

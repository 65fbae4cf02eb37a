// What the page says of a setting beside its fields: the field that the standard's own writer sends; of a longitude the
// destination that goes with it, and how else it is sent. Part of the program appendix.
#![tactic(auto)]

mod longitude;
mod writer;

use buffer::Pieces;
use settings::Setting;

// The field that the standard's own writer sends for a setting, if it sends that one.
pub fn sent(asked: Setting) -> Option<[u8; 3]> {
    match asked {
        Setting::Moving(speed, course) => Some(writer::motion(speed, course)),
        Setting::Lying(longitude, way) => writer::longitude(longitude, way),
    }
}

// Puts what stands above the table of a setting.
pub fn above(asked: Setting, out: &mut Pieces) {
    if let Setting::Lying(longitude, way) = asked {
        longitude::above(longitude, way, out);
    }
}

// Puts what stands below it.
pub fn below(asked: Setting, out: &mut Pieces) {
    if let Setting::Lying(longitude, way) = asked {
        longitude::below(longitude, way, out);
    }
}

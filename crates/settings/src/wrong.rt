// What is wrong with a setting.
use crate::Setting;
use std::fmt;
use std::fmt::{Display, Formatter};

// Words that are no motion, no longitude or neither; or a setting that the words say and that is out of range.
#[derive(Clone, Copy)]
pub enum SettingError {
    Motion,
    Longitude,
    Unknown,
    OutOfRange(Setting),
}

impl Display for SettingError {
    fn fmt<W: fmt::Write>(&self, f: &mut Formatter<W>) -> fmt::Result {
        f.write_str(match *self {
            SettingError::Motion =>
                "not understood; expected motion KNOTS COURSE, two whole numbers",
            SettingError::Longitude =>
                "not understood; expected longitude ANGLE offset 0|100 east|west, ANGLE as dddmm.hh or in hundredths, or dddmm.hh with E or W and no more",
            SettingError::Unknown =>
                "not understood; expected motion KNOTS COURSE, or longitude ANGLE offset 0|100 east|west",
            SettingError::OutOfRange(Setting::Moving(_, _)) =>
                "refused with 15, out of range: speed is 0 to 799 knots, course 0 to 360",
            SettingError::OutOfRange(Setting::Lying(_, _)) =>
                "refused with 15, out of range: a longitude is at most 180 degrees, 18000.00 or 1080000 hundredths",
        })
    }
}

// What the words of a setting ask for.
use crate::trim::split;
use crate::{Setting, SettingError, Way};
use lonlat::Longitude;
use mic_e::{Course, Speed};
use numbers::CountError;

// Reads a setting, which has no spaces at either end.
pub fn read(s: &[u8]) -> Result<Setting, SettingError> {
    let (word, s) = split(s);
    match word {
        b"motion" => motion(s).ok_or(SettingError::Motion),
        b"longitude" => longitude(s).ok_or(SettingError::Longitude),
        _ => Err(SettingError::Unknown),
    }
}

// The greatest number that is told from others: one over it is out of range either way.
const MOST: u32 = 99999999;

// Digits that stand for a number.
fn number(s: &[u8]) -> Option<u32> {
    match numbers::read_count(s, MOST) {
        Ok(n) => Some(n),
        Err(CountError::Over) => Some(MOST),
        Err(CountError::Malformed) => None,
    }
}

// `KNOTS COURSE`
fn motion(s: &[u8]) -> Option<Setting> {
    let (knots, course) = split(s);
    let speed = Speed(number(knots)?);
    let course = Course(number(course)?);
    Some(Setting::Moving(speed, course))
}

// ---- a longitude

#[derive(Clone, Copy, PartialEq, Eq)]
enum Side {
    East,
    West,
}

// An angle as it is written. The side is that of its letter, where it has one.
#[derive(Clone, Copy)]
struct Angle {
    longitude: Longitude,
    side: Option<Side>,
}

// `ANGLE offset OFFSET DIRECTION`; an angle that has a letter may stand without the direction.
fn longitude(s: &[u8]) -> Option<Setting> {
    let (word, s) = split(s);
    let angle = angle_of(word)?;
    let (word, s) = split(s);
    let b"offset" = word else {
        return None;
    };
    let (word, s) = split(s);
    let hundred = is_hundred(word)?;
    let side = side_of(s, angle.side)?;
    let west = side == Side::West;
    Some(Setting::Lying(angle.longitude, Way { hundred, west }))
}

// Whether an offset is 100, or else 0.
fn is_hundred(word: &[u8]) -> Option<bool> {
    match word {
        b"0" => Some(false),
        b"100" => Some(true),
        _ => None,
    }
}

// The side that a word names; where there is none, that of the angle's letter.
fn side_of(word: &[u8], letter: Option<Side>) -> Option<Side> {
    match word {
        b"" => letter,
        b"east" => Some(Side::East),
        b"west" => Some(Side::West),
        _ => None,
    }
}

// An angle as APRS has it, `dddmm.hh` and a letter; or with a dash before it or none, `dddmm.hh` or hundredths of a minute.
fn angle_of(word: &[u8]) -> Option<Angle> {
    match word {
        [text @ .., b'E'] if text.len() == 8 => lettered(text, Side::East),
        [text @ .., b'W'] if text.len() == 8 => lettered(text, Side::West),
        [b'-', text @ ..] => signed(text, true),
        text => signed(text, false),
    }
}

fn lettered(text: &[u8], side: Side) -> Option<Angle> {
    let size = dotted(text)?;
    let longitude = longitude_of(size, side == Side::West);
    Some(Angle {
        longitude,
        side: Some(side),
    })
}

fn signed(text: &[u8], minus: bool) -> Option<Angle> {
    let size = if text.contains(&b'.') {
        dotted(text)?
    } else {
        number(text)?
    };
    let longitude = longitude_of(size, minus);
    Some(Angle {
        longitude,
        side: None,
    })
}

// The longitude of that size, west or east; in place of one past 180 degrees the first that is.
fn longitude_of(size: u32, west: bool) -> Longitude {
    lonlat::longitude_of(size, west).unwrap_or(Longitude(1080001))
}

// `dddmm.hh` in hundredths of a minute; minutes from 60 to 99 are more than a degree.
fn dotted(s: &[u8]) -> Option<u32> {
    let [whole @ .., b'.', _, _] = s else {
        return None;
    };
    if whole.len() != 5 {
        return None;
    }
    let whole = number(whole)?.min(99999);
    let hundredths = number(lines::tail(s, 6))?.min(99);
    Some(whole / 100 * 6000 + whole % 100 * 100 + hundredths)
}

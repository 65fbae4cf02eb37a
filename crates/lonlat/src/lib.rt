// Angles in whole hundredths of a minute: taken apart, put together, read from text and written to it.
#![tactic(auto)]

ghost use Rattle.std.specs.Prelude.{◌≡◌, ◌≤◌, length, if◌then◌else◌, ◌==◌};
ghost use Rattle.laws.specs.Lists.{every};
ghost use Rattle.buffer.specs.Wrote.{ends, wrote};
ghost use Rattle.lonlat.specs.Angle.{most_longitude, longitude_of};
ghost use Rattle.lonlat.specs.Digits.{last_as, size_of, angle_in, side_of, places_of, text_of};
ghost use Rattle.numbers.specs.Numbers.{digit_of};
ghost use Rattle.lonlat.specs.Latitude.{is_blank, kept_of, latitude_in, read_latitude, blanked_places, latitude_text, latitude_refusal};
ghost use Rattle.lonlat.specs.Longitude.{longitude_in, read_longitude, longitude_text, longitude_refusal};

// A latitude: signed hundredths of a minute, north positive.
#[repr(C)]
#[derive(Clone, Copy, Debug, Default, PartialEq, Eq)]
pub struct Latitude(pub i32);

// A longitude: signed hundredths of a minute, east positive.
// Kept: a type beside Latitude, both of the C interface, so that neither is taken for the other.
#[repr(C)]
#[derive(Clone, Copy, Debug, Default, PartialEq, Eq)]
pub struct Longitude(pub i32);

// The longitude of that size, east or west; 0 on either side is plain 0. Past 180 degrees there is none.
pub fn longitude_of(size: u32, west: bool) -> Option<Longitude>
    ensures { result ≡ longitude_of size west }
{
    if 1080000 < size {
        return None;
    }
    let angle = numbers::signed(size, west)?;
    Some(Longitude(angle))
}

// What digit places say together: hundredths of a minute, and whether the minutes are 60 or more.
#[derive(Clone, Copy)]
struct Size {
    hundredths: u32,
    sixty: bool,
}

// The value of the digits: all but the last four are degrees, then two of minutes and two of hundredths.
fn value(t: &[u8]) -> Option<Size>
    requires { (4 ≤ length t.now) × (length t.now ≤ 7) }
    ensures { result ≡ size_of t.now }
{
    let mut v: u32 = 0;
    for &b in t {
        if !b.is_ascii_digit() {
            return None;
        }
        v = 10 * v + u32::from(b - b'0');
    }
    Some(Size {
        hundredths: 6000 * (v / 10000) + v % 10000,
        sixty: 6000 <= v % 10000,
    })
}

// The last n bytes of t become b.
fn last_as(b: u8, n: usize, t: &mut [u8])
    requires { n ≤ length t.old }
    ensures { t.new ≡ last_as b n t.old }
{
    let kept = t.len() - n;
    t[kept..].fill(b);
}

// Whether t is nothing but blanks.
#[tactic(auto, unfolding(laws::specs::Lists::every))]
fn blank(t: &[u8]) -> bool
    ensures { result ≡ every is_blank t.now }
{
    t.iter().all(|&b| b == b' ')
}

// How many places stand before the blanks that end t; none where a blank stands before another byte.
fn kept_of(t: &[u8]) -> Option<usize>
    ensures { result ≡ kept_of t.now }
{
    let kept = laws::find(t, b' ');
    if blank(&t[kept..]) { Some(kept) } else { None }
}

// What digits say together with a side: the angle, and whether its minutes are 60 or more.
#[derive(Clone, Copy)]
struct AngleRead {
    angle: i32,
    sixty: bool,
}

// The angle of digits, at most `most` in size.
fn angle_in(most: u32, minus: bool, t: &[u8]) -> Option<AngleRead>
    requires { (4 ≤ length t.now) × (length t.now ≤ 7) × (most ≤ most_longitude) }
    ensures { result ≡ angle_in most minus t.now }
{
    let size = value(t)?;
    if most < size.hundredths {
        return None;
    }
    let angle = numbers::signed(size.hundredths, minus)?;
    Some(AngleRead {
        angle,
        sixty: size.sixty,
    })
}

// Whether a letter says the side minus, if it is the letter of either side.
#[tactic(auto, unfolding(crate::specs::Digits::side_of))]
fn side_of(letter: u8, plus: u8, minus: u8) -> Option<bool>
    ensures { result ≡ side_of plus minus letter }
{
    if letter == minus {
        Some(true)
    } else if letter == plus {
        Some(false)
    } else {
        None
    }
}

// What eight bytes of latitude read as: the angle, its blanks, whether the letter is S, also at 0, and whether the minutes,
// blanks as 0, are 60 or more.
#[derive(Clone, Copy, Debug, PartialEq, Eq)]
pub struct LatitudeRead {
    pub latitude: Latitude,
    pub blanks: u8,
    pub south: bool,
    pub sixty: bool,
}

// Six digit places and a letter.
fn latitude_in(places: [u8; 6], letter: u8) -> Option<LatitudeRead>
    ensures { result ≡ latitude_in places letter }
{
    let south = side_of(letter, b'N', b'S')?;
    let kept = kept_of(&places)?;
    if kept == 0 {
        return None;
    }
    let blanks = 6 - kept;
    let mut t = places;
    last_as(b'0', blanks, &mut t);
    let read = angle_in(540000, south, &t)?;
    Some(LatitudeRead {
        latitude: Latitude(read.angle),
        blanks: blanks as u8,
        south,
        sixty: read.sixty,
    })
}

// Reads `ddmm.hh` and N or S: exactly eight bytes, the last 0 to 5 digits blank.
pub fn read_latitude(s: &[u8]) -> Option<LatitudeRead>
    ensures { result ≡ read_latitude s.now }
{
    let [a, b, c, d, point, e, f, letter] = *s else {
        return None;
    };
    if point != b'.' {
        return None;
    }
    latitude_in([a, b, c, d, e, f], letter)
}

// What nine bytes of longitude read as: the angle, whether the letter is W, also at 0, and whether the minutes, discarded
// digits as 0, are 60 or more.
#[derive(Clone, Copy, Debug, PartialEq, Eq)]
pub struct LongitudeRead {
    pub longitude: Longitude,
    pub west: bool,
    pub sixty: bool,
}

// Why there is no longitude: the bytes are none, or blanks past five were asked for.
#[derive(Clone, Copy, Debug, PartialEq, Eq)]
pub enum LongitudeError {
    Malformed,
    OutOfRange,
}

// Seven digits and a letter.
fn longitude_in(t: &[u8; 7], letter: u8) -> Option<LongitudeRead>
    ensures { result ≡ longitude_in t.now letter }
{
    let west = side_of(letter, b'E', b'W')?;
    let read = angle_in(1080000, west, t)?;
    Some(LongitudeRead {
        longitude: Longitude(read.angle),
        west,
        sixty: read.sixty,
    })
}

// Reads `dddmm.hh` and E or W: exactly nine bytes, the last digits, as many as blanks says, taken as 0 whichever bytes
// stand there. More than five blanks are out of range.
pub fn read_longitude(s: &[u8], blanks: u8) -> Result<LongitudeRead, LongitudeError>
    ensures { result ≡ read_longitude s.now blanks }
{
    if 5 < blanks {
        return Err(LongitudeError::OutOfRange);
    }
    let [a, b, c, d, e, point, f, g, letter] = *s else {
        return Err(LongitudeError::Malformed);
    };
    if point != b'.' {
        return Err(LongitudeError::Malformed);
    }
    let mut t = [a, b, c, d, e, f, g];
    last_as(b'0', usize::from(blanks), &mut t);
    longitude_in(&t, letter).ok_or(LongitudeError::Malformed)
}

// The character of the last digit of v.
#[tactic(auto, unfolding(numbers::specs::Numbers::digit_of))]
fn digit(v: u32) -> u8
    ensures { result ≡ digit_of v }
{
    b'0' + (v % 10) as u8
}

// The text of a latitude's size, its last digits blank, and the letter.
fn latitude_text(size: u32, blanks: usize, letter: u8) -> [u8; 8]
    requires { blanks ≤ 6 }
    ensures { result ≡ text_of (blanked_places blanks size) letter }
{
    let d = size / 6000;
    let m = size / 100 % 60;
    let mut t = [
        digit(d / 10),
        digit(d),
        digit(m / 10),
        digit(m),
        digit(size % 100 / 10),
        digit(size % 100),
    ];
    last_as(b' ', blanks, &mut t);
    [t[0], t[1], t[2], t[3], b'.', t[4], t[5], letter]
}

// Writes `ddmm.hh` and N or S, the last digits blank, as many as blanks says: eight bytes. An angle past 90 degrees or
// more than five blanks are 15, a buffer without room 16.
pub fn write_latitude(l: Latitude, blanks: u8, out: &mut [u8]) -> buffer::Answer
    ensures { ends result out.new ≡ wrote (latitude_refusal l.0 blanks) (latitude_text l.0 blanks) out.old }
{
    let sides = numbers::parts(l.0);
    if 540000 < sides.size || 5 < blanks {
        return buffer::refused(15);
    }
    let letter = side_letter(sides.minus, b'N', b'S');
    let text = latitude_text(sides.size, blanks as usize, letter);
    buffer::write(&text, out)
}

// The letter of a side.
fn side_letter(minus: bool, plus: u8, other: u8) -> u8
    ensures { result ≡ (if minus then other else plus) }
{
    if minus { other } else { plus }
}

// The text of a longitude's size, and the letter.
fn longitude_text(size: u32, letter: u8) -> [u8; 9]
    ensures { result ≡ text_of (places_of 3 size) letter }
{
    let d = size / 6000;
    let m = size / 100 % 60;
    let h = size % 100;
    [
        digit(d / 100),
        digit(d / 10),
        digit(d),
        digit(m / 10),
        digit(m),
        b'.',
        digit(h / 10),
        digit(h),
        letter,
    ]
}

// Writes `dddmm.hh` and E or W, in full: nine bytes. An angle past 180 degrees is 15, a buffer without room 16.
pub fn write_longitude(l: Longitude, out: &mut [u8]) -> buffer::Answer
    ensures { ends result out.new ≡ wrote (longitude_refusal l.0) (longitude_text l.0) out.old }
{
    let sides = numbers::parts(l.0);
    if 1080000 < sides.size {
        return buffer::refused(15);
    }
    let letter = side_letter(sides.minus, b'E', b'W');
    let text = longitude_text(sides.size, letter);
    buffer::write(&text, out)
}

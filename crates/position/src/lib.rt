// An uncompressed position behind its type byte, or behind its time: read and written; and of its angles the bounds in degrees
// and the box for the page.
#![tactic(auto)]

ghost use Rattle.std.specs.Prelude.{◌≡◌, ◌≤◌, length, take, drop, pos, unsigned_abs};
ghost use Rattle.buffer.specs.Wrote.{ends, wrote};
ghost use Rattle.lonlat.specs.Angle.{most_latitude, most_longitude, width_of};
ghost use Rattle.lonlat.specs.Longitude.{read_longitude};
ghost use Rattle.position.specs.Reach.{in_reach};
ghost use Rattle.position.specs.Position.{fixed_bytes, is_numeric, is_over, is_table, is_off_table, is_uncompressed, no_place, refused_position, with_longitude, read_position_by, letters_agree, symbols_in_range, position_refusal, position_text};
ghost use Rattle.position.specs.Bounds.{from_dmh, degrees_of, center_of, degree_width, range_of, bounds_of};
ghost use Rattle.position.specs.Page.{no_box, box_of};
ghost use Rattle.position.specs.Private.{widest, box_around};

use lonlat::{Latitude, LatitudeRead, Longitude, LongitudeError};

// Where something is: its angles, how many of their last digits are blank, its symbol, and whether its letters are S and W, also
// at 0.
#[repr(C)]
#[derive(Clone, Copy, Debug, Default, PartialEq, Eq)]
pub struct Place {
    pub latitude: Latitude,
    pub longitude: Longitude,
    pub blanks: u8,
    pub table: u8,
    pub code: u8,
    pub south: bool,
    pub west: bool,
}

// What a position reads as: the refusal's number or 0, the place, and which of its angles has minutes of 60 or more.
// Kept: a number beside the values, since C has the record as it stands.
#[repr(C)]
#[derive(Clone, Copy, Debug, Default, PartialEq, Eq)]
pub struct PositionRead {
    pub place: Place,
    pub latitude_sixty: bool,
    pub longitude_sixty: bool,
    pub refusal: u8,
}

// The place with nothing in it.
pub fn blank() -> Place
    ensures { result ≡ no_place }
{
    Place::default()
}

// A refusal, and nothing else.
fn refused_position(n: u8) -> PositionRead
    ensures { result ≡ refused_position n }
{
    PositionRead {
        refusal: n,
        ..PositionRead::default()
    }
}

// Whether b is numeric, taken as a character of Latin-1.
#[tactic(auto, unfolding(crate::specs::Position::is_numeric, laws::specs::Bytes::within))]
fn numeric(b: u8) -> bool
    ensures { result ≡ is_numeric b }
{
    matches!(b, b'0'..=b'9' | 0xb2 | 0xb3 | 0xb9 | 0xbc..=0xbe)
}

// Whether the first byte, 0 if there is none, starts an uncompressed position.
#[tactic(auto, unfolding(crate::specs::Position::is_uncompressed, crate::specs::Position::is_numeric, laws::specs::Bytes::within))]
fn uncompressed(s: &[u8]) -> bool
    ensures { result ≡ is_uncompressed s.now }
{
    !s.is_empty() && numeric(s[0])
}

// Whether minutes are refused: strictly, if they are 60 or more.
pub fn is_over(strict: bool, sixty: bool) -> bool
    ensures { result ≡ is_over strict sixty }
{
    strict && sixty
}

// Whether b names a symbol table: `/`, `\`, a digit or a capital letter.
#[tactic(auto, unfolding(crate::specs::Position::is_table, laws::specs::Bytes::within))]
fn is_table(b: u8) -> bool
    ensures { result ≡ is_table b }
{
    matches!(b, b'/' | b'\\' | b'0'..=b'9' | b'A'..=b'Z')
}

// Whether a table byte is refused: strictly, if it names none.
pub fn is_off_table(strict: bool, table: u8) -> bool
    ensures { result ≡ is_off_table strict table }
{
    strict && !is_table(table)
}

// Goes on with the longitude, behind the latitude that was read.
fn with_longitude(s: &[u8], north: LatitudeRead, strict: bool) -> PositionRead
    requires { fixed_bytes ≤ length s.now }
    ensures { result ≡ with_longitude strict s.now north (read_longitude (take 9 (drop 9 s.now)) north.blanks) }
{
    match lonlat::read_longitude(&s[9..18], north.blanks) {
        Ok(east) => {
            if is_over(strict, east.sixty) {
                return refused_position(9);
            }
            if is_off_table(strict, s[8]) {
                return refused_position(20);
            }
            PositionRead {
                refusal: 0,
                place: Place {
                    latitude: north.latitude,
                    longitude: east.longitude,
                    blanks: north.blanks,
                    table: s[8],
                    code: s[18],
                    south: north.south,
                    west: east.west,
                },
                latitude_sixty: north.sixty,
                longitude_sixty: east.sixty,
            }
        }
        Err(LongitudeError::Malformed) => refused_position(9),
        Err(LongitudeError::OutOfRange) => refused_position(15),
    }
}

// Reads what follows `!`, `=` or a time: 8 bytes of latitude, the table byte, 9 of longitude, the code byte; the comment is the rest,
// from byte 19 on. Refuses 7, 10, 8, 9 in that order; strictly also minutes of 60 or more, with 8 and 9, and last of all a byte that
// names no symbol table, with 20.
pub fn read_position(s: &[u8], strict: bool) -> PositionRead
    ensures { result ≡ read_position_by strict s.now }
{
    if !uncompressed(s) {
        return refused_position(7);
    }
    if s.len() < 19 {
        return refused_position(10);
    }
    match lonlat::read_latitude(&s[..8]) {
        Some(north) if !is_over(strict, north.sixty) => with_longitude(s, north, strict),
        _ => refused_position(8),
    }
}

// Whether an angle and its blanks are in range.
#[tactic(auto, unfolding(crate::specs::Reach::in_reach))]
fn in_reach(most: u32, angle: i32, blanks: u8) -> bool
    ensures { result ≡ in_reach most (unsigned_abs angle) blanks }
{
    angle.unsigned_abs() <= most && blanks <= 5
}

// Whether neither letter contradicts its angle; at 0 either may stand.
#[tactic(auto, unfolding(crate::specs::Position::letters_agree))]
pub fn letters_agree(p: Place) -> bool
    ensures { result ≡ letters_agree p }
{
    numbers::is_on(p.south, p.latitude.0) && numbers::is_on(p.west, p.longitude.0)
}

// Whether a position may have the symbol: both its bytes are below 128.
#[tactic(auto, unfolding(crate::specs::Position::symbols_in_range))]
fn symbols_in_range(p: Place) -> bool
    ensures { result ≡ symbols_in_range p }
{
    p.table.is_ascii() && p.code.is_ascii()
}

// Writes the 19 bytes before the comment, 0 as N and E. An angle, the blanks or a symbol byte out of range is 15, and so is a letter
// that contradicts its angle; a buffer without room is 16.
pub fn write_position(p: Place, out: &mut [u8]) -> buffer::Answer
    ensures { ends result out.new ≡ wrote (position_refusal p) (position_text p) out.old }
{
    let mut text = [0u8; 19];
    let north = lonlat::write_latitude(p.latitude, p.blanks, &mut text);
    if north.refusal != 0 {
        return buffer::refused(15);
    }
    let east = lonlat::write_longitude(p.longitude, &mut text[9..]);
    if east.refusal != 0 || !letters_agree(p) || !symbols_in_range(p) {
        return buffer::refused(15);
    }
    text[8] = p.table;
    text[18] = p.code;
    buffer::write(&text, out)
}

// The lower and upper bound of an angle, in degrees.
#[repr(C)]
#[derive(Clone, Copy, Debug)]
pub struct Bounds {
    pub lower: f64,
    pub upper: f64,
}

// The bounds, or 15 and 0, 0.
// Kept: a number beside the values, since C has the record as it stands.
#[repr(C)]
#[derive(Clone, Copy, Debug)]
pub struct BoundsAnswer {
    pub refusal: u8,
    pub bounds: Bounds,
}

// Degrees, minutes and hundredths of a minute, in degrees.
fn from_dmh(degrees: u32, minutes: u32, hundredths: u32) -> f64
    ensures { result ≡ from_dmh degrees minutes hundredths }
{
    degrees as f64 + minutes as f64 / 60.0 + hundredths as f64 / 6000.0
}

// An angle's size in degrees.
#[tactic(auto, unfolding(crate::specs::Bounds::degrees_of))]
fn degrees(size: u32) -> f64
    ensures { result ≡ degrees_of size }
{
    from_dmh(size / 6000, size / 100 % 60, size % 100)
}

// An angle in degrees, south and west below 0.
#[tactic(auto, unfolding(crate::specs::Bounds::center_of, numbers::specs::Sign::is_minus))]
fn center(angle: i32) -> f64
    ensures { result ≡ center_of angle }
{
    let size = degrees(angle.unsigned_abs());
    if angle < 0 { -size } else { size }
}

// The width that the blanks leave, in hundredths of a minute.
fn width(blanks: u8) -> i32
    ensures { result ≡ pos (width_of blanks) }
{
    match blanks {
        0 => 1,
        1 => 10,
        2 => 100,
        3 => 1000,
        4 => 6000,
        _ => 60000,
    }
}

// The same in degrees.
fn degree_width(blanks: u8) -> f64
    ensures { result ≡ degree_width blanks }
{
    f64::from(width(blanks)) / 6000.0
}

// Half the width to either side of the center.
fn range(center: f64, blanks: u8) -> Bounds
    ensures { result ≡ range_of center blanks }
{
    let width = degree_width(blanks);
    Bounds {
        lower: center - width / 2.0,
        upper: center + width / 2.0,
    }
}

// The bounds of an angle of at most that size.
fn bounds_of(most: u32, angle: i32, blanks: u8) -> BoundsAnswer
    ensures { result ≡ bounds_of most angle blanks }
{
    if !in_reach(most, angle, blanks) {
        return BoundsAnswer {
            refusal: 15,
            bounds: Bounds {
                lower: 0.0,
                upper: 0.0,
            },
        };
    }
    BoundsAnswer {
        refusal: 0,
        bounds: range(center(angle), blanks),
    }
}

// Kept: one for each type of angle, as of the boxes, since the C interface has both; they share bounds_of and box_of.
// The bounds between which a latitude lies whose last digits are blank, as many as blanks says.
pub fn latitude_bounds(l: Latitude, blanks: u8) -> BoundsAnswer
    ensures { result ≡ bounds_of most_latitude l.0 blanks }
{
    bounds_of(540000, l.0, blanks)
}

// The same of a longitude.
pub fn longitude_bounds(l: Longitude, blanks: u8) -> BoundsAnswer
    ensures { result ≡ bounds_of most_longitude l.0 blanks }
{
    bounds_of(1080000, l.0, blanks)
}

// The box for the page in half hundredths of a minute, or 15 and 0, 0.
// Kept: a number beside the values, since C has the record as it stands.
#[repr(C)]
#[derive(Clone, Copy, Debug, PartialEq, Eq)]
pub struct PageBox {
    pub refusal: u8,
    pub from: i32,
    pub to: i32,
}

fn no_box() -> PageBox
    ensures { result ≡ no_box }
{
    PageBox {
        refusal: 15,
        from: 0,
        to: 0,
    }
}

// The box from so many half hundredths below an angle to so many above it.
fn around(angle: i32, below: i32, above: i32) -> PageBox
    requires { (unsigned_abs angle ≤ most_longitude) × (unsigned_abs below ≤ widest) × (unsigned_abs above ≤ widest) }
    ensures { result ≡ box_around angle below above }
{
    let twice = 2 * angle;
    PageBox {
        refusal: 0,
        from: twice - below,
        to: twice + above,
    }
}

// The box of an angle of at most that size, which is at most 180 degrees: from the angle away from 0, south or west where minus.
fn box_of(most: u32, angle: i32, blanks: u8, minus: bool) -> PageBox
    requires { most ≤ most_longitude }
    ensures { result ≡ box_of most angle blanks minus }
{
    if !in_reach(most, angle, blanks) || !numbers::is_on(minus, angle) {
        return no_box();
    }
    let wide = 2 * width(blanks);
    if minus {
        around(angle, wide, 0)
    } else {
        around(angle, 0, wide)
    }
}

// The box for the page of a latitude whose last digits are blank, as many as blanks says, on the side of its letter. A letter that
// contradicts the angle is 15.
pub fn latitude_box(l: Latitude, blanks: u8, south: bool) -> PageBox
    ensures { result ≡ box_of most_latitude l.0 blanks south }
{
    box_of(540000, l.0, blanks, south)
}

// The same of a longitude.
pub fn longitude_box(l: Longitude, blanks: u8, west: bool) -> PageBox
    ensures { result ≡ box_of most_longitude l.0 blanks west }
{
    box_of(1080000, l.0, blanks, west)
}

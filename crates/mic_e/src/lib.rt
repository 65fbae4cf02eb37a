// Mic-E reports: the destination that carries a latitude, a message and two flags, and the eight bytes of
// information that carry longitude, speed, course and symbol. Angles are lonlat's, by its promise alone.
#![tactic(auto)]

ghost use Rattle.std.specs.Prelude.{◌≡◌, ◌<◌, ◌≤◌, false, map, if◌then◌else◌, slice_index, unsigned_abs};
ghost use Rattle.laws.specs.Bytes.{capital_n, capital_s};
ghost use Rattle.buffer.specs.Wrote.{ends, wrote};
ghost use Rattle.lonlat.specs.Latitude.{read_latitude};
ghost use Rattle.lonlat.specs.Angle.{most_longitude};
ghost use Rattle.numbers.specs.Sign.{sides_of};
ghost use Rattle.mic_e.specs.Turn.{less_if};
ghost use Rattle.mic_e.specs.Motion.{most_speed, most_course, read_motion, tens_of, motion_field};
ghost use Rattle.mic_e.specs.Longitude.{offset_of, wrapped, read_longitude, longitude_field, degrees_byte, minutes_byte, hundred_for};
ghost use Rattle.mic_e.specs.Message.{message_of, bits_of, message_number, message_at};
ghost use Rattle.mic_e.specs.Private.{reading, is_bit, three_bits, bit_if_odd, bits_in};
ghost use Rattle.mic_e.specs.Character.{is_character, is_last, is_flagged, digit_of, bit_of, character_of, flag_bit};
ghost use Rattle.mic_e.specs.Destination.{are_characters, text_in, destination_with, read_destination, characters_of, write_destination};
ghost use Rattle.mic_e.specs.Information.{read_information, information_out, information_refusal, information_bytes};

use lonlat::{Latitude, LatitudeRead, Longitude};
use numbers::Sides;

// A speed in knots, at most 799.
#[repr(C)]
#[derive(Clone, Copy)]
pub struct Speed(pub u32);

// A course in degrees, at most 360; 0 is an unknown one.
#[repr(C)]
#[derive(Clone, Copy)]
pub struct Course(pub u32);

// What three bytes of motion say.
#[derive(Clone, Copy)]
pub struct Motion {
    pub speed: Speed,
    pub course: Course,
}

// What the eight bytes say: the symbol's code byte stands before its table byte.
#[repr(C)]
#[derive(Clone, Copy)]
pub struct Information {
    pub longitude: Longitude,
    pub speed: Speed,
    pub course: Course,
    pub code: u8,
    pub table: u8,
}

// The standard messages, the custom ones, and two more.
#[derive(Clone, Copy)]
pub enum Message {
    M0,
    M1,
    M2,
    M3,
    M4,
    M5,
    M6,
    C0,
    C1,
    C2,
    C3,
    C4,
    C5,
    C6,
    Emergency,
    Unknown,
}

// The messages in the order of their numbers.
const MESSAGES: [Message; 16] = [
    Message::M0,
    Message::M1,
    Message::M2,
    Message::M3,
    Message::M4,
    Message::M5,
    Message::M6,
    Message::C0,
    Message::C1,
    Message::C2,
    Message::C3,
    Message::C4,
    Message::C5,
    Message::C6,
    Message::Emergency,
    Message::Unknown,
];

// What a destination says. `south` is the side as it was read, also of a latitude of 0; `sixty`, that the minutes are 60 or
// more.
#[derive(Drop)]
pub struct Destination {
    pub latitude: Latitude,
    pub message: Message,
    pub blanks: u8,
    pub south: bool,
    pub hundred: bool,
    pub west: bool,
    pub sixty: bool,
}

// The six characters, or zeros with the refusal 15.
// Kept: a number beside the values, since C has the record as it stands.
#[repr(C)]
#[derive(Drop)]
pub struct DestinationWritten {
    pub bytes: [u8; 6],
    pub refusal: u8,
}

// The bit of a destination's character: 0, a custom 1 or a standard 1.
#[derive(Clone, Copy, PartialEq)]
enum Bit {
    Zero,
    Custom,
    Standard,
}

// ---- speed and course, read

// What a byte stands for: 28 less. A byte below 28 stands for nothing: less 28, it wraps to more than 227.
fn reading(b: u8) -> Option<u32>
    ensures { result ≡ reading b }
{
    let reading = b.wrapping_sub(28);
    if reading <= 227 {
        Some(reading as u32)
    } else {
        None
    }
}

// v, with k off if it is k or more.
#[tactic(auto, unfolding(crate::specs::Turn::less_if))]
fn less_if(k: u32, v: u32) -> u32
    ensures { result ≡ less_if k v }
{
    if k <= v { v - k } else { v }
}

// The speed and course of three bytes, the fourth to the sixth of the information; none is a refusal, 12.
pub fn read_motion(a: u8, b: u8, c: u8) -> Option<Motion>
    ensures { result ≡ read_motion a b c }
{
    let fourth = reading(a)?;
    let fifth = reading(b)?;
    let sixth = reading(c)?;
    let speed = less_if(800, 10 * fourth + fifth / 10);
    if 799 < speed {
        return None;
    }
    let course = less_if(400, 100 * (fifth % 10) + sixth);
    if 360 < course {
        return None;
    }
    Some(Motion {
        speed: Speed(speed),
        course: Course(course),
    })
}

// ---- longitude, read

#[tactic(auto, unfolding(crate::specs::Longitude::offset_of))]
fn offset_of(hundred: bool) -> u32
    ensures { result ≡ offset_of hundred }
{
    if hundred { 100 } else { 0 }
}

// v, with 80 off if it is 180 to 189, and 190 off if it is 190 to 199.
#[tactic(auto, unfolding(crate::specs::Longitude::wrapped))]
fn wrap(v: u32) -> u32
    ensures { result ≡ wrapped v }
{
    match v {
        180..=189 => v - 80,
        190..=199 => v - 190,
        _ => v,
    }
}

// The longitude of three bytes, under the offset and the side that the destination gave; none is a refusal, 12.
pub fn read_longitude(hundred: bool, west: bool, a: u8, b: u8, c: u8) -> Option<Longitude>
    ensures { result ≡ read_longitude hundred west a b c }
{
    let degrees = reading(a)?;
    let minutes = reading(b)?;
    let hundredths = reading(c)?;
    let with_offset = degrees + offset_of(hundred);
    if 255 < with_offset {
        return None;
    }
    let size = 6000 * wrap(with_offset) + 100 * less_if(60, minutes) + hundredths;
    lonlat::longitude_of(size, west)
}

// ---- both, written

// The tens of knots as written, before 28 is added.
#[tactic(auto, unfolding(crate::specs::Motion::tens_of))]
fn tens_of(speed: u32) -> u32
    ensures { result ≡ tens_of speed }
{
    let tens = speed / 10;
    if tens < 20 { tens + 80 } else { tens }
}

// The three bytes of a speed and course.
fn motion_field(speed: u32, course: u32) -> [u8; 3]
    requires { (speed ≤ most_speed) × (course ≤ most_course) }
    ensures { result ≡ motion_field speed course }
{
    let tens = tens_of(speed);
    let second = (10 * (speed % 10) + course / 100 + 4 + 28) as u8;
    [(tens + 28) as u8, second, (course % 100 + 28) as u8]
}

// The degrees as written, before 28 is added.
#[tactic(auto, unfolding(crate::specs::Longitude::degrees_byte))]
fn degrees_byte(d: u32) -> u32
    ensures { result ≡ degrees_byte d }
{
    match d {
        0..=9 => d + 90,
        10..=99 => d,
        100..=109 => d - 20,
        _ => d - 100,
    }
}

// The minutes as written, before 28 is added.
#[tactic(auto, unfolding(crate::specs::Longitude::minutes_byte))]
fn minutes_byte(m: u32) -> u32
    ensures { result ≡ minutes_byte m }
{
    if m < 10 { m + 60 } else { m }
}

// The three bytes of a longitude's size, which the offset `takes_hundred` of its degrees goes with.
fn longitude_field(size: u32) -> [u8; 3]
    requires { size < most_longitude }
    ensures { result ≡ longitude_field size }
{
    let degrees = degrees_byte(size / 6000);
    let minutes = minutes_byte(size / 100 % 60);
    [
        (degrees + 28) as u8,
        (minutes + 28) as u8,
        (size % 100 + 28) as u8,
    ]
}

// Whether degrees are written under the offset 100.
#[tactic(auto, unfolding(crate::specs::Longitude::hundred_for))]
fn takes_hundred(d: u32) -> bool
    ensures { result ≡ hundred_for d }
{
    !matches!(d, 10..=99)
}

// ---- the characters of a destination. A class is tested by the difference from its first byte: wrapped, it is below the class's
// width for the bytes of the class alone.
// Kept: wrapping subtractions in place of `matches!` and `is_ascii_digit`: document 02, R-4.

// Whether a character shows a digit or a blank: `0-9`, `A-L`, `P-Z`.
#[tactic(auto, unfolding(crate::specs::Character::is_character))]
fn is_character(c: u8) -> bool
    ensures { result ≡ is_character c }
{
    c.wrapping_sub(b'0') < 10 || c.wrapping_sub(b'A') < 12 || c.wrapping_sub(b'P') < 11
}

// Whether it may stand among the last three: `A-K` may not.
#[tactic(auto, unfolding(crate::specs::Character::is_last))]
fn is_last(c: u8) -> bool
    ensures { result ≡ is_last c }
{
    !(c.wrapping_sub(b'A') < 11) && is_character(c)
}

// The digit or blank that a character shows: `0-9`, `A-J` and `P-Y` are digits.
fn digit_of(c: u8) -> u8
    ensures { result ≡ digit_of c }
{
    if c.wrapping_sub(b'0') < 10 {
        c
    } else if c.wrapping_sub(b'A') < 10 {
        c - b'A' + b'0'
    } else if c.wrapping_sub(b'P') < 10 {
        c - b'P' + b'0'
    } else {
        b' '
    }
}

// The bit of a character: `A-K` is custom, `P-Z` standard.
fn bit_of(c: u8) -> Bit
    ensures { result ≡ bit_of c }
{
    if c.wrapping_sub(b'A') < 11 {
        Bit::Custom
    } else if c.wrapping_sub(b'P') < 11 {
        Bit::Standard
    } else {
        Bit::Zero
    }
}

// The character of a bit and a digit; of any other byte than a digit, the bit's blank.
fn character_of(bit: Bit, d: u8) -> u8
    ensures { result ≡ character_of bit d }
{
    let (zero, blank) = match bit {
        Bit::Zero => (b'0', b'L'),
        Bit::Custom => (b'A', b'K'),
        Bit::Standard => (b'P', b'Z'),
    };
    let digit = d.wrapping_sub(b'0');
    if digit < 10 { zero + digit } else { blank }
}

// ---- messages

// The number of a message.
pub fn message_number(m: Message) -> u8
    ensures { result ≡ message_number m }
{
    m as u8
}

// The message of a number; above 15, Unknown.
pub fn message_at(n: u8) -> Message
    ensures { result ≡ message_at n }
{
    let found = MESSAGES.get(n as usize);
    found.copied().unwrap_or(Message::Unknown)
}

// Which of three bits are that one, as a number.
fn number_of(bit: Bit, x: Bit, y: Bit, z: Bit) -> u8
    ensures { result ≡ three_bits (is_bit bit x) (is_bit bit y) (is_bit bit z) }
{
    4 * ((x == bit) as u8) + 2 * ((y == bit) as u8) + ((z == bit) as u8)
}

// The message of the first three characters' bits: 111 down to 001 are M0 to M6, if standard, and C0 to C6.
fn message_of(x: Bit, y: Bit, z: Bit) -> Message
    ensures { result ≡ message_of x y z }
{
    let standard = number_of(Bit::Standard, x, y, z);
    let custom = number_of(Bit::Custom, x, y, z);
    if standard == 0 {
        message_at(14 - custom)
    } else if custom == 0 {
        message_at(7 - standard)
    } else {
        Message::Unknown
    }
}

// The bit where the number is odd, else 0.
#[tactic(auto, unfolding(crate::specs::Private::bit_if_odd))]
fn bit_if_odd(bit: Bit, n: u8) -> Bit
    ensures { result ≡ bit_if_odd bit n }
{
    if n % 2 == 1 { bit } else { Bit::Zero }
}

// The three bits of a number, each 1 of them that bit.
#[tactic(auto, unfolding(crate::specs::Private::bits_in))]
fn bits_in(bit: Bit, n: u8) -> [Bit; 3]
    ensures { result ≡ bits_in bit n }
{
    [n / 4, n / 2, n].map(|n| bit_if_odd(bit, n))
}

// The bits of a message as written.
fn bits_of(m: Message) -> [Bit; 3]
    ensures { result ≡ bits_of m }
{
    match message_number(m) {
        n @ 0..=6 => bits_in(Bit::Standard, 7 - n),
        n @ 7..=14 => bits_in(Bit::Custom, 14 - n),
        _ => [Bit::Standard, Bit::Custom, Bit::Standard],
    }
}

// ---- a destination, read

// Whether each of six characters may stand at its place.
#[tactic(auto, unfolding(crate::specs::Destination::are_characters))]
fn are_characters(call: &[u8; 6]) -> bool
    ensures { result ≡ are_characters call.now }
{
    let [a, b, c, d, e, f] = *call;
    is_character(a) && is_character(b) && is_character(c) && is_last(d) && is_last(e) && is_last(f)
}

// The flag of one of the last three characters: `P-Z`.
fn is_flagged(c: u8) -> bool
    ensures { result ≡ is_flagged c }
{
    c.wrapping_sub(b'P') < 11
}

// The letter of the latitude.
fn letter_of(c: u8) -> u8
    ensures { result ≡ (if is_flagged c then capital_n else capital_s) }
{
    if is_flagged(c) { b'N' } else { b'S' }
}

// The digits and blanks that six characters show.
// Kept: a closure around `digit_of`, since the search did not prove the function handed over by its name.
fn digits_of(call: &[u8; 6]) -> [u8; 6]
    ensures { result ≡ map digit_of call.now }
{
    call.map(|c| digit_of(c))
}

// The text of the latitude that six characters carry.
fn text_in(call: &[u8; 6]) -> [u8; 8]
    ensures { result ≡ text_in call.now }
{
    let [a, b, c, d, e, f] = digits_of(call);
    [a, b, c, d, b'.', e, f, letter_of(call[3])]
}

// The message of the first three characters.
fn message_in(call: &[u8; 6]) -> Message
    ensures { result ≡ message_of (bit_of (slice_index call.now 0)) (bit_of (slice_index call.now 1)) (bit_of (slice_index call.now 2)) }
{
    message_of(bit_of(call[0]), bit_of(call[1]), bit_of(call[2]))
}

// The destination of six characters that may stand at their places.
fn destination_in(call: &[u8; 6]) -> Option<Destination>
    ensures { result ≡ destination_with call.now (read_latitude (text_in call.now)) }
{
    let LatitudeRead {
        latitude,
        blanks,
        south,
        sixty,
    } = lonlat::read_latitude(&text_in(call))?;
    Some(Destination {
        latitude,
        message: message_in(call),
        blanks,
        south,
        hundred: is_flagged(call[4]),
        west: is_flagged(call[5]),
        sixty,
    })
}

// The destination of six call characters, of which the SSID is none; none is a refusal, 11.
pub fn read_destination(call: &[u8]) -> Option<Destination>
    ensures { result ≡ read_destination call.now }
{
    let call = call.try_into().ok()?;
    if are_characters(call) {
        destination_in(call)
    } else {
        None
    }
}

// ---- a destination, written

// The bit of a flag: a standard 1, or 0.
#[tactic(auto, unfolding(crate::specs::Character::flag_bit))]
fn flag_bit(flag: bool) -> Bit
    ensures { result ≡ flag_bit flag }
{
    if flag { Bit::Standard } else { Bit::Zero }
}

// The six characters of a latitude's text, the message's bits and the longitude's flags.
fn characters(text: [u8; 8], bits: [Bit; 3], hundred: bool, west: bool) -> [u8; 6]
    ensures { result ≡ characters_of text bits hundred west }
{
    [
        character_of(bits[0], text[0]),
        character_of(bits[1], text[1]),
        character_of(bits[2], text[2]),
        character_of(flag_bit(text[7] == b'N'), text[3]),
        character_of(flag_bit(hundred), text[5]),
        character_of(flag_bit(west), text[6]),
    ]
}

// A longitude taken apart.
fn sides_of(longitude: Longitude) -> Sides
    ensures { result ≡ sides_of longitude.0 }
{
    numbers::parts(longitude.0)
}

// The destination of a latitude with its blanks, a message and a longitude, whose offset and side it carries; or 15.
pub fn write_destination(
    latitude: Latitude,
    blanks: u8,
    message: Message,
    longitude: Longitude,
) -> DestinationWritten
    ensures { result ≡ write_destination latitude.0 blanks message longitude.0 }
{
    let sides = sides_of(longitude);
    if 1080000 <= sides.size {
        return DestinationWritten {
            bytes: [0; 6],
            refusal: 15,
        };
    }
    let mut text = [0u8; 8];
    let answer = lonlat::write_latitude(latitude, blanks, &mut text);
    if answer.refusal != 0 {
        return DestinationWritten {
            bytes: [0; 6],
            refusal: answer.refusal,
        };
    }
    let hundred = takes_hundred(sides.size / 6000);
    let bytes = characters(text, bits_of(message), hundred, sides.minus);
    DestinationWritten { bytes, refusal: 0 }
}

// ---- the information

// The information of what follows the type byte, under the offset and the side that the destination gave; its comment is
// the rest, from the ninth byte on. None is a refusal, 12.
pub fn read_information(s: &[u8], hundred: bool, west: bool) -> Option<Information>
    ensures { result ≡ read_information s.now hundred west }
{
    let &[a, b, c, d, e, f, code, table, ..] = s else {
        return None;
    };
    let longitude = read_longitude(hundred, west, a, b, c)?;
    let Motion { speed, course } = read_motion(d, e, f)?;
    Some(Information {
        longitude,
        speed,
        course,
        code,
        table,
    })
}

// A longitude's distance from 0.
fn size_of(longitude: Longitude) -> u32
    ensures { result ≡ unsigned_abs longitude.0 }
{
    sides_of(longitude).size
}

// Whether the information is out of the range that a writer takes.
#[tactic(auto, unfolding(crate::specs::Information::information_out, crate::specs::Longitude::longitude_out, crate::specs::Motion::motion_out))]
fn is_out(i: Information) -> bool
    ensures { result ≡ information_out i }
{
    1080000 <= size_of(i.longitude) || 799 < i.speed.0 || 360 < i.course.0
}

// The eight bytes of information that is in range.
fn information_bytes(i: Information) -> [u8; 8]
    requires { information_out i ≡ false }
    ensures { result ≡ information_bytes i }
{
    let [a, b, c] = longitude_field(size_of(i.longitude));
    let [d, e, f] = motion_field(i.speed.0, i.course.0);
    [a, b, c, d, e, f, i.code, i.table]
}

// Writes the eight bytes to the front of out, or answers 15 or 16 and leaves it alone.
pub fn write_information(i: Information, out: &mut [u8]) -> buffer::Answer
    ensures { ends result out.new ≡ wrote (information_refusal i) (information_bytes i) out.old }
{
    if is_out(i) {
        return buffer::refused(15);
    }
    buffer::write(&information_bytes(i), out)
}

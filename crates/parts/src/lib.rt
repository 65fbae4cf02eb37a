// The way in for C and Rust to the parts of a packet, for a plug-in that moves over one by one: callsigns, addresses, angles, times,
// positions, Mic-E fields, messages and status lines read and written, as functions of the C ABI. It is a library of its own, since
// what two functions share is compiled less well into each. No function asks more of its caller than its C type says.
#![tactic(auto)]

ghost use Rattle.std.specs.Prelude.{◌≡◌, length};
ghost use Rattle.buffer.specs.Wrote.{ends, wrote};
ghost use Rattle.callsign.specs.Text.{read_text};
ghost use Rattle.callsign.specs.Range.{range_refusal, text_of, with_star};
ghost use Rattle.callsign.specs.Address.{read_address};
ghost use Rattle.lonlat.specs.Latitude.{read_latitude, latitude_refusal, latitude_text};
ghost use Rattle.lonlat.specs.Longitude.{read_longitude, longitude_refusal, longitude_text};
ghost use Rattle.time.specs.Time.{read_time, time_refusal, time_text};
ghost use Rattle.position.specs.Position.{read_position, position_refusal, position_text};
ghost use Rattle.mic_e.specs.Destination.{read_destination};
ghost use Rattle.mic_e.specs.Information.{read_information, information_refusal, information_bytes};
ghost use Rattle.message.specs.Message.{addressee_bytes, read_message, message_text};
ghost use Rattle.message.specs.Status.{read_status, status_refusal, status_text};
ghost use Rattle.parts.specs.Parts.{field_at, address_for, latitude_in_c, no_longitude, longitude_in_c, time_or, time_in_c, destination_in_c, destination_for, information_in_c, message_refusal_for, status_in_c};

use callsign::{AddressRead, AddressWritten, CallRead, Callsign, Field};
use lonlat::{Latitude, LatitudeRead, Longitude, LongitudeError, LongitudeRead};
use message::MessageRead;
use mic_e::{Course, Destination, DestinationWritten, Information, Speed};
use position::{Place, PositionRead};
use time::Time;

// ---- callsigns and addresses

// Reads a callsign's text, with or without a star at its end; refused with 4 or 3.
#[unsafe(no_mangle)]
pub extern "C" fn tusselgro_read_callsign(text: &[u8]) -> CallRead
    ensures { result ≡ read_text text.now }
{
    callsign::read_text(text)
}

// Writes a callsign as text, with a star after it where starred; refused with 15 or 16.
#[unsafe(no_mangle)]
pub extern "C" fn tusselgro_write_callsign(
    call: Callsign,
    starred: bool,
    out: &mut [u8],
) -> buffer::Answer
    ensures { ends result out.new ≡ wrote (range_refusal call) (with_star (text_of call) starred) out.old }
{
    callsign::write_text(call, starred, out)
}

// Reads the seven bytes of an AX.25 address; refused with 3.
#[unsafe(no_mangle)]
pub extern "C" fn tusselgro_read_address(address: &[u8]) -> AddressRead
    ensures { result ≡ read_address address.now }
{
    callsign::read_address(address)
}

// The field of an address by its number: 0 destination, 1 source, 2 hop, 3 heard hop.
#[tactic(auto, unfolding(crate::specs::Parts::field_at))]
fn field_at(n: u8) -> Field
    ensures { result ≡ field_at n }
{
    match n {
        0 => Field::Destination,
        1 => Field::Source,
        _ => Field::Hop(n == 3),
    }
}

// Writes a callsign as an AX.25 address in the field of that number; refused with 15 or 13.
#[unsafe(no_mangle)]
pub extern "C" fn tusselgro_write_address(call: Callsign, field: u8, last: bool) -> AddressWritten
    ensures { result ≡ address_for call field last }
{
    if 3 < field {
        return AddressWritten {
            bytes: [0; 7],
            refusal: 15,
        };
    }
    callsign::write_address(call, field_at(field), last)
}

// ---- angles, times and positions

// What reading a latitude gives: 0 and all that was seen, or the refusal's number and zeros.
// Kept: a number beside the values, since C has the record as it stands.
#[repr(C)]
#[derive(Clone, Copy)]
pub struct CLatitudeRead {
    pub latitude: Latitude,
    pub blanks: u8,
    pub south: bool,
    pub sixty: bool,
    pub refusal: u8,
}

impl From<Option<LatitudeRead>> for CLatitudeRead {
    ghost from_gives = { λ read c. c ≡ latitude_in_c read };

    #[tactic(auto, unfolding(crate::specs::Parts::latitude_in_c, lonlat::specs::Latitude::latitude_number))]
    fn from(read: Option<LatitudeRead>) -> CLatitudeRead {
        match read {
            Some(l) => CLatitudeRead {
                latitude: l.latitude,
                blanks: l.blanks,
                south: l.south,
                sixty: l.sixty,
                refusal: 0,
            },
            None => CLatitudeRead {
                latitude: Latitude(0),
                blanks: 0,
                south: false,
                sixty: false,
                refusal: 8,
            },
        }
    }
}

// Reads the eight bytes of a latitude; refused with 8.
#[unsafe(no_mangle)]
pub extern "C" fn tusselgro_read_latitude(text: &[u8]) -> CLatitudeRead
    ensures { result ≡ latitude_in_c (read_latitude text.now) }
{
    CLatitudeRead::from(lonlat::read_latitude(text))
}

// What reading a longitude gives: 0 and all that was seen, or the refusal's number and zeros.
// Kept: a number beside the values, since C has the record as it stands.
#[repr(C)]
#[derive(Clone, Copy)]
pub struct CLongitudeRead {
    pub longitude: Longitude,
    pub west: bool,
    pub sixty: bool,
    pub refusal: u8,
}

fn no_longitude(n: u8) -> CLongitudeRead
    ensures { result ≡ no_longitude n }
{
    CLongitudeRead {
        longitude: Longitude(0),
        west: false,
        sixty: false,
        refusal: n,
    }
}

impl From<Result<LongitudeRead, LongitudeError>> for CLongitudeRead {
    ghost from_gives = { λ read c. c ≡ longitude_in_c read };

    #[tactic(auto, unfolding(crate::specs::Parts::longitude_in_c, lonlat::specs::Longitude::longitude_number))]
    fn from(read: Result<LongitudeRead, LongitudeError>) -> CLongitudeRead {
        match read {
            Ok(l) => CLongitudeRead {
                longitude: l.longitude,
                west: l.west,
                sixty: l.sixty,
                refusal: 0,
            },
            Err(LongitudeError::Malformed) => no_longitude(9),
            Err(LongitudeError::OutOfRange) => no_longitude(15),
        }
    }
}

// Reads the nine bytes of a longitude, whose last digits, as many as blanks says, are taken as 0; refused with 15 or 9.
#[unsafe(no_mangle)]
pub extern "C" fn tusselgro_read_longitude(text: &[u8], blanks: u8) -> CLongitudeRead
    ensures { result ≡ longitude_in_c (read_longitude text.now blanks) }
{
    CLongitudeRead::from(lonlat::read_longitude(text, blanks))
}

// Writes a latitude with its last digits blank, as many as blanks says; refused with 15 or 16.
#[unsafe(no_mangle)]
pub extern "C" fn tusselgro_write_latitude(
    latitude: i32,
    blanks: u8,
    out: &mut [u8],
) -> buffer::Answer
    ensures { ends result out.new ≡ wrote (latitude_refusal latitude blanks) (latitude_text latitude blanks) out.old }
{
    lonlat::write_latitude(Latitude(latitude), blanks, out)
}

// Writes a longitude in full; refused with 15 or 16.
#[unsafe(no_mangle)]
pub extern "C" fn tusselgro_write_longitude(longitude: i32, out: &mut [u8]) -> buffer::Answer
    ensures { ends result out.new ≡ wrote (longitude_refusal longitude) (longitude_text longitude) out.old }
{
    lonlat::write_longitude(Longitude(longitude), out)
}

// What reading a time or a status gives: 0 and the time, of a status or none, or the refusal's number and zeros.
// Kept: a number beside the values, since C has the record as it stands.
#[repr(C)]
#[derive(Clone, Copy)]
pub struct CTimeRead {
    pub time: Time,
    pub refusal: u8,
}

// A time that was read, or that refusal.
#[tactic(auto, unfolding(crate::specs::Parts::time_or))]
fn time_or(refusal: u8, read: Option<Time>) -> CTimeRead
    ensures { result ≡ time_or refusal read }
{
    match read {
        Some(time) => CTimeRead { time, refusal: 0 },
        None => CTimeRead {
            time: time::blank(),
            refusal,
        },
    }
}

// Reads the seven bytes of a time; refused with 17.
#[tactic(auto, unfolding(crate::specs::Parts::time_in_c, time::specs::Time::time_number))]
#[unsafe(no_mangle)]
pub extern "C" fn tusselgro_read_time(text: &[u8]) -> CTimeRead
    ensures { result ≡ time_in_c (read_time text.now) }
{
    time_or(17, time::read_time(text))
}

// Writes the seven bytes of a time, or none where there is no time; refused with 15 or 16.
#[unsafe(no_mangle)]
pub extern "C" fn tusselgro_write_time(time: Time, out: &mut [u8]) -> buffer::Answer
    ensures { ends result out.new ≡ wrote (time_refusal time) (time_text time) out.old }
{
    time::write_time(time, out)
}

// Reads a position from the byte behind its type byte, or behind its time, on; refused with 7, 10, 8 or 9.
#[unsafe(no_mangle)]
pub extern "C" fn tusselgro_read_position(text: &[u8]) -> PositionRead
    ensures { result ≡ read_position text.now }
{
    position::read_position(text, false)
}

// Writes the 19 bytes of a place; refused with 15 or 16.
#[unsafe(no_mangle)]
pub extern "C" fn tusselgro_write_position(place: Place, out: &mut [u8]) -> buffer::Answer
    ensures { ends result out.new ≡ wrote (position_refusal place) (position_text place) out.old }
{
    position::write_position(place, out)
}

// ---- Mic-E

// What reading a destination gives: 0 and what it says, its message by number, or the refusal's number and zeros.
// Kept: a number beside the values, since C has the record as it stands.
#[repr(C)]
#[derive(Clone, Copy)]
pub struct CDestinationRead {
    pub latitude: Latitude,
    pub message: u8,
    pub blanks: u8,
    pub south: bool,
    pub hundred: bool,
    pub west: bool,
    pub sixty: bool,
    pub refusal: u8,
}

impl From<Option<Destination>> for CDestinationRead {
    ghost from_gives = { λ read c. c ≡ destination_in_c read };

    #[tactic(auto, unfolding(crate::specs::Parts::destination_in_c, mic_e::specs::Destination::destination_number))]
    fn from(read: Option<Destination>) -> CDestinationRead {
        match read {
            Some(d) => CDestinationRead {
                latitude: d.latitude,
                message: mic_e::message_number(d.message),
                blanks: d.blanks,
                south: d.south,
                hundred: d.hundred,
                west: d.west,
                sixty: d.sixty,
                refusal: 0,
            },
            None => CDestinationRead {
                latitude: Latitude(0),
                message: 0,
                blanks: 0,
                south: false,
                hundred: false,
                west: false,
                sixty: false,
                refusal: 11,
            },
        }
    }
}

// Reads the six call characters of a Mic-E destination; refused with 11.
#[unsafe(no_mangle)]
pub extern "C" fn tusselgro_read_destination(call: &[u8]) -> CDestinationRead
    ensures { result ≡ destination_in_c (read_destination call.now) }
{
    CDestinationRead::from(mic_e::read_destination(call))
}

// Writes the destination of a latitude with its blanks, the message of that number, and a longitude, whose offset and side
// it carries; refused with 15.
#[unsafe(no_mangle)]
pub extern "C" fn tusselgro_write_destination(
    latitude: i32,
    blanks: u8,
    message: u8,
    longitude: i32,
) -> DestinationWritten
    ensures { result ≡ destination_for latitude blanks message longitude }
{
    if 15 < message {
        return DestinationWritten {
            bytes: [0; 6],
            refusal: 15,
        };
    }
    mic_e::write_destination(
        Latitude(latitude),
        blanks,
        mic_e::message_at(message),
        Longitude(longitude),
    )
}

// What reading the information gives: 0 and what it says, or the refusal's number and zeros.
// Kept: a number beside the values, since C has the record as it stands.
#[repr(C)]
#[derive(Clone, Copy)]
pub struct CInformationRead {
    pub information: Information,
    pub refusal: u8,
}

impl From<Option<Information>> for CInformationRead {
    ghost from_gives = { λ read c. c ≡ information_in_c read };

    #[tactic(auto, unfolding(crate::specs::Parts::information_in_c, mic_e::specs::Information::information_number))]
    fn from(read: Option<Information>) -> CInformationRead {
        match read {
            Some(information) => CInformationRead {
                information,
                refusal: 0,
            },
            None => CInformationRead {
                information: Information {
                    longitude: Longitude(0),
                    speed: Speed(0),
                    course: Course(0),
                    code: 0,
                    table: 0,
                },
                refusal: 12,
            },
        }
    }
}

// Reads the information behind the type byte, under the offset and the side that the destination gave; refused with 12.
#[unsafe(no_mangle)]
pub extern "C" fn tusselgro_read_information(
    bytes: &[u8],
    hundred: bool,
    west: bool,
) -> CInformationRead
    ensures { result ≡ information_in_c (read_information bytes.now hundred west) }
{
    CInformationRead::from(mic_e::read_information(bytes, hundred, west))
}

// Writes the eight bytes of the information; refused with 15 or 16.
#[unsafe(no_mangle)]
pub extern "C" fn tusselgro_write_information(
    information: Information,
    out: &mut [u8],
) -> buffer::Answer
    ensures { ends result out.new ≡ wrote (information_refusal information) (information_bytes information) out.old }
{
    mic_e::write_information(information, out)
}

// ---- messages and status lines

// Reads a message from the byte behind its type byte on; refused with 18.
#[unsafe(no_mangle)]
pub extern "C" fn tusselgro_read_message(bytes: &[u8]) -> MessageRead
    ensures { result ≡ read_message bytes.now }
{
    message::read_message(bytes)
}

// The bytes of an addressee as an array, which no function of the C ABI can take.
fn nine(s: &[u8]) -> [u8; 9]
    requires { length s.now ≡ addressee_bytes }
    ensures { result ≡ s.now }
{
    let mut nine = [0u8; 9];
    nine.copy_from_slice(s);
    nine
}

// Writes a message, from the byte behind its type byte on; refused with 18, also for an addressee that has not nine bytes, or 16.
#[unsafe(no_mangle)]
pub extern "C" fn tusselgro_write_message(
    addressee: &[u8],
    text: &[u8],
    identifier: &[u8],
    out: &mut [u8],
) -> buffer::Answer
    ensures { ends result out.new ≡ wrote (message_refusal_for addressee.now text.now identifier.now) (message_text addressee.now text.now identifier.now) out.old }
{
    if addressee.len() != 9 {
        return buffer::refused(18);
    }
    message::write_message(nine(addressee), text, identifier, out)
}

// Reads a status from the byte behind its type byte on; its text is what follows the time. Refused with 18.
#[tactic(auto, unfolding(crate::specs::Parts::status_in_c, message::specs::Status::status_number))]
#[unsafe(no_mangle)]
pub extern "C" fn tusselgro_read_status(bytes: &[u8]) -> CTimeRead
    ensures { result ≡ status_in_c (read_status bytes.now) }
{
    time_or(18, message::read_status(bytes))
}

// Writes a status, from the byte behind its type byte on; refused with 15, 18 or 16.
#[unsafe(no_mangle)]
pub extern "C" fn tusselgro_write_status(time: Time, text: &[u8], out: &mut [u8]) -> buffer::Answer
    ensures { ends result out.new ≡ wrote (status_refusal time text.now) (status_text time text.now) out.old }
{
    message::write_status(time, text, out)
}

// Numbers: taken apart by their sign and put together again, read from text and put into a buffer as text, in decimal and in
// hexadecimal.
#![tactic(auto)]

ghost use Rattle.std.specs.Prelude.{◌≡◌, ◌<◌, true, length, drop};
ghost use Rattle.laws.specs.Bytes.{is_digit};
ghost use Rattle.laws.specs.Lists.{every};
ghost use Rattle.buffer.specs.Filled.{in_use, added};
ghost use Rattle.numbers.specs.Sign.{sides_of, number_on, is_on};
ghost use Rattle.numbers.specs.Numbers.{digits, decimal, count_of, read_count, on_side, read_number, hex_digit, hex_pair, hex_value};

use buffer::Pieces;

// ---- a sign

// A number taken apart: whether it is below 0, which 0 itself is not, and its size.
#[derive(Clone, Copy)]
pub struct Sides {
    pub size: u32,
    pub minus: bool,
}

// The number's sign and size; of an angle, its side and size.
pub fn parts(angle: i32) -> Sides
    ensures { result ≡ sides_of angle }
{
    Sides {
        size: angle.unsigned_abs(),
        minus: angle < 0,
    }
}

// Whether a number is on that side of 0; 0 itself is on both.
#[tactic(auto, using(crate::proofs::Sign::back), unfolding(crate::specs::Sign::is_on))]
pub fn is_on(minus: bool, z: i32) -> bool
    ensures { result ≡ is_on minus z }
{
    if minus { z <= 0 } else { 0 <= z }
}

// The number of that size, below zero where minus is said, if an `i32` holds it; 0 is plain 0 either way.
pub fn signed(size: u32, minus: bool) -> Option<i32>
    ensures { result ≡ number_on minus size }
{
    if minus {
        if 2147483648 < size {
            return None;
        }
        return Some((0 - size as i64) as i32);
    }
    if 2147483647 < size {
        return None;
    }
    Some(size as i32)
}

// ---- numbers read

// Why a text is no count: it is more than may be, or it is not digits alone.
#[derive(Clone, Copy, Debug, PartialEq, Eq)]
pub enum CountError {
    Over,
    Malformed,
}

// Whether s is digits alone.
#[tactic(auto, unfolding(laws::specs::Lists::every, laws::specs::Bytes::within))]
fn all_digits(s: &[u8]) -> bool
    ensures { result ≡ every is_digit s.now }
{
    s.iter().all(|b| b.is_ascii_digit())
}

// The number of digits, if it is at most `most`.
fn value(s: &[u8], most: u32) -> Result<u32, CountError>
    requires { every is_digit s.now ≡ true }
    ensures { result ≡ count_of s.now most }
{
    let mut v: u64 = 0;
    for b in s {
        v = 10 * v + (*b - b'0') as u64;
        if (most as u64) < v {
            return Err(CountError::Over);
        }
    }
    Ok(v as u32)
}

// The number that digits alone, at least one, stand for.
#[tactic(auto, unfolding(crate::specs::Numbers::read_count))]
pub fn read_count(s: &[u8], most: u32) -> Result<u32, CountError>
    ensures { result ≡ read_count s.now most }
{
    if s.is_empty() || !all_digits(s) {
        return Err(CountError::Malformed);
    }
    value(s, most)
}

// The number of digits alone, on a side of 0.
#[tactic(auto, unfolding(crate::specs::Numbers::on_side))]
fn read_signed(s: &[u8], minus: bool) -> Option<i32>
    ensures { result ≡ on_side minus (read_count s.now 2147483648) }
{
    let size = read_count(s, 2147483648).ok()?;
    signed(size, minus)
}

// The number that digits stand for, with a dash before them or none.
#[tactic(auto, unfolding(crate::specs::Numbers::read_number))]
pub fn read_number(s: &[u8]) -> Option<i32>
    ensures { result ≡ read_number s.now }
{
    match s {
        [b'-', digits @ ..] => read_signed(digits, true),
        _ => read_signed(s, false),
    }
}

// What a hexadecimal digit stands for, a letter a small one.
#[tactic(auto, unfolding(crate::specs::Numbers::hex_value, laws::specs::Bytes::within))]
pub fn hex_value(d: u8) -> Option<u8>
    ensures { result ≡ hex_value d }
{
    match d {
        b'0'..=b'9' => Some(d - b'0'),
        b'a'..=b'f' => Some(d - b'a' + 10),
        _ => None,
    }
}

// ---- numbers put

// Puts the digits of n to the end of text, and answers where they start.
fn spell(n: u64, text: &mut [u8]) -> usize
    requires { length text.old ≡ 20 }
    ensures { (result < 20) × (drop result text.new ≡ digits n) }
{
    let mut at: usize = 20;
    let mut rest = n;
    // Kept: a `while`, since there are as many turns as the number has digits.
    while 10 <= rest {
        at -= 1;
        text[at] = b'0' + (rest % 10) as u8;
        rest /= 10;
    }
    at -= 1;
    text[at] = b'0' + rest as u8;
    at
}

// A number that has no sign, in decimal.
pub fn put_count(n: usize, out: &mut Pieces)
    ensures same_reference { out.new.bytes.ghost_name ≡ out.old.bytes.ghost_name }
    ensures value { in_use out.new ≡ added (in_use out.old) (digits n) }
{
    let mut text = [0u8; 20];
    let from = spell(n as u64, &mut text);
    out.put(&text[from..]);
}

// A number that may have one.
pub fn put_number(n: i32, out: &mut Pieces)
    ensures same_reference { out.new.bytes.ghost_name ≡ out.old.bytes.ghost_name }
    ensures value { in_use out.new ≡ added (in_use out.old) (decimal n) }
{
    let sides = parts(n);
    let mut text = [0u8; 20];
    let from = spell(sides.size as u64, &mut text);
    if sides.minus {
        text[from - 1] = b'-';
        out.put(&text[from - 1..]);
    } else {
        out.put(&text[from..]);
    }
}

// The last hexadecimal digit of n.
#[tactic(auto, unfolding(crate::specs::Numbers::hex_digit))]
fn hex_digit(n: u8) -> u8
    ensures { result ≡ hex_digit n }
{
    match n % 16 {
        d @ 0..=9 => b'0' + d,
        d => b'a' + d - 10,
    }
}

// A byte in two hexadecimal digits.
#[tactic(auto, unfolding(crate::specs::Numbers::hex_pair))]
pub fn put_hex(b: u8, out: &mut Pieces)
    ensures same_reference { out.new.bytes.ghost_name ≡ out.old.bytes.ghost_name }
    ensures value { in_use out.new ≡ added (in_use out.old) (hex_pair b) }
{
    out.put(&[hex_digit(b / 16), hex_digit(b)]);
}

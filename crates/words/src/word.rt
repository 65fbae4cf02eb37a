// The words of a request, which stand between single spaces, and what they mean.
ghost use Rattle.std.specs.Prelude.{◌+◌, length, unwrap_or, option_map};
ghost use Rattle.std.specs.Iterator.{at_most};

use buffer::Pieces;

// The messages of Mic-E by their words, in the order of their numbers.
pub const MESSAGES: [&[u8]; 16] = [
    b"M0",
    b"M1",
    b"M2",
    b"M3",
    b"M4",
    b"M5",
    b"M6",
    b"C0",
    b"C1",
    b"C2",
    b"C3",
    b"C4",
    b"C5",
    b"C6",
    b"emergency",
    b"unknown",
];

// The words of a text that are left: what stands behind those that were taken, and None behind the last.
#[derive(Clone, Copy)]
pub struct Words<'a> {
    left: Option<&'a [u8]>,
}

impl<'a> Iterator for Words<'a> {
    type Item = &'a [u8];

    ghost remaining = { λ w. at_most (unwrap_or (option_map (λ t. length t.now + 1) w.left) 0) };

    fn next(&mut self) -> Option<&'a [u8]> {
        let mut parts = self.left?.splitn(2, |b| *b == b' ');
        let word = parts.next();
        self.left = parts.next();
        word
    }
}

impl<'a> Words<'a> {
    // All words of a text.
    pub fn of(text: &'a [u8]) -> Words<'a> {
        Words { left: Some(text) }
    }

    // What is left, as it stands; nothing where no word is.
    pub fn rest(self) -> &'a [u8] {
        self.left.unwrap_or(b"")
    }

    // Whether every word was taken.
    pub fn is_over(self) -> bool {
        self.left.is_none()
    }

    // The value of a word `name=value` that may be left out, given with its `=`: None, and nothing is taken, where it is not next.
    pub fn value(&mut self, name: &[u8]) -> Option<&'a [u8]> {
        let mut later = *self;
        let value = later.next()?.strip_prefix(name)?;
        *self = later;
        Some(value)
    }

    // The next word as a number that has no sign and is at most `most`.
    pub fn count_to(&mut self, most: u32) -> Option<u32> {
        numbers::read_count(self.next()?, most).ok()
    }

    // The next word as a number that may have a sign.
    pub fn number(&mut self) -> Option<i32> {
        numbers::read_number(self.next()?)
    }

    // The next word as a number below 256.
    pub fn byte(&mut self) -> Option<u8> {
        byte(self.next()?)
    }
}

// A number below 256.
pub fn byte(s: &[u8]) -> Option<u8> {
    u8::try_from(numbers::read_count(s, 255).ok()?).ok()
}

// The byte of two hexadecimal digits.
fn pair(high: u8, low: u8) -> Option<u8> {
    Some((numbers::hex_value(high)? << 4) | numbers::hex_value(low)?)
}

// The bytes of pairs of digits, or none of a lone dash; they go to the front of room.
pub fn hex<'a>(s: &[u8], room: &'a mut [u8]) -> Option<&'a [u8]> {
    if s == b"-".as_slice() {
        return Some(b"");
    }
    if s.is_empty() || s.len() % 2 == 1 {
        return None;
    }
    let bytes = room.get_mut(..s.len() / 2)?;
    for (byte, digits) in bytes.iter_mut().zip(s.chunks_exact(2)) {
        let [high, low] = digits else {
            return None;
        };
        *byte = pair(*high, *low)?;
    }
    Some(bytes)
}

// The bytes of `%` and two hexadecimal digits for a byte of any value, another character for itself; they go to the front of room.
pub fn plain<'a>(s: &[u8], room: &'a mut [u8]) -> Option<&'a [u8]> {
    let mut bytes = Pieces::new(room);
    let mut left = s;
    while let [first, others @ ..] = left {
        left = match left {
            [b'%', high, low, behind @ ..] => {
                bytes.put_byte(pair(*high, *low)?);
                behind
            }
            [b'%', ..] => return None,
            _ => {
                bytes.put_byte(*first);
                others
            }
        };
    }
    let n = bytes.len;
    Some(lines::cut(room, n))
}

// The three columns of a field: its bytes in decimal, in hexadecimal, and as characters.
use buffer::Pieces;

// What stands over the columns.
pub const HEADING: &str = " decimal       hex        characters";

// A byte as the character that it is, or a dot.
pub fn character(b: u8) -> u8 {
    match b {
        b' '..=b'~' => b,
        _ => b'.',
    }
}

// A field in its columns.
#[derive(Clone, Copy)]
pub struct Columns(pub [u8; 3]);

impl Columns {
    // The columns as they are printed.
    pub fn text(self) -> [u8; 31] {
        let mut text = [0; 31];
        let mut row = Pieces::new(&mut text);
        for b in self.0 {
            row.put(&decimal(b));
        }
        row.put(b"  ");
        for b in self.0 {
            row.put_byte(b' ');
            numbers::put_hex(b, &mut row);
        }
        row.put(b"   |");
        for b in self.0 {
            row.put_byte(character(b));
        }
        row.put_byte(b'|');
        text
    }
}

// A byte in decimal, at the end of four places.
fn decimal(b: u8) -> [u8; 4] {
    let hundreds = if b < 100 { b' ' } else { b'0' + b / 100 };
    let tens = if b < 10 { b' ' } else { b'0' + b / 10 % 10 };
    [b' ', hundreds, tens, b'0' + b % 10]
}

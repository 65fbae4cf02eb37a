// The reply to a request, piece by piece. What does not fit is left out; the programs keep more room than any reply takes.
use buffer::{Answer, Pieces};
use callsign::Callsign;

// The pieces so far, and how bytes of a packet are spelled in those that follow: plain, or each as two hexadecimal digits. In plain a
// printed character stands as it is; any other byte, a space and a `%` is `%` and two hexadecimal digits.
#[derive(Drop)]
pub struct Reply<'r, 'a> {
    pieces: &'r mut Pieces<'a>,
    pub plain: bool,
}

impl<'r, 'a> Reply<'r, 'a> {
    // The reply whose pieces go behind those that are there.
    pub fn behind(pieces: &'r mut Pieces<'a>, plain: bool) -> Reply<'r, 'a> {
        Reply { pieces, plain }
    }

    // A text as it stands.
    pub fn put(&mut self, text: &[u8]) {
        self.pieces.put(text);
    }

    // A number that has no sign.
    pub fn count(&mut self, label: &[u8], n: usize) {
        self.put(label);
        numbers::put_count(n, self.pieces);
    }

    // A number that may have one.
    pub fn number(&mut self, label: &[u8], n: i32) {
        self.put(label);
        numbers::put_number(n, self.pieces);
    }

    // The number that a reply starts with: 0, or the refusal's.
    pub fn refusal(&mut self, n: u8) {
        self.count(b"", usize::from(n));
    }

    // One text, or the other.
    pub fn side(&mut self, other: bool, one: &[u8], two: &[u8]) {
        self.put(if other { two } else { one });
    }

    // One byte of a packet.
    fn byte(&mut self, b: u8) {
        if self.plain && b.is_ascii_graphic() && b != b'%' {
            self.pieces.put_byte(b);
            return;
        }
        if self.plain {
            self.pieces.put_byte(b'%');
        }
        numbers::put_hex(b, self.pieces);
    }

    // Bytes of a packet, or a dash for none.
    pub fn bytes(&mut self, label: &[u8], s: &[u8]) {
        self.put(label);
        if s.is_empty() {
            self.put(b"-");
        }
        for b in s {
            self.byte(*b);
        }
    }

    // Bytes in hexadecimal, also in plain.
    pub fn hex(&mut self, label: &[u8], s: &[u8]) {
        Reply::behind(self.pieces, false).bytes(label, s);
    }

    // A callsign's text: call, dash and SSID.
    pub fn call(&mut self, label: &[u8], c: Callsign) {
        let n = callsign::text_len(c);
        let text = c.text;
        self.bytes(label, lines::cut(&text, n));
    }

    // Bytes in decimal with a comma between two.
    pub fn decimals(&mut self, label: &[u8], s: &[u8]) {
        self.put(label);
        for (i, b) in s.iter().enumerate() {
            self.count(if i == 0 { b"" } else { b"," }, usize::from(*b));
        }
    }

    // A space and the bits of a float, in sixteen hexadecimal digits; nothing for what is no number.
    pub fn float(&mut self, x: f64) {
        if x.is_nan() {
            return;
        }
        self.put(b" ");
        for b in x.to_bits().to_be_bytes() {
            numbers::put_hex(b, self.pieces);
        }
    }

    // What a writer answered: the refusal, or 0 and the text that it wrote.
    pub fn written(&mut self, w: Answer, text: &[u8]) {
        self.refusal(w.refusal);
        if w.refusal == 0 {
            self.bytes(b" text=", lines::cut(text, w.reported));
        }
    }

    // What a lister or writer answered, and the whole buffer afterwards.
    pub fn whole(&mut self, w: Answer, buffer: &[u8]) {
        self.refusal(w.refusal);
        self.count(b" ", w.reported);
        self.count(b" ", w.needed);
        self.bytes(b" ", buffer);
    }
}

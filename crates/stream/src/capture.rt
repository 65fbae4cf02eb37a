// The lines of a capture, one after the other.
ghost use Rattle.std.specs.Prelude.{◌-◌, length};
ghost use Rattle.std.specs.Iterator.{at_most};

// A capture, and the place in it from which its lines are still to be given.
#[derive(Drop)]
pub struct Capture<'a> {
    text: &'a [u8],
    at: usize,
}

// The lines of s, without what ends them.
pub fn lines(s: &[u8]) -> Capture<'_> {
    Capture { text: s, at: 0 }
}

impl<'a> Iterator for Capture<'a> {
    type Item = &'a [u8];

    ghost remaining = { λ c. at_most (length c.text.now - c.at) };

    fn next(&mut self) -> Option<&'a [u8]> {
        let line = lines::line_at(self.text, self.at)?;
        self.at = line.next;
        Some(&self.text[line.start..line.end])
    }
}

// How many values were as they should be.
use buffer::Pieces;

// Those that were, and all.
#[derive(Clone, Copy, Default)]
pub struct Tally {
    right: u32,
    all: u32,
}

impl Tally {
    // Counts a value.
    pub fn count(&mut self, right: bool) {
        self.right = self.right.saturating_add(right as u32);
        self.all = self.all.saturating_add(1);
    }

    // Puts the line of the totals.
    pub fn put(self, out: &mut Pieces) {
        numbers::put_count(self.right as usize, out);
        out.put(b" of ");
        numbers::put_count(self.all as usize, out);
        out.put(b" as they should be\n");
    }
}

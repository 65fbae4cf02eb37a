// An output in parts: each is held in a lent buffer until little of that is free.
ghost use Rattle.std.specs.Prelude.{◌≡◌, length};

use buffer::Pieces;
use std::io::{Result, Write};

// How many bytes of an output's buffer are in use, and how many there are.
#[derive(Clone, Copy)]
pub struct Output {
    pub used: usize,
    pub size: usize,
}

impl Output {
    // How much of their buffer the pieces of an output take.
    pub fn of_pieces(pieces: &Pieces) -> Output
        ensures { result ≡ record { used = pieces.now.len; size = length pieces.now.bytes.now } }
    {
        Output {
            used: pieces.len,
            size: pieces.bytes.len(),
        }
    }

    fn free(self) -> usize {
        self.size.saturating_sub(self.used)
    }
}

// Where an output goes, and the pieces that are not written yet.
#[derive(Drop)]
pub struct Writer<'a, W> {
    to: W,
    pub pieces: Pieces<'a>,
}

impl<'a, W: Write> Writer<'a, W> {
    // What no answer, and no line of the bench with its answer, takes more than.
    const ROOM: usize = 24576;

    // An output of which nothing is held.
    pub fn new(to: W, buffer: &'a mut [u8]) -> Writer<'a, W> {
        let pieces = Pieces::new(buffer);
        Writer { to, pieces }
    }

    // Writes what is held where less than `ROOM` bytes are free.
    pub fn make_room(&mut self) -> Result<()> {
        if Output::of_pieces(&self.pieces).free() < Self::ROOM {
            self.flush()?;
        }
        Ok(())
    }
}

impl<W: Write> Write for Writer<'_, W> {
    // Holds the bytes once there is room, or writes some of what is longer than the buffer.
    fn write(&mut self, bytes: &[u8]) -> Result<usize> {
        if Output::of_pieces(&self.pieces).free() < bytes.len() {
            self.flush()?;
        }
        if Output::of_pieces(&self.pieces).free() < bytes.len() {
            return self.to.write(bytes);
        }
        self.pieces.put(bytes);
        Ok(bytes.len())
    }

    fn flush(&mut self) -> Result<()> {
        self.to.write_all(self.pieces.written())?;
        self.pieces.len = 0;
        Ok(())
    }
}

// An input read whole.
ghost use Rattle.std.specs.Prelude.{◌≤◌, length, IfOk};

use std::io::{Read, Result};

// Reads until buffer is full or the input ends; answers how many bytes that are, at the front of buffer.
pub fn read_full(from: &mut impl Read, buffer: &mut [u8]) -> Result<usize>
    ensures { IfOk result (λ held. held ≤ length buffer.new) }
{
    let mut held = 0;
    while held < buffer.len() {
        let n = from.read(&mut buffer[held..])?;
        if n == 0 {
            break;
        }
        held += n;
    }
    Ok(held)
}

// All bytes of an input, in buffer; none where they are more than that holds.
pub fn read_all<'a>(from: &mut impl Read, buffer: &'a mut [u8]) -> Result<Option<&'a [u8]>> {
    let held = read_full(from, buffer)?;
    if held == buffer.len() && read_full(from, &mut [0])? != 0 {
        return Ok(None);
    }
    Ok(Some(&buffer[..held]))
}

// Input of a bounded length, in memory that the caller lends, and how a program ends where that fails.
ghost use Rattle.std.specs.Prelude.{◌<◌, ◌≤◌, length, IfOk};
ghost use Rattle.std.specs.Io.KnownBytes.{Consumes, IsAtEnd};

use std::io;
use std::io::Read;

// What ended a program: its input could not be read, or its output not be written. What was read by then is not the input, so nothing is said of
// it.
#[derive(Debug, Drop)]
pub enum Failed {
    Reading(io::Error),
    Writing(io::Error),
}

// Reads until the buffer is full or the input ends, and gives the bytes that were read. An input may come in pieces, so the loop goes on by
// what a read gave, and a `for` says it no plainer.
pub fn read_full<'a, R: Read>(input: &mut R, buffer: &'a mut [u8]) -> io::Result<&'a [u8]>
    ensures within { IfOk result (λ bytes. length bytes.now ≤ length buffer.old) }
    ensures read { IfOk result (λ bytes. Consumes (R.remaining input.old) (R.remaining input.new) bytes.now) }
    ensures all { IfOk result (λ bytes. length bytes.now < length buffer.old → IsAtEnd (R.remaining input.new)) }
{
    let mut done: usize = 0;
    while done < buffer.len() {
        let count = input.read(&mut buffer[done..])?;
        if count == 0 {
            return Ok(&buffer[..done]);
        }
        done += count;
    }
    Ok(buffer)
}

// Inputs of a bounded length, in memory that is taken for them: for a program that reads files.
ghost use Rattle.std.specs.Prelude.{◌≡◌, ◌≤◌, length, IfOk, IfSome};

use std::alloc::Allocator;
use std::fs::{Files, open};
use std::io::Read;
use std::vec::Vec;

// Why an input was not read to its end.
#[derive(Clone, Copy)]
pub enum Unread {
    Failing,
    TooLong,
}

// Reads an input of at most so many bytes, all of it.
pub fn read_input<R: Read + Drop, A: Allocator>(
    input: R,
    most: u32,
    alloc: A,
) -> Result<Vec<u8, A>, Unread>
    ensures within { IfOk result (λ bytes. length bytes.items ≤ most) }
    ensures whole { IfOk result (λ bytes. IfSome (R.remaining input) (λ all. bytes.items ≡ all)) }
{
    let mut bytes = Vec::new(alloc);
    // one byte more than it may have, so that a longer one is seen to be one
    match input.take(u64::from(most) + 1).read_to_end(&mut bytes) {
        Ok(count) if count <= most as usize => Ok(bytes),
        Ok(_) => Err(Unread::TooLong),
        Err(_) => Err(Unread::Failing),
    }
}

// Reads a file.
pub fn read_file<R: Files + Alloc>(rt: &R, path: &str, most: u32) -> Result<Vec<u8, R::A>, Unread> {
    let file = open(rt, path).map_err(|_| Unread::Failing)?;
    read_input(file, most, rt.alloc())
}

// The program's arguments.
ghost use Rattle.std.specs.Prelude.{◌<◌};

use crate::failed::Failed;
use std::env::{Env, FillError};
use std::str::from_utf8;

// The path in an argument, which has to be there, to be UTF-8 and to fit in the room.
pub(crate) fn argument<'a>(
    rt: &HostRuntime,
    number: usize,
    room: &'a mut [u8],
) -> Result<&'a str, Failed> {
    match rt.arg(number, room) {
        Ok(length) => from_utf8(&room[..length]).map_err(|_| Failed::Path),
        Err(FillError::NotPresent) => Err(Failed::Usage),
        Err(FillError::TooLong) => Err(Failed::Path),
    }
}

// That there are no more arguments than so many.
pub(crate) fn no_more_than(rt: &HostRuntime, number: usize) -> Result<(), Failed>
    requires { number < 64 }
{
    match rt.arg(number + 1, &mut []) {
        Err(FillError::NotPresent) => Ok(()),
        _ => Err(Failed::Usage),
    }
}

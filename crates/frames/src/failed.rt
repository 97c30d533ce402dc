// What ends the program early.
use script::Unread;
use std::fmt;
use table::refusal::Refused;

// What it was, and of an input which one.
#[derive(Clone, Copy)]
pub(crate) enum Failed {
    Usage,
    Path,
    Reading(Unread, &'static str),
    Refused(Refused),
    Writing,
}

// As it is printed.
impl fmt::Display for Failed {
    fn fmt<W: fmt::Write>(&self, f: &mut fmt::Formatter<W>) -> fmt::Result {
        match self {
            Failed::Usage => write!(f, "usage: frames NAMES REPORT <TABLE >TABLE"),
            Failed::Path => write!(f, "a path is longer than 4096 bytes, or is not UTF-8"),
            Failed::Reading(Unread::Failing, what) => write!(f, "{what} can't be read"),
            Failed::Reading(Unread::TooLong, what) => write!(f, "{what} is too long"),
            Failed::Refused(refused) => write!(f, "{refused}"),
            Failed::Writing => write!(f, "the table can't be written"),
        }
    }
}

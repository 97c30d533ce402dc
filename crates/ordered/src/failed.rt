// What ends the program early.
use std::fmt;
use table::refusal::Refused;

#[derive(Clone, Copy)]
pub(crate) enum Failed {
    Reading,
    TooLong,
    Refused(Refused),
    Writing,
}

// As it is printed.
impl fmt::Display for Failed {
    fn fmt<W: fmt::Write>(&self, f: &mut fmt::Formatter<W>) -> fmt::Result {
        match self {
            Failed::Reading => write!(f, "the table can't be read"),
            Failed::TooLong => write!(f, "too long"),
            Failed::Refused(refused) => write!(f, "{refused}"),
            Failed::Writing => write!(f, "the table can't be written"),
        }
    }
}

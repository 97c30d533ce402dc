// What a call is refused for.
ghost use Rattle.std.specs.Prelude.{◌≡◌, ◌++◌, Some, codes, decimal};
ghost use Rattle.table.specs.Answer.{number_of};
ghost use Rattle.table.specs.Result.{result_of, room_result};

use std::fmt;

// The rows of "Refused tables" by their numbers: of the table itself down to `NotPlain`, then of what is handed in beside it, and then of the order of
// edges, which is the table's too.
#[derive(Clone, Copy, Debug)]
pub enum Cause {
    Length,
    Unlisted,
    OutOfOrder,
    TooMany,
    NoEntry,
    Absent,
    Foreign,
    NotPlain,
    Choice,
    Verdicts,
    Room,
    Number,
    Line,
    Mentions,
    NotAbove,
}

// Its number is what a program in C is told.
impl From<Cause> for u32 {
    ghost from_gives = { λ cause number. number ≡ number_of cause };

    fn from(cause: Cause) -> u32 {
        match cause {
            Cause::Length => 1,
            Cause::Unlisted => 2,
            Cause::OutOfOrder => 3,
            Cause::TooMany => 4,
            Cause::NoEntry => 5,
            Cause::Absent => 6,
            Cause::Foreign => 7,
            Cause::NotPlain => 8,
            Cause::Choice => 9,
            Cause::Verdicts => 10,
            Cause::Room => 11,
            Cause::Number => 12,
            Cause::Line => 13,
            Cause::Mentions => 14,
            Cause::NotAbove => 15,
        }
    }
}

// "a numbered refusal with a place"
#[derive(Clone, Copy, Debug)]
pub struct Refused {
    pub cause: Cause,
    pub place: usize,
}

// As the programs print it.
impl fmt::Display for Refused {
    ghost output = { λ r. Some (codes "refused " ++ (decimal (number_of r.cause) ++ (codes " at " ++ decimal r.place))) };

    fn fmt<W: fmt::Write>(&self, f: &mut fmt::Formatter<W>) -> fmt::Result {
        write!(f, "refused {} at {}", u32::from(self.cause), self.place)
    }
}

// Judges the length of a lent buffer, in any call that writes so much into one. It is the last check of each.
pub fn judge_room(needed: usize, room: usize) -> Result<(), Refused>
    ensures { result_of result ≡ room_result needed room }
{
    if room < needed {
        return Err(Refused {
            cause: Cause::Room,
            place: needed,
        });
    }
    Ok(())
}

// Task tables: reading and checking them. Document 01, "The task table" and "Refused tables".
#![tactic(auto)]

mod checks;
pub mod kinds;
pub mod record;
pub mod refusal;
mod scan;

ghost use Rattle.std.specs.Prelude.{◌≡◌};
ghost use Rattle.table.specs.Answer.{outcome, free_outcome, outcome_of};

use checks::Counted;
use refusal::{Cause, Refused};
use scan::tally;

// How many records there are of each kind.
#[derive(Clone, Copy)]
pub struct Counts {
    pub functions: usize,
    pub nodes: usize,
    pub edges: usize,
}

// The rows of "Refused tables" about the table itself, in their order, but for that of the order of edges.
const ROWS: [Cause; 8] = [
    Cause::Length,
    Cause::Unlisted,
    Cause::OutOfOrder,
    Cause::TooMany,
    Cause::NoEntry,
    Cause::Absent,
    Cause::Foreign,
    Cause::NotPlain,
];

// Checks a table of any length whose edges may stand in any order: the first check of document 01 that applies, lowest number first, at its earliest place.
pub fn check_free(t: &[u8]) -> Result<Counts, Refused>
    ensures { outcome_of result ≡ free_outcome t.now }
{
    // Before the records are counted: this refusal takes no longer for a longer input.
    if t.len() % 8 != 0 {
        return Err(Refused {
            cause: Cause::Length,
            place: t.len() / 8,
        });
    }
    let of = tally(t);
    let counted = Counted { t, of };
    for cause in ROWS {
        if let Some(place) = counted.place_of(cause) {
            return Err(Refused { cause, place });
        }
    }
    Ok(of)
}

// Checks a table of any length, the order of its edges too.
pub fn check(t: &[u8]) -> Result<Counts, Refused>
    ensures { outcome_of result ≡ outcome t.now }
{
    let of = check_free(t)?;
    let counted = Counted { t, of };
    let cause = Cause::NotAbove;
    match counted.place_of(cause) {
        Some(place) => Err(Refused { cause, place }),
        None => Ok(of),
    }
}

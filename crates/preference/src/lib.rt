// The preference order of spawns. Document 01, "Preference and the best choice".
#![tactic(auto)]

mod answer;
mod depth;
pub mod order;

ghost use Rattle.std.specs.Prelude.{◌≡◌};
ghost use Rattle.table.specs.Answer.{outcome, outcome_of};
ghost use Rattle.preference.specs.Preference.{counts_arranged, OrderFor};

pub use answer::{Arranged, Order};
use order::in_order;
use program::Program;
use table::refusal::Refused;

// The preference order of the spawns of a table of any length, or what the table is refused for.
pub fn preference(t: &[u8]) -> Result<Arranged, Refused>
    ensures outcome { outcome_of (counts_arranged result) ≡ outcome t.now }
    ensures order_for { OrderFor t.now result }
{
    let program = Program::read(t)?;
    Ok(Arranged {
        of: program.of,
        order: in_order(&program),
    })
}

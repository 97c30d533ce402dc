// The call order of the functions of a task table. Document 02, Ask 3.
#![tactic(auto)]

mod answer;
mod order;
mod reach;

ghost use Rattle.std.specs.Prelude.{◌≡◌};
ghost use Rattle.table.specs.Answer.{outcome, outcome_of};
ghost use Rattle.call_order.specs.Answer.{counts_ordered, OrderFor};

pub use answer::InOrder;
pub use order::order_functions;
use program::Program;
use table::refusal::Refused;

// The call order of a table of any length, or what the table is refused for.
pub fn call_order(t: &[u8]) -> Result<InOrder, Refused>
    ensures outcome { outcome_of (counts_ordered result) ≡ outcome t.now }
    ensures order_for { OrderFor t.now result }
{
    let program = Program::read(t)?;
    Ok(InOrder {
        of: program.of,
        functions: order_functions(&program),
    })
}

// The call order, place after place.
ghost use Rattle.std.specs.Prelude.{◌≡◌, ℕ, ◌<◌, ◌≤◌, true, ◌↔◌};
ghost use Rattle.table.specs.Program.{program_of};
ghost use Rattle.call_order.specs.CallOrder.{places, CallOrder};
ghost use Rattle.call_order.specs.Rows.{Due, Lowest};

use crate::reach::{reach, targets};
use program::Program;
use word::{has, is_within, with};

// Whether f is left, and all that it waits for is placed.
fn is_due(waits: &[u64; 64], placed: u64, f: usize) -> bool
    requires { f < 64 }
    ensures { (result ≡ true) ↔ Due waits.now placed f }
{
    !has(placed, f) && is_within(waits[f], placed)
}

// Which function comes next is decided here, and nowhere else: the lowest-numbered one that is due.
fn next(functions: usize, waits: &[u64; 64], placed: u64) -> Option<usize>
    requires { functions ≤ 64 }
    ensures { Lowest functions (Due waits.now placed) result }
{
    (0..functions).find(|f| is_due(waits, placed, *f))
}

// The functions of an accepted table in the call order, one byte for each, with zeros behind them. By a cast: there are at most 64, and a conversion
// would ask what to do above 255.
pub fn order_functions(program: &Program<'_>) -> [u8; 64]
    ensures call_order { CallOrder (program_of program.now.table.now) (places result) }
    ensures zeros { (i : ℕ) → program.now.of.functions ≤ i → places result i ≡ 0 }
{
    // What a function waits for: its call targets that do not reach it back.
    let waits = targets(program, &reach(program));
    let mut order = [0u8; 64];
    let mut placed = 0;
    for i in 0..program.of.functions {
        let f = next(program.of.functions, &waits, placed).unwrap();
        order[i] = f as u8;
        placed = with(placed, f);
    }
    order
}

// The synchronising set: passes over the functions, from the syncs on, until one adds nothing.
ghost use Rattle.std.specs.Prelude.{◌≡◌, ◌≤◌};
ghost use Rattle.table.specs.Program.{program_of};
ghost use Rattle.call_order.specs.Calls.{NoneReachesItself};
ghost use Rattle.sync.specs.Found.{Looked};

use crate::collect::syncs;
use crate::ways::Ways;
use crate::words::is_same;
use crate::{Known, Settled};
use call_order::order_functions;
use program::Program;

// The synchronising set of a program, and the nodes that it lets paths through to.
pub(crate) fn settle(program: Program<'_>) -> Settled<'_>
    ensures same_program { result.known.program ≡ program.entry }
    ensures looked { Looked result.known }
    ensures few { NoneReachesItself (program_of result.known.program.table.now) → result.passes ≤ 2 }
{
    let order = order_functions(&program);
    let ways = Ways::new(program);
    let mut set = syncs(&program);
    let mut pass = ways.pass(&order, set);
    let mut passes = 1;
    while !is_same(pass.set, set) {
        let more = pass.set;
        set = more;
        pass = ways.pass(&order, set);
        passes += 1;
    }
    let reached = pass.reached;
    Settled {
        known: Known {
            program,
            synchronising: set,
            reached,
        },
        passes,
    }
}

// The sets of a table.
ghost use Rattle.std.specs.Prelude.{◌≡◌, ◌≤◌, IfOk};
ghost use Rattle.table.specs.Answer.{outcome, outcome_of};
ghost use Rattle.table.specs.Program.{program_of};
ghost use Rattle.call_order.specs.Calls.{NoneReachesItself};
ghost use Rattle.sync.specs.Found.{counts_found, counts_settled, Looked};

use crate::settle::settle;
use crate::{Known, Settled};
use program::Program;
use table::refusal::Refused;

// Finds the synchronising nodes of a table of any length.
pub fn synchronising(t: &[u8]) -> Result<Known<'_>, Refused>
    ensures outcome { outcome_of (counts_found result) ≡ outcome t.now }
    ensures of_table { IfOk result (λ known. known.program.table.now ≡ t.now) }
    ensures looked { IfOk result Looked }
{
    let counted = counted(t)?;
    Ok(counted.known)
}

// The same, with the passes that it took: where no function reaches itself by calls, one finds the set, and one more that there is nothing to add.
pub fn counted(t: &[u8]) -> Result<Settled<'_>, Refused>
    ensures outcome { outcome_of (counts_settled result) ≡ outcome t.now }
    ensures of_table { IfOk result (λ counted. counted.known.program.table.now ≡ t.now) }
    ensures looked { IfOk result (λ counted. Looked counted.known) }
    ensures few { IfOk result (λ counted. NoneReachesItself (program_of t.now) → counted.passes ≤ 2) }
{
    let program = Program::read(t)?;
    Ok(settle(program))
}

// What-if lists: up to 16 choices for one table, judged in one call. Document 02, "What-if lists".
#![tactic(auto)]

mod admit;
mod sets;

ghost use Rattle.std.specs.Prelude.{◌≡◌, IfOk, length};
ghost use Rattle.table.specs.Result.{result_of};
ghost use Rattle.sizes.specs.Trials.{PreparedFor};
ghost use Rattle.what_if.specs.Call.{list_call, what_if_result, Answers, LeavesList, LeavesSets, Safeties};
ghost use Rattle.what_if.specs.Fits.{Fits};

use admit::admit;
pub use sets::Told;
use sets::{Sets, judge_all};
use sizes::trials::with_prepared;
use table::refusal::Refused;

// Says of each choice of a list whether it is safe, in bit i of the answer for choice i, and writes its sizes, one set after another.
pub fn what_if(t: &[u8], number: usize, choices: &[u8], out: &mut [u32]) -> Result<u16, Refused>
    ensures answers { Answers (list_call t.now number choices.now (length out.old)) result }
    ensures leaves { LeavesList t.now choices.now number out.old result out.new }
{
    let told = counted(t, number, choices, out)?;
    Ok(told.bits)
}

// The same, and how many turns over the rules it took; of that number nothing is promised.
pub fn counted(t: &[u8], number: usize, choices: &[u8], out: &mut [u32]) -> Result<Told, Refused>
    ensures answer { result_of result ≡ what_if_result (list_call t.now number choices.now (length out.old)) }
    ensures safe { IfOk result (λ told. Safeties t.now choices.now number told.bits) }
    ensures leaves { LeavesList t.now choices.now number out.old result out.new }
{
    let known = admit(t, number, choices, out.len())?;
    let mut sets = Sets { numbers: out };
    Ok(with_prepared(
        &known,
        &mut sets,
        |sets, prepared|
            requires { PreparedFor prepared.now × Fits prepared.now.known.program.table.now choices.now number sets.old.numbers.now }
            ensures same { sets.new.numbers.ghost_name ≡ sets.old.numbers.ghost_name }
            ensures safe { Safeties prepared.now.known.program.table.now choices.entry.now number result.bits }
            ensures leaves { LeavesSets prepared.now.known.program.table.now choices.entry.now number sets.old.numbers.now sets.new.numbers.now }
        { judge_all(prepared, number, choices, sets) },
    ))
}

// Safety of a choice. Document 01, "Safety".
#![tactic(auto)]

mod tests;

ghost use Rattle.std.specs.Prelude.{◌≤◌, length};
ghost use Rattle.rules.specs.Rules.{entries};
ghost use Rattle.table.specs.Result.{done};
ghost use Rattle.sizes.specs.Call.{call, choice_of, Leaves, LeavesFor};
ghost use Rattle.sizes.specs.Trials.{known_program, PreparedFor, StartsFor};
ghost use Rattle.safety.specs.Call.{Answers};
ghost use Rattle.safety.specs.Safety.{Safe};
ghost use Rattle.safety.specs.Test.{Tells};
ghost use Rattle.safety.specs.Trial.{Tried};

use sizes::admit::admit;
use sizes::find::{find, write};
use sizes::trials::{Prepared, find_from};
use table::refusal::Refused;
use tests::both_hold;

// What a choice of a prepared table comes to: whether it is safe, and the turns over the rules that this took, of which nothing is promised.
#[derive(Clone, Copy)]
pub struct Judged {
    pub safe: bool,
    pub turns: u32,
}

// A trial for the search above: finds the sizes of a choice from zeros, or from those of a smaller one, and says whether it is safe. If it
// is, its sizes take the place of the numbers started from; if not, these stay.
pub fn trial(prepared: &Prepared<'_>, choice: &[u8], sizes: &mut [u32]) -> Judged
    requires { PreparedFor prepared.now × StartsFor prepared.now (choice_of choice.now) sizes.old }
    ensures { Tried prepared.now (choice_of choice.now) sizes.old sizes.new result.safe }
{
    let program = &prepared.known.program;
    let found = find_from(prepared, choice, sizes);
    let safe = both_hold(program, &found);
    if safe {
        write(program, &found, sizes);
    }
    Judged {
        safe,
        turns: found.turns(),
    }
}

// For a list of choices: writes the sizes of one, found from zeros for a prepared table, and says whether it is safe.
pub fn judge(prepared: &Prepared<'_>, choice: &[u8], out: &mut [u32]) -> Judged
    requires { PreparedFor prepared.now × (entries (known_program prepared.now.known) ≤ length out.old) }
    ensures safe { Tells result.safe (Safe (known_program prepared.now.known) (choice_of choice.now)) }
    ensures leaves { LeavesFor prepared.now.known.program.table.now choice.now out.old done out.new }
{
    let program = &prepared.known.program;
    let zeros = [0u32; 2304];
    let found = find_from(prepared, choice, &zeros);
    write(program, &found, out);
    let turns = found.turns();
    Judged {
        safe: both_hold(program, &found),
        turns,
    }
}

// The call for one choice: says whether it is safe, and writes its sizes.
pub fn safety(t: &[u8], choice: &[u8], out: &mut [u32]) -> Result<bool, Refused>
    ensures answers { Answers (call t.now choice.now (length out.old)) result }
    ensures leaves { Leaves t.now choice.now out.old result out.new }
{
    let known = admit(t, choice, out.len())?;
    let found = find(&known, choice);
    write(&known.program, &found, out);
    Ok(both_hold(&known.program, &found))
}

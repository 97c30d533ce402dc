// The best choice. Document 01, "Preference and the best choice".
#![tactic(auto)]

mod admit;

ghost use Rattle.std.specs.Prelude.{◌≡◌, ◌≤◌, length};
ghost use Rattle.table.specs.Program.{program_of};
ghost use Rattle.size.specs.Numbers.{at, Written};
ghost use Rattle.rules.specs.Rules.{entries};
ghost use Rattle.table.specs.Result.{result_of};
ghost use Rattle.choice.specs.Call.{best_call, best_result, LeavesBoth};

use admit::admit;
use program::Program;
use search::Found;
pub use search::Work;
use sizes::trials::with_prepared;
use table::refusal::Refused;

// Writes the verdicts and the sizes of a table, at the buffers' edges.
fn write(program: &Program<'_>, found: &Found, verdicts: &mut [u8], sizes: &mut [u32])
    requires { ((program_of program.now.table.now).nodes ≤ length verdicts.old) × (entries (program_of program.now.table.now) ≤ length sizes.old) }
    ensures verdicts { Written (program_of program.now.table.now).nodes (at found.now.verdicts) verdicts.old verdicts.new }
    ensures sizes { Written (entries (program_of program.now.table.now)) (at found.now.sizes) sizes.old sizes.new }
{
    let nodes = program.of.nodes;
    verdicts[..nodes].copy_from_slice(&found.verdicts[..nodes]);
    let entries = program.entries();
    sizes[..entries].copy_from_slice(&found.sizes[..entries]);
}

// The best-choice call: writes the best choice, one byte for each node, and its sizes.
pub fn best(t: &[u8], verdicts: &mut [u8], sizes: &mut [u32]) -> Result<(), Refused>
    ensures answer { result_of result ≡ best_result (best_call t.now (length verdicts.old) (length sizes.old)) }
    ensures leaves { LeavesBoth t.now verdicts.old verdicts.new sizes.old sizes.new result }
{
    counted(t, verdicts, sizes)?;
    Ok(())
}

// The same, and the work that it took; of that nothing is promised.
pub fn counted(t: &[u8], verdicts: &mut [u8], sizes: &mut [u32]) -> Result<Work, Refused>
    ensures answer { result_of result ≡ best_result (best_call t.now (length verdicts.old) (length sizes.old)) }
    ensures leaves { LeavesBoth t.now verdicts.old verdicts.new sizes.old sizes.new result }
{
    let known = admit(t, verdicts.len(), sizes.len())?;
    let mut found = Found::unmerged(&known.program);
    with_prepared(&known, &mut found, search::find);
    write(&known.program, &found, verdicts, sizes);
    Ok(found.work)
}

// The least sizes of a choice.
ghost use Rattle.std.specs.Prelude.{map, ◌≤◌, length};
ghost use Rattle.table.specs.Program.{program_of};
ghost use Rattle.sync.specs.Found.{Looked};
ghost use Rattle.size.specs.Size.{value_of};
ghost use Rattle.size.specs.Numbers.{at, Written};
ghost use Rattle.rules.specs.Rules.{entries};
ghost use Rattle.sizes.specs.Trials.{FoundFor};

use listed::room::with_rules;
use program::Program;
use size::Size;
use solver::solution::Solution;
use sync::Known;

// Writes sizes as numbers, at the buffer's edge.
fn write_sizes(sizes: &[Size], out: &mut [u32])
    requires { length sizes.now ≤ length out.old }
    ensures { Written (length sizes.now) (at (map value_of sizes.now)) out.old out.new }
{
    for (i, size) in sizes.iter().enumerate() {
        out[i] = u32::from(*size);
    }
}

// Writes those of a table.
pub fn write(program: &Program<'_>, found: &Solution, out: &mut [u32])
    requires { entries (program_of program.now.table.now) ≤ length out.old }
    ensures { Written (entries (program_of program.now.table.now)) (at (map value_of found.now.sizes)) out.old out.new }
{
    write_sizes(&found.sizes()[..program.entries()], out);
}

// The least sizes of a choice, from zeros, with the sums of nodes that safety asks for, and how many turns it took; of that number
// nothing is promised, and programs with stored output hold it.
#[tactic(auto, using(listed::proofs::Worded::lists_named))]
pub fn find(known: &Known<'_>, choice: &[u8]) -> Solution
    requires { Looked known.now }
    ensures { FoundFor known.now (at choice.now) result }
{
    let mut found = Solution::starting(&[]);
    with_rules(known, choice, None, &mut found, Solution::solve);
    found
}

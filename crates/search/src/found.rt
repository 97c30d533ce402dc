// A choice with its sizes, as far as a search has come.
ghost use Rattle.std.specs.Prelude.{◌≡◌, replicate};
ghost use Rattle.table.specs.Program.{program_of};
ghost use Rattle.size.specs.Numbers.{Written};
ghost use Rattle.sizes.specs.Call.{choice_of};
ghost use Rattle.search.specs.Walk.{Unmerged};

use crate::Work;
use crate::verdict::Verdict;
use program::Program;

// The verdicts of nodes, in the bytes that a choice has for them, and the sizes of that choice, each with room for the largest table, as document 01
// has them (`[0; 2304]`): how much of them is meant the program says. And the work that it took to find them. What holds of it (`Holds`, `Safe`)
// speaks of the program too and gives sizes, so that it stands in contracts.
#[derive(Drop)]
pub struct Found {
    pub verdicts: [u8; 512],
    pub sizes: [u32; 2304],
    pub work: Work,
}

// Unmerges the verdicts of the nodes. The bytes past them stay.
#[tactic(auto, using(crate::proofs::Starting::started_none, crate::proofs::Starting::started_spawn, crate::proofs::Starting::started_other, crate::proofs::Starting::started_all, crate::proofs::Keeping::written_as))]
pub(crate) fn unmerge(program: &Program<'_>, verdicts: &mut [u8; 512])
    ensures unmerged { Unmerged (program_of program.now.table.now) (choice_of verdicts.new) }
    ensures written { Written (program_of program.now.table.now).nodes (choice_of verdicts.new) verdicts.old verdicts.new }
{
    for n in 0..program.of.nodes {
        if program.is_spawn(n) {
            verdicts[n] = u8::from(Verdict::Unmerged);
        } else {
            verdicts[n] = 0;
        }
    }
}

impl Found {
    // Unmerged everywhere, with zeros for its sizes.
    pub fn unmerged(program: &Program<'_>) -> Found
        ensures unmerged { Unmerged (program_of program.now.table.now) (choice_of result.verdicts) }
        ensures zeros { result.sizes ≡ replicate 2304 0 }
    {
        let mut verdicts = [0; 512];
        unmerge(program, &mut verdicts);
        Found {
            verdicts,
            sizes: [0; 2304],
            work: Work::default(),
        }
    }
}

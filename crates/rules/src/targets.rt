// Which sizes of calls and merged spawns rest on their targets. A choice stands beside the program: it is the caller's, and one program has many.
ghost use Rattle.std.specs.Prelude.{◌≡◌, ◌<◌, ◌≤◌};
ghost use Rattle.table.specs.Program.{program_of};
ghost use Rattle.size.specs.Numbers.{at};
ghost use Rattle.rules.specs.System.{takes, taken};

use program::Program;

// The byte of node n in a choice, and 0 past its end. A choice is bytes, also of values that no verdict has: a larger byte has all rules of a
// smaller one, which is how the rules are stated.
pub fn chosen(choice: &[u8], n: usize) -> u8
    ensures { result ≡ at choice.now n }
{
    choice.get(n).copied().unwrap_or(0)
}

// Whether size k of node n rests on its target, where k is 0 for Total to 3 for Through, as in `kinds`: of a call each size, of a merged spawn Total and Post, and if it is unguarded each.
#[tactic(auto, unfolding(crate::specs::System::takes))]
pub fn rests_on_target(program: &Program<'_>, choice: &[u8], n: usize, k: usize) -> bool
    requires { n < program.now.of.nodes }
    ensures { result ≡ takes (program_of program.now.table.now) (at choice.now) n k }
{
    let byte = chosen(choice, n);
    program.is_call(n) | (program.is_spawn(n) & ((3 <= byte) | ((2 <= byte) & (k <= 1))))
}

// On which of the target's sizes: of a call the same, of a spawn Total.
pub(crate) fn kind_taken(program: &Program<'_>, n: usize, k: usize) -> usize
    requires { (n < program.now.of.nodes) × (k ≤ 3) }
    ensures { (result ≡ taken (program_of program.now.table.now) n k) × (result ≤ 3) }
{
    if program.is_call(n) { k } else { 0 }
}

// The two conditions as tests of what was found for a choice.
ghost use Rattle.std.specs.Prelude.{map};
ghost use Rattle.table.specs.Program.{program_of};
ghost use Rattle.size.specs.Size.{value_of};
ghost use Rattle.size.specs.Numbers.{at};
ghost use Rattle.safety.specs.Test.{PostsBelow, EdgesBounded, Tells};

use program::Program;
use size::Size;
use solver::solution::Solution;

// Condition 1: whether Post of the target of every spawn is 0. Post is size 1 of four, by number as in `rules`.
fn posts_zero(program: &Program<'_>, sizes: &[Size; 2304]) -> bool
    ensures { Tells result (PostsBelow (program_of program.now.table.now) (at (map value_of sizes.now)) program.now.of.nodes) }
{
    (0..program.of.nodes).all(|n| {
        let post = sizes[4 * program.target(n) + 1];
        !program.is_spawn(n) || post.is_zero()
    })
}

// Condition 2: whether no edge has unbounded sums on both sides.
fn edges_bounded(program: &Program<'_>, after: &[Size; 512], before: &[Size; 512]) -> bool
    ensures { Tells result (EdgesBounded (program_of program.now.table.now) (at (map value_of after.now)) (at (map value_of before.now))) }
{
    (0..program.of.edges).all(|e| {
        let front = after[program.edge_from(e)];
        let back = before[program.edge_to(e)];
        !(front.is_unbounded() && back.is_unbounded())
    })
}

// Whether both conditions hold.
pub(crate) fn both_hold(program: &Program<'_>, found: &Solution) -> bool
    ensures { Tells result (PostsBelow (program_of program.now.table.now) (at (map value_of found.now.sizes)) program.now.of.nodes × EdgesBounded (program_of program.now.table.now) (at (map value_of found.now.after)) (at (map value_of found.now.before))) }
{
    posts_zero(program, found.sizes()) && edges_bounded(program, found.after(), found.before())
}

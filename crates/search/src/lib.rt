// The search for the best choice: two walks over the spawns, in the preference order.
#![tactic(auto)]

mod found;
mod problem;
mod trials;
mod verdict;
mod walks;
mod work;

ghost use Rattle.std.specs.Prelude.{◌≡◌, replicate};
ghost use Rattle.size.specs.Numbers.{Written};
ghost use Rattle.sizes.specs.Call.{choice_of};
ghost use Rattle.sizes.specs.Trials.{known_program, PreparedFor};
ghost use Rattle.search.specs.Walk.{Searched};

pub use found::Found;
use found::unmerge;
use preference::order::in_order;
use problem::Problem;
use sizes::trials::Prepared;
use verdict::Verdict;
pub use work::Work;

// What two walks come to for a prepared table, from unmerged everywhere, whatever the verdicts were. The bytes past the nodes stay.
pub fn find(found: &mut Found, prepared: &Prepared<'_>)
    requires { PreparedFor prepared.now × (found.old.sizes ≡ replicate 2304 0) }
    ensures searched { Searched prepared.now found.new }
    ensures written { Written (known_program prepared.now.known).nodes (choice_of found.new.verdicts) found.old.verdicts found.new.verdicts }
{
    let program = &prepared.known.program;
    unmerge(program, &mut found.verdicts);
    let order = in_order(program);
    let problem = Problem {
        prepared,
        order: order.as_slice(),
    };
    found.merge(&problem);
    found.walk(&problem, Verdict::Unguarded);
}

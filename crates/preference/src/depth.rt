// The depth of every function: level by level from the entries.
ghost use Rattle.std.specs.Prelude.{◌≡◌, ℕ, ◌<◌, ◌≤◌, None, Some, cond};
ghost use Rattle.table.specs.Program.{program_of};
ghost use Rattle.size.specs.Numbers.{at};
ghost use Rattle.preference.specs.Depth.{DepthsOf};
ghost use Rattle.preference.specs.Levels.{found_in, Levels, leads_down, Deepened, Sounded};

use program::Program;

// Gives the entries depth 0, and no function else one.
#[tactic(auto, using(crate::proofs::Levels::started_entry, crate::proofs::Levels::started_pass))]
fn start(program: &Program<'_>) -> [Option<u32>; 64]
    ensures { (f : ℕ) → f < program.now.of.functions → found_in result f ≡ cond ((program_of program.now.table.now).entry f) (Some 0) None }
{
    let mut depth = [None; 64];
    for f in 0..program.of.functions {
        if program.is_entry(f) {
            depth[f] = Some(0);
        }
    }
    depth
}

// Whether node n leads from a function of this level to one that has no depth yet.
fn leads_down(program: &Program<'_>, depth: &[Option<u32>; 64], level: u32, n: usize) -> bool
    requires { n < program.now.of.nodes }
    ensures { result ≡ leads_down (program_of program.now.table.now) level (found_in depth.now) n }
{
    program.has_target(n)
        && depth[program.owner(n)] == Some(level)
        && depth[program.target(n)].is_none()
}

// The depths with one level more: that of the functions that this one leads to, if it leads to any that have none yet.
fn deepen(program: &Program<'_>, found: &[Option<u32>; 64], level: u32) -> Option<[Option<u32>; 64]>
    requires few { level ≤ 64 }
    requires levels { Levels (program_of program.now.table.now) level (found_in found.now) }
    ensures { Deepened (program_of program.now.table.now) level (found_in found.now) result }
{
    let mut depth = *found;
    let mut grew = false;
    for n in 0..program.of.nodes {
        if leads_down(program, &depth, level, n) {
            depth[program.target(n)] = Some(level + 1);
            grew = true;
        }
    }
    grew.then_some(depth)
}

// Goes down level by level, until one leads to no other function. How many there are shows only then: a `for` over levels would have an end of its
// own, of which it would be shown that it is never reached.
fn sound(program: &Program<'_>) -> [Option<u32>; 64]
    ensures { Sounded (program_of program.now.table.now) (found_in result) }
{
    let mut depth = start(program);
    let mut level = 0;
    while let Some(deeper) = deepen(program, &depth, level) {
        depth = deeper;
        level += 1;
    }
    depth
}

// The depth of every function: 0 where no entry reaches it.
pub(crate) fn depths(program: &Program<'_>) -> [u32; 64]
    ensures { DepthsOf (program_of program.now.table.now) (at result) }
{
    sound(program).map(|depth| depth.unwrap_or(0))
}

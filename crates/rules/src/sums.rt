// The sums of nodes along open paths.
ghost use Rattle.std.specs.Prelude.{◌≡◌, ◌+◌, ◌<◌, ◌≤◌};
ghost use Rattle.table.specs.Program.{program_of};
ghost use Rattle.sync.specs.Words.{member};
ghost use Rattle.size.specs.Size.{value_of};
ghost use Rattle.program.specs.Frame.{frame_of};
ghost use Rattle.rules.specs.System.{kind_for, starts, from, to, steps, ending, ends, due};
ghost use Rattle.rules.specs.Entries.{offset};

use program::Program;
use size::Size;
use sync::Known;
use sync::words::has;

// Which sum of a node: the largest, over open paths, of
// After: Post of the first node and Through of the others, on paths that end at the node with no member after the first;
// Before: Through of all but the last and Pre of the last, on paths that start at the node with no member before the last;
// Through: Through of all, on paths from the function's first node to the node with no member after the first.
#[derive(Clone, Copy)]
pub enum Sum {
    After,
    Before,
    Through,
}

impl Sum {
    // The kind of size that a sum starts from at a node, and of the size that it gives a function: a number, as in `kinds`.
    pub(crate) fn kind(self) -> usize
        ensures { (result ≡ kind_for self) × (result ≤ 3) }
    {
        match self {
            Sum::After => 1,
            Sum::Before => 2,
            Sum::Through => 3,
        }
    }

    // The number of a node's sum among the entries. An entry is its number, since a rule packs three of them into a word, in fixed memory.
    pub(crate) fn number(self, n: usize) -> usize
        requires { n < 512 }
        ensures { (result ≡ offset self + n) × (result < 3840) }
    {
        match self {
            Sum::After => 2304 + n,
            Sum::Before => 2816 + n,
            Sum::Through => 3328 + n,
        }
    }

    // Whether it starts at node n.
    pub(crate) fn starts_at(self, program: &Program<'_>, n: usize) -> bool
        requires { n < program.now.of.nodes }
        ensures { result ≡ starts (program_of program.now.table.now) self n }
    {
        match self {
            Sum::After | Sum::Before => true,
            Sum::Through => n == program.first(program.owner(n)),
        }
    }

    // Where it comes from and where it goes, of the two ends of an edge from p to n.
    pub(crate) fn ends(self, p: usize, n: usize) -> (usize, usize)
        ensures { (result.0 ≡ from self p n) × (result.1 ≡ to self p n) }
    {
        match self {
            Sum::After | Sum::Through => (p, n),
            Sum::Before => (n, p),
        }
    }

    // Whether no member of the set is in its way there.
    pub(crate) fn steps_on(self, known: &Known<'_>, p: usize, n: usize) -> bool
        ensures { result ≡ steps (member known.now.synchronising) (member known.now.reached) self p n }
    {
        match self {
            Sum::After => !has(known.synchronising, n),
            Sum::Before => !has(known.synchronising, p),
            Sum::Through => !has(known.synchronising, n) & has(known.reached, p),
        }
    }

    // The node of function f at which it is done.
    pub(crate) fn ending(self, program: &Program<'_>, f: usize) -> usize
        requires { f < program.now.of.functions }
        ensures { (result ≡ ending (program_of program.now.table.now) self f) × (result < program.now.of.nodes) }
    {
        match self {
            Sum::After | Sum::Through => program.exit(f),
            Sum::Before => program.first(f),
        }
    }

    // Whether it gets there.
    pub(crate) fn ends_at(self, known: &Known<'_>, f: usize) -> bool
        requires { f < known.now.program.of.functions }
        ensures { result ≡ ends (program_of known.now.program.table.now) (member known.now.reached) self f }
    {
        match self {
            Sum::After | Sum::Before => true,
            Sum::Through => has(known.reached, known.program.exit(f)),
        }
    }

    // What is due there besides.
    pub(crate) fn due(self, program: &Program<'_>, f: usize) -> Size
        requires { f < program.now.of.functions }
        ensures { value_of result ≡ due (program_of program.now.table.now) self f }
    {
        match self {
            Sum::After | Sum::Through => Size::ZERO,
            Sum::Before => frame_size(program, f),
        }
    }
}

// The frame of function f, as a size.
pub(crate) fn frame_size(program: &Program<'_>, f: usize) -> Size
    requires { f < program.now.of.functions }
    ensures { value_of result ≡ frame_of (program_of program.now.table.now) f }
{
    Size::from_number(program.frame(f))
}

// What the best-choice call leaves.
ghost use Rattle.std.specs.Prelude.{◌+◌, ◌*◌, ◌≤◌, length};

use program::Program;

// A program, a verdict for each node, and four sizes for each function and each node.
#[derive(Clone, Copy)]
pub(crate) struct Chosen<'a> {
    pub program: Program<'a>,
    pub verdicts: &'a [u8],
    pub sizes: &'a [u32],
    ghost enough_verdicts: { program.of.nodes ≤ length verdicts.now },
    ghost enough_sizes: { 4 * (program.of.functions + program.of.nodes) ≤ length sizes.now },
}

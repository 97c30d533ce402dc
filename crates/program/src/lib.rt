// The program that an accepted table describes. Document 01, "The task table".
#![tactic(auto)]

mod edges;
mod functions;
mod nodes;
mod reading;

ghost use Rattle.std.specs.Prelude.{◌≡◌, ◌≤◌, ◌+◌, ◌*◌};
ghost use Rattle.table.specs.Answer.{Ready};
ghost use Rattle.table.specs.Program.{program_of};

pub use nodes::Sort;
use table::Counts;

// An accepted table and its counts. Its readers take a node, an edge or a function by number, and ask that there is such a one: as values of their own
// these would be made wherever a loop counts them, and taken apart to be stored.
#[derive(Clone, Copy)]
pub struct Program<'a> {
    pub table: &'a [u8],
    pub of: Counts,
    ghost ready: { Ready table.now of },
    ghost functions_are: { of.functions ≡ (program_of table.now).functions },
    ghost nodes_are: { of.nodes ≡ (program_of table.now).nodes },
    ghost few_functions: { of.functions ≤ 64 },
    ghost few_nodes: { of.nodes ≤ 512 },
    ghost few_edges: { of.edges ≤ 1024 },
}

impl Program<'_> {
    // How many sizes it has: four for each function and each node.
    pub fn entries(&self) -> usize
        ensures { result ≡ 4 * (self.now.of.functions + self.now.of.nodes) }
    {
        4 * (self.of.functions + self.of.nodes)
    }
}

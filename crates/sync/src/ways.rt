// What the search goes by: the edges of each node, and the calls of each function.
ghost use Rattle.std.specs.Prelude.{◌≡◌, ◌<◌, ◌||◌, ℕ};
ghost use Rattle.links.specs.Links.{Linked};
ghost use Rattle.table.specs.Program.{program_of};
ghost use Rattle.sync.specs.Pass.{call_of};
ghost use Rattle.sync.specs.Search.{edge_of};
ghost use Rattle.sync.specs.Words.{member};

use crate::words::insert;
use links::{Links, linked};
use program::Program;

// A program, its edges linked by the node that they come from, and its calls by their targets.
#[derive(Drop)]
pub(crate) struct Ways<'a> {
    pub program: Program<'a>,
    pub edges: Links<512, 1024>,
    calls: Links<64, 512>,
    ghost edges_are: { Linked (edge_of program.table.now) program.of.edges edges.first edges.next },
    ghost calls_are: { Linked (call_of (program_of program.table.now)) program.of.nodes calls.first calls.next },
}

fn link_edges(program: &Program<'_>) -> Links<512, 1024>
    ensures { Linked (edge_of program.now.table.now) program.now.of.edges result.first result.next }
{
    linked(program.of.edges, |e| Some(program.edge_from(e)))
}

fn link_calls(program: &Program<'_>) -> Links<64, 512>
    ensures { Linked (call_of (program_of program.now.table.now)) program.now.of.nodes result.first result.next }
{
    linked(
        program.of.nodes,
        |n| program.is_call(n).then_some(program.target(n)),
    )
}

impl<'a> Ways<'a> {
    pub(crate) fn new(program: Program<'a>) -> Self
        ensures { result.program ≡ program.entry }
    {
        Ways {
            program,
            edges: link_edges(&program),
            calls: link_calls(&program),
        }
    }

    // The set with all calls of function f.
    pub(crate) fn with_calls(&self, f: usize, from: [u64; 8]) -> [u64; 8]
        ensures { (n : ℕ) → member result n ≡ (member from n || call_of (program_of self.now.program.table.now) f n) }
    {
        let mut set = from;
        let mut next = self.calls.first(f);
        while let Some(n) = next {
            insert(&mut set, n);
            next = self.calls.next(n);
        }
        set
    }
}

// The ends of an edge.
ghost use Rattle.std.specs.Prelude.{◌≡◌, ◌<◌};
ghost use Rattle.table.specs.Record.{edge_from, edge_to};

use crate::Program;
use table::record;

impl Program<'_> {
    // Where the edge in the e-th edge record comes from.
    #[tactic(auto, using(table::proofs::Ready::from_given))]
    pub fn edge_from(&self, e: usize) -> usize
        requires { e < self.now.of.edges }
        ensures { (result ≡ edge_from self.now.table.now e) × (result < self.now.of.nodes) }
    {
        record::field_a(self.table, self.of.functions + self.of.nodes + e)
    }

    // Where it goes.
    #[tactic(auto, using(table::proofs::Ready::to_given))]
    pub fn edge_to(&self, e: usize) -> usize
        requires { e < self.now.of.edges }
        ensures { (result ≡ edge_to self.now.table.now e) × (result < self.now.of.nodes) }
    {
        record::field_b(self.table, self.of.functions + self.of.nodes + e)
    }
}

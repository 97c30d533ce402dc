// Searches along edges.
ghost use Rattle.std.specs.Prelude.{◌≡◌, true, ◌↔◌, ℕ, ◌<◌};
ghost use Rattle.table.specs.Program.{program_of};
ghost use Rattle.sync.specs.Words.{member};
ghost use Rattle.sync.specs.Pass.{Through};
ghost use Rattle.sync.specs.Search.{Leaves, Offered};

use crate::found::Found;
use crate::ways::Ways;
use crate::words::has;

impl Found {
    // Adds node n, if it is not to be avoided and was not found so far.
    fn offer(&mut self, avoid: [u64; 8], n: usize)
        requires { n < 512 }
        ensures { Offered (member avoid) n self.old self.new }
    {
        if !has(avoid, n) & !has(self.set, n) {
            self.add(n);
        }
    }
}

impl Ways<'_> {
    // Offers the nodes that the edges of node a lead to.
    fn leave(&self, avoid: [u64; 8], a: usize, found: &mut Found)
        ensures { Leaves (program_of self.now.program.table.now) (member avoid) a found.old found.new }
    {
        let mut next = self.edges.first(a);
        while let Some(e) = next {
            found.offer(avoid, self.program.edge_to(e));
            next = self.edges.next(e);
        }
    }

    // The nodes that are reached from node a by paths none of whose nodes after the first is to be avoided. Each is left once, along its edges, so that the
    // search takes as long as there are such nodes and edges.
    pub(crate) fn reach(&self, avoid: [u64; 8], a: usize) -> [u64; 8]
        requires { a < self.now.program.of.nodes }
        ensures { (n : ℕ) → (member result n ≡ true) ↔ Through (program_of self.now.program.table.now) (member avoid) a n }
    {
        let mut found = Found::new();
        found.add(a);
        let mut left = 0;
        while left < found.nodes.len() {
            let n = found.nodes.as_slice()[left];
            self.leave(avoid, usize::from(n), &mut found);
            left += 1;
        }
        found.set
    }
}

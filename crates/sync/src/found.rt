// What a search along edges has found.
ghost use Rattle.std.specs.Prelude.{◌≡◌, false, ◌||◌, ℕ, ◌<◌, ◌≤◌, ◌+◌, ◌++◌, ◌∷◌, [], eqb, length};
ghost use Rattle.sync.specs.Words.{member};
ghost use Rattle.sync.specs.Room.{room};

use crate::words::insert;
use arrayvec::ArrayVec;

// What a search has found so far: the nodes, each once and in the order in which they were found, and the set of them.
#[derive(Drop)]
pub(crate) struct Found {
    pub nodes: ArrayVec<u16, 512>,
    pub set: [u64; 8],
    ghost few: { length nodes.items + room set ≤ 512 },
}

impl Found {
    // Nothing so far.
    pub(crate) fn new() -> Self
        ensures nodes { result.nodes.items ≡ [] }
        ensures set { (n : ℕ) → member result.set n ≡ false }
    {
        Found {
            nodes: ArrayVec::new(),
            set: [0; 8],
        }
    }

    // Adds node n, which was not found so far. By a cast: there are at most 512 nodes, and a conversion would ask what to do above 65,535.
    pub(crate) fn add(&mut self, n: usize)
        requires small { n < 512 }
        requires fresh { member self.old.set n ≡ false }
        ensures nodes { self.new.nodes.items ≡ self.old.nodes.items ++ n ∷ [] }
        ensures set { (m : ℕ) → member self.new.set m ≡ (eqb m n || member self.old.set m) }
    {
        insert(&mut self.set, n);
        self.nodes.push(n as u16);
    }
}

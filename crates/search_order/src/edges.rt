// An order of a table's edges in which sums along paths settle in few sweeps, however its nodes are numbered:
// that of a search in depth from the functions' first nodes, and then from the others. An edge stands before those that
// were found beyond it: where no path comes back to its start, before all of them, so one sweep settles.
// The search is a hint: nothing is promised of it, so no place needs a bound. What it writes is made sure of.
ghost use Rattle.order.specs.Order.{Ordered};

use order::sure::{get, put, sure_front};
use program::Program;

// The edges that a search has left: the first of each from-node, and the next after each edge. They are linked by number, since there
// is no heap.
#[derive(Drop)]
struct Links {
    first: [Option<u16>; 512],
    next: [Option<u16>; 1024],
}

impl Links {
    // Makes edge e the first one of node n.
    fn put(&mut self, n: usize, e: usize) {
        if n < 512 && e < 1024 {
            self.next[e] = self.first[n];
            // By `as`, since the test bounds e: `try_from` would test it again.
            self.first[n] = Some(e as u16);
        }
    }

    // Takes the first edge that is left of node n, if there is one.
    fn take(&mut self, n: usize) -> Option<usize> {
        let e = usize::from(self.first.get(n).copied()??);
        self.first[n] = self.next.get(e).copied()?;
        Some(e)
    }
}

// All edges, each from-node's first to last.
fn link_edges(program: &Program<'_>) -> Links {
    let mut links = Links {
        first: [None; 512],
        next: [None; 1024],
    };
    for e in (0..program.of.edges).rev() {
        links.put(program.edge_from(e), e);
    }
    links
}

// A search as far as it has come: the edges that are left, those on the way at the order's start, and those that have their place at its
// end, from `place` on. The edges on the way have no place yet, so there is room for them below it: one array in fixed memory serves for both.
#[derive(Drop)]
struct Search<'a> {
    program: &'a Program<'a>,
    links: Links,
    order: [u16; 1024],
    depth: usize,
    place: usize,
}

impl Search<'_> {
    // Goes from a node along edges that are left, and puts them on the way.
    fn descend(&mut self, from: usize) {
        let program = self.program;
        let mut n = from;
        for depth in self.depth..program.of.edges {
            let Some(e) = self.links.take(n) else {
                return;
            };
            if program.of.edges <= e {
                return;
            }
            put(&mut self.order, depth, e);
            self.depth = depth + 1;
            n = program.edge_to(e);
        }
    }

    // Puts the last edge on the way at its place, and goes on from where it comes from.
    fn retreat(&mut self) {
        self.depth = self.depth.saturating_sub(1);
        self.place = self.place.saturating_sub(1);
        let e = get(&self.order, self.depth);
        put(&mut self.order, self.place, e);
        let program = self.program;
        if e < program.of.edges {
            self.descend(program.edge_from(e));
        }
    }

    // Searches from node n: an edge goes to its place on the way back, below those that were found beyond it.
    fn from(&mut self, n: usize) {
        self.descend(n);
        for _ in 0..self.place {
            if self.depth == 0 {
                return;
            }
            self.retreat();
        }
    }
}

// Searches from everywhere, from the functions' first nodes and then from every node, and leaves no edge out.
fn search_all(program: &Program<'_>) -> [u16; 1024] {
    let mut search = Search {
        program: &*program,
        links: link_edges(program),
        order: [0; 1024],
        depth: 0,
        place: program.of.edges,
    };
    for f in 0..program.of.functions {
        search.from(program.first(f));
    }
    for n in 0..program.of.nodes {
        search.from(n);
    }
    search.order
}

// The order that the search gives, made sure of.
pub fn order_edges(program: &Program<'_>) -> [u16; 1024]
    ensures { Ordered program.now.of.edges result }
{
    sure_front(search_all(program), program.of.edges)
}

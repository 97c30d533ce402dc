// Passes over the records.
ghost use Rattle.std.specs.Prelude.{◌≡◌, ◌≤◌};
ghost use Rattle.table.specs.Below.{earliest};
ghost use Rattle.table.specs.Kind.{number_of_kind};
ghost use Rattle.table.specs.Checks.{too_many};
ghost use Rattle.table.specs.Answer.{CountsOf};
ghost use Rattle.table.specs.Scan.{of_kind, surplus_of};

use crate::Counts;
use crate::kinds::{Kind, is_of, listed_kind};

// The first of n records that is one more of the kind than the limit.
pub(crate) fn first_surplus(t: &[u8], kind: Kind, limit: usize, n: usize) -> Option<usize>
    ensures { result ≡ earliest (surplus_of t.now (number_of_kind kind) limit) n }
{
    let mut before = 0;
    for r in 0..n {
        if is_of(t, r, kind) {
            if before == limit {
                return Some(r);
            }
            before += 1;
        }
    }
    None
}

// How many of the records are of each kind.
#[tactic(auto, unfolding(crate::specs::Record::functions, crate::specs::Record::nodes, crate::specs::Record::edges))]
pub(crate) fn tally(t: &[u8]) -> Counts
    ensures { CountsOf t.now result }
{
    let mut of = Counts {
        functions: 0,
        nodes: 0,
        edges: 0,
    };
    for r in 0..t.len() / 8 {
        match listed_kind(t, r) {
            Some(Kind::Function) => of.functions += 1,
            Some(Kind::Node) => of.nodes += 1,
            Some(Kind::Edge) => of.edges += 1,
            None => {}
        }
    }
    of
}

// 4: the first of n records that is one more of its kind than allowed.
#[tactic(auto, using(crate::proofs::Below::earliest_either), unfolding(crate::specs::Checks::too_many))]
pub(crate) fn first_too_many(t: &[u8], n: usize) -> Option<usize>
    ensures { result ≡ earliest (too_many t.now) n }
{
    let function = first_surplus(t, Kind::Function, 64, n);
    let node = first_surplus(t, Kind::Node, 512, function.unwrap_or(n)).or(function);
    first_surplus(t, Kind::Edge, 1024, node.unwrap_or(n)).or(node)
}

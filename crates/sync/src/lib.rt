// The synchronising nodes of a task table. Document 01, "Synchronising nodes".
#![tactic(auto)]

mod collect;
mod finding;
mod found;
mod pass;
mod search;
mod settle;
mod ways;
pub mod words;

pub use finding::{counted, synchronising};
use program::Program;

// A program, and two sets of its nodes. What holds of the sets, `Looked`, gives paths for the nodes that are reached. A ghost field
// can only say that something holds and gives nothing, so `Looked` stands in the contracts.
#[derive(Clone, Copy)]
pub struct Known<'a> {
    pub program: Program<'a>,
    // The synchronising nodes.
    pub synchronising: [u64; 8],
    // The nodes that are reached from their function's first node by a path none of whose nodes after the first synchronises.
    pub reached: [u64; 8],
}

// The same, and in how many passes over the functions the set was found, the one that added nothing among them.
#[derive(Clone, Copy)]
pub struct Settled<'a> {
    pub known: Known<'a>,
    pub passes: u32,
}

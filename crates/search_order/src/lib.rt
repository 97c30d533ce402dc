// Orders of a table's edges and functions that a search finds, in which rules settle quickly. Nothing else depends on them: what is
// promised is only that each edge and each function stands in its order.
#![tactic(auto)]

pub mod edges;
pub mod functions;

// Orders of the numbers below k, which the crates above find for a table's functions, nodes and edges. What is promised of one is only that each
// number stands in it.
#![tactic(auto)]

pub mod sure;

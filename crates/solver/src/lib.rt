// The least solution of rules that are listed as words: each says that one entry is at least a base and other entries, added up. It knows
// nothing of tables.
#![tactic(auto)]

mod causes;
pub mod rule;
pub mod solution;
mod turns;

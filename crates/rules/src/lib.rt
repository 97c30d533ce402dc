// The rules of sizes as a finite system, by kind and number. Document 01, "Sizes and their rules".
#![tactic(auto)]

pub mod kinds;
pub mod sums;
pub mod targets;

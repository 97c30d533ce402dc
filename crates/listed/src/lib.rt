// The rules of sizes as a list of words: those of a choice, or those of the widest one and what a choice has of them.
#![tactic(auto)]

mod force;
mod list;
pub mod room;
mod source;

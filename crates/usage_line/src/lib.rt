// The lines of the compiler's report and of the list of names. Document 02, "Frames from the compiler's report".
#![tactic(auto)]

mod answer;
mod bytes;
mod lines;
mod name;
mod report;

pub use answer::Usage;
pub use bytes::is_name;
pub use lines::{Cut, next_line};
pub use name::name_found;
pub use report::usage;

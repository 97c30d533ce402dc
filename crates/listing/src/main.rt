// Reads a task table from standard input and prints its listing. Document 01, "The listing program".
#![tactic(auto)]

use script::{Failed, read_full};
use text::LONGEST;

fn main(rt: HostRuntime) -> Result<(), Failed> {
    // one byte more than the longest table, so that a longer input is seen to be one
    let mut buffer = [0u8; LONGEST + 1];
    let bytes = read_full(&mut rt.stdin(), &mut buffer).map_err(Failed::Reading)?;
    let made = text::listing(bytes);
    rt.write_all(made.as_bytes()).map_err(Failed::Writing)
}

// Reads a task table from standard input, at most 12,800 bytes of it, and prints whether it is accepted.
#![tactic(auto)]

use report::Page;
use script::{Failed, read_full};

// How many bytes the longest table has.
const LONGEST: usize = 12800;

// Room for the longest line, a refusal at a place of 20 digits.
const LINE: usize = 64;

fn main(rt: HostRuntime) -> Result<(), Failed> {
    // one byte more than the longest table, so that a longer input is seen to be one
    let mut buffer = [0u8; LONGEST + 1];
    let bytes = read_full(&mut rt.stdin(), &mut buffer).map_err(Failed::Reading)?;
    let mut page = Page::<LINE>::new();
    if bytes.len() > LONGEST {
        page.text("too long\n");
    } else {
        page.checked(table::check(bytes));
    }
    rt.write_all(page.as_slice()).map_err(Failed::Writing)
}

// Writes a task table whose edges stand in any order with its edges in order, as in `ordered <TABLE >TABLE`. Document 02, "One order for edges".
#![tactic(auto)]

mod failed;

use failed::Failed;
use ordered_table::ordered;
use script::read_full;
use std::process::ExitCode;

// How many bytes a table may have.
const LONGEST: usize = 12800;

fn run(rt: &HostRuntime) -> Result<(), Failed> {
    // one byte more than the longest table, so that a longer input is seen to be one
    let mut buffer = [0u8; LONGEST + 1];
    let table = read_full(&mut rt.stdin(), &mut buffer).map_err(|_| Failed::Reading)?;
    if LONGEST < table.len() {
        return Err(Failed::TooLong);
    }
    let mut out = [0u8; LONGEST];
    match ordered(table, &mut out) {
        Ok(length) => rt.write_all(&out[..length]).map_err(|_| Failed::Writing),
        Err(refused) => Err(Failed::Refused(refused)),
    }
}

fn main(rt: HostRuntime) -> ExitCode {
    match run(&rt) {
        Ok(()) => ExitCode::SUCCESS,
        Err(failed) => {
            let _ = rt.eprintln(failed);
            ExitCode::FAILURE
        }
    }
}

// Writes what the compiler's report counts into the frames of a task table, as in `frames NAMES REPORT <TABLE >TABLE`. Document 02, "Frames from the
// compiler's report".
#![tactic(auto)]

mod arguments;
mod failed;

use arguments::{argument, no_more_than};
use failed::Failed;
use script::{read_file, read_input};
use stack_usage::frames;
use std::process::ExitCode;

// How many bytes each input may have. A table has no more.
const LONGEST_TABLE: u32 = 12800;

// 64 names of 64 bytes with their line feeds are 4,160 bytes; a longer list can only be refused.
const LONGEST_LIST: u32 = 65536;

const LONGEST_REPORT: u32 = 4 * 1024 * 1024;

// The table is read first of all: where the standard input is closed, a file that is opened would take its place.
fn run(rt: &HostRuntime) -> Result<(), Failed> {
    let mut names = [0u8; 4096];
    let mut report = [0u8; 4096];
    let names = argument(rt, 1, &mut names)?;
    let report = argument(rt, 2, &mut report)?;
    no_more_than(rt, 2)?;
    let mut table = read_input(rt.stdin(), LONGEST_TABLE, rt.alloc()).map_err(|why| Failed::Reading(
        why,
        "the table",
    ))?;
    let names = read_file(rt, names, LONGEST_LIST).map_err(|why| Failed::Reading(
        why,
        "the list of names",
    ))?;
    let report = read_file(rt, report, LONGEST_REPORT).map_err(|why| Failed::Reading(
        why,
        "the report",
    ))?;
    frames(&mut table, &names, &report).map_err(Failed::Refused)?;
    rt.write_all(&table).map_err(|_| Failed::Writing)
}

fn main(rt: HostRuntime) -> ExitCode {
    match run(&rt) {
        Ok(()) => ExitCode::SUCCESS,
        Err(failed) => {
            let _ = rt.eprintln(failed);
            ExitCode::FAILURE
        }
    }
}

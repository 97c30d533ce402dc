// What the report counts for the functions of a table.
ghost use Rattle.std.specs.Prelude.{◌≡◌, ◌≤◌, IfOk, IfErr};
ghost use Rattle.table.specs.Answer.{number_of};
ghost use Rattle.table.specs.Result.{result_of};
ghost use Rattle.stack_usage.specs.Call.{frames_call, frames_result};
ghost use Rattle.stack_usage.specs.Counted.{EachOnce, FirstOdd, CountedFor};

use crate::mention::Mention;
use crate::names::read_names;
use crate::report::read_report;
use table::check;
use table::refusal::{Cause, Refused};

// What the only line about each function counts.
fn each_once(mentions: &[Mention; 64], functions: usize) -> Result<[u16; 64], Refused>
    requires { functions ≤ 64 }
    ensures counts { IfOk result (EachOnce mentions.now functions) }
    ensures refused { IfErr result (λ r. (number_of r.cause ≡ 14) × FirstOdd mentions.now functions r.place) }
{
    let mut counts = [0; 64];
    for f in 0..functions {
        let Mention::Once(count) = mentions[f] else {
            return Err(Refused {
                cause: Cause::Mentions,
                place: f,
            });
        };
        counts[f] = count;
    }
    Ok(counts)
}

// A count for each of so many functions.
#[derive(Clone, Copy)]
pub(crate) struct Counted {
    pub(crate) counts: [u16; 64],
    pub(crate) functions: usize,
}

// Judges the call, and counts.
pub(crate) fn judge(t: &[u8], names: &[u8], report: &[u8]) -> Result<Counted, Refused>
    ensures answer { result_of result ≡ frames_result (frames_call t.now names.now report.now) }
    ensures counted { IfOk result (CountedFor (frames_call t.now names.now report.now)) }
{
    let table = check(t)?;
    let list = read_names(names, table.functions)?;
    let mentions = read_report(report, &list)?;
    let counts = each_once(&mentions, table.functions)?;
    Ok(Counted {
        counts,
        functions: table.functions,
    })
}

// The report, line by line.
ghost use Rattle.std.specs.Prelude.{◌≡◌, ◌≤◌, ◌+◌, ◌&&◌, false, ℕ, List, Some, None, IfOk, IfErr, MatchOption};
ghost use Rattle.table.specs.Below.{earliest};
ghost use Rattle.table.specs.Answer.{number_of};
ghost use Rattle.usage_line.specs.Line.{is_usage};
ghost use Rattle.usage_line.specs.Lines.{lines};
ghost use Rattle.stack_usage.specs.Call.{wrong_usage};
ghost use Rattle.stack_usage.specs.Mention.{SaysOfEach};
ghost use Rattle.stack_usage.specs.Names.{NamesOf};
ghost use Rattle.stack_usage.specs.Report.{Noted, Reads};

use crate::mention::Mention;
use crate::names::Names;
use table::refusal::{Cause, Refused};
use usage_line::{Cut, Usage, next_line, usage};

// What a line says, where it ends in its line feed, is of its form and its count is in range.
fn usage_of<'a>(cut: &Cut<'a>) -> Option<Usage<'a>>
    ensures { MatchOption result ((cut.now.ended && is_usage cut.now.line.now) ≡ false) (Reads cut.now) }
{
    if cut.ended { usage(cut.line) } else { None }
}

// Notes a line of the report at each function that has its name.
fn note(mentions: &mut [Mention; 64], names: &Names<'_>, usage: &Usage<'_>)
    requires { names.now.functions ≤ 64 }
    ensures { Noted names.now usage.now names.now.functions mentions.old mentions.new }
{
    for f in 0..names.functions {
        if names.of[f] == usage.name {
            mentions[f] = mentions[f].and(usage.count);
        }
    }
}

// What the report says of each function.
pub(crate) fn read_report(report: &[u8], names: &Names<'_>) -> Result<[Mention; 64], Refused>
    requires { names.now.functions ≤ 64 }
    ensures said { IfOk result (λ mentions. (file : List ℕ) → NamesOf file names.now → SaysOfEach file report.now names.now.functions (lines report.now) mentions) }
    ensures read { IfOk result (λ mentions. earliest (wrong_usage report.now) (lines report.now) ≡ None) }
    ensures refused { IfErr result (λ r. (number_of r.cause ≡ 13) × (j : ℕ) × (earliest (wrong_usage report.now) (lines report.now) ≡ Some j) × (r.place ≡ names.now.functions + j)) }
{
    let mut mentions = [Mention::Never; 64];
    let mut rest = report;
    let mut line = 0;
    while let Some(cut) = next_line(rest) {
        let Some(usage) = usage_of(&cut) else {
            return Err(Refused {
                cause: Cause::Line,
                place: names.functions + line,
            });
        };
        note(&mut mentions, names, &usage);
        rest = cut.behind;
        line += 1;
    }
    Ok(mentions)
}

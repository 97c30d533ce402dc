// The list of names.
ghost use Rattle.std.specs.Prelude.{◌≡◌, ◌≤◌, ◌+◌, Some, IfOk, IfErr, MatchOption};
ghost use Rattle.table.specs.Below.{earliest};
ghost use Rattle.table.specs.Answer.{number_of};
ghost use Rattle.stack_usage.specs.Call.{wrong_name};
ghost use Rattle.stack_usage.specs.Names.{NamesFor, TakesName, NoName};

use table::refusal::{Cause, Refused};
use usage_line::{is_name, next_line};

// A name for each of so many functions.
#[derive(Clone, Copy)]
pub(crate) struct Names<'a> {
    pub(crate) of: [&'a [u8]; 64],
    pub(crate) functions: usize,
}

// A name, and the lines behind it.
#[derive(Clone, Copy)]
struct Listed<'a> {
    name: &'a [u8],
    behind: &'a [u8],
}

// The name in the first line, if there is one.
fn next_name(file: &[u8]) -> Option<Listed<'_>>
    ensures { MatchOption result (NoName file.now) (λ listed. TakesName file.now listed.name.now listed.behind.now) }
{
    let cut = next_line(file)?;
    if !cut.ended || !is_name(cut.line) {
        return None;
    }
    Some(Listed {
        name: cut.line,
        behind: cut.behind,
    })
}

// Reads them, one line for each function.
pub(crate) fn read_names(file: &[u8], functions: usize) -> Result<Names<'_>, Refused>
    requires { functions ≤ 64 }
    ensures named { IfOk result (NamesFor file.now functions) }
    ensures refused { IfErr result (λ r. (number_of r.cause ≡ 13) × (earliest (wrong_name file.now functions) (functions + 1) ≡ Some r.place)) }
{
    let mut of = [&file[..0]; 64];
    let mut rest = file;
    for f in 0..functions {
        let Some(listed) = next_name(rest) else {
            return Err(Refused {
                cause: Cause::Line,
                place: f,
            });
        };
        of[f] = listed.name;
        rest = listed.behind;
    }
    match next_line(rest) {
        Some(_) => Err(Refused {
            cause: Cause::Line,
            place: functions,
        }),
        None => Ok(Names { of, functions }),
    }
}

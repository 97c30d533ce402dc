// What the best-choice call is refused for.
ghost use Rattle.std.specs.Prelude.{◌≡◌, IfOk};
ghost use Rattle.table.specs.Result.{result_of};
ghost use Rattle.sizes.specs.Known.{KnownFor};
ghost use Rattle.choice.specs.Call.{best_call, best_result};

use program::Program;
use sizes::Known;
use sizes::admit::look;
use table::refusal::{Cause, Refused, judge_room};

// Judges the lengths of both buffers.
#[tactic(auto, using(crate::proofs::Calls::verdicts_refused))]
fn judge(program: &Program<'_>, verdicts: usize, buffer: usize) -> Result<(), Refused>
    ensures { result_of result ≡ best_result (best_call program.now.table.now verdicts buffer) }
{
    let nodes = program.of.nodes;
    if verdicts < nodes {
        return Err(Refused {
            cause: Cause::Verdicts,
            place: nodes,
        });
    }
    judge_room(program.entries(), buffer)
}

// Judges a call with a verdict buffer of so many bytes and a sizes buffer of so many numbers.
pub(crate) fn admit(t: &[u8], verdicts: usize, buffer: usize) -> Result<Known<'_>, Refused>
    ensures answer { result_of result ≡ best_result (best_call t.now verdicts buffer) }
    ensures known { IfOk result (KnownFor t.now) }
{
    let known = look(t)?;
    judge(&known.program, verdicts, buffer)?;
    Ok(known)
}

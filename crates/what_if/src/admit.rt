// What a call with a list of choices is refused for.
ghost use Rattle.std.specs.Prelude.{◌≡◌, ◌<◌, IfOk, length};
ghost use Rattle.table.specs.Below.{earliest};
ghost use Rattle.table.specs.Result.{result_of};
ghost use Rattle.sizes.specs.Known.{KnownFor};
ghost use Rattle.what_if.specs.Call.{list_call, outside_list, what_if_result};

use program::Program;
use sizes::Known;
use sizes::admit::{is_outside, look};
use table::refusal::{Cause, Refused, judge_room};

// Whether byte p of the choices, which stand one after another with a byte for each node, is outside the list of its node.
#[tactic(auto, unfolding(crate::specs::Call::outside_list))]
fn is_outside_at(program: &Program<'_>, choices: &[u8], p: usize) -> bool
    requires { p < length choices.now }
    ensures { result ≡ outside_list program.now.table.now choices.now p }
{
    is_outside(program, p % program.of.nodes, choices[p])
}

// The first byte that is.
fn first_outside(program: &Program<'_>, choices: &[u8]) -> Option<usize>
    ensures { result ≡ earliest (outside_list program.now.table.now choices.now) (length choices.now) }
{
    (0..choices.len()).find(|p| is_outside_at(program, choices, *p))
}

// Judges the number of choices, the list, and the length of the sizes buffer.
fn judge(program: &Program<'_>, number: usize, choices: &[u8], buffer: usize) -> Result<(), Refused>
    ensures { result_of result ≡ what_if_result (list_call program.now.table.now number choices.now buffer) }
{
    let wrong = (number == 0) | (16 < number);
    if wrong {
        return Err(Refused {
            cause: Cause::Number,
            place: number,
        });
    }
    let wanted = program.of.nodes * number;
    if choices.len() != wanted {
        return Err(Refused {
            cause: Cause::Choice,
            place: wanted,
        });
    }
    if let Some(place) = first_outside(program, choices) {
        return Err(Refused {
            cause: Cause::Choice,
            place,
        });
    }
    let needed = program.entries() * number;
    judge_room(needed, buffer)
}

// Judges a call with a list of choices and a sizes buffer of so many numbers.
pub(crate) fn admit<'a>(
    t: &'a [u8],
    number: usize,
    choices: &[u8],
    buffer: usize,
) -> Result<Known<'a>, Refused>
    ensures answer { result_of result ≡ what_if_result (list_call t.now number choices.now buffer) }
    ensures known { IfOk result (KnownFor t.now) }
{
    let known = look(t)?;
    judge(&known.program, number, choices, buffer)?;
    Ok(known)
}

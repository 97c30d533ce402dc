// What a call that is handed a choice and a sizes buffer is refused for.
ghost use Rattle.std.specs.Prelude.{◌≡◌, ◌<◌, IfOk};
ghost use Rattle.table.specs.Below.{earliest};
ghost use Rattle.table.specs.Result.{result_of, table_result};
ghost use Rattle.sizes.specs.Call.{call, choice_of, outside, call_result};
ghost use Rattle.sizes.specs.Known.{KnownFor};

use program::Program;
use rules::targets::chosen;
use sync::{Known, synchronising};
use table::refusal::{Cause, Refused, judge_room};

// Whether a byte is outside the list of node n: 1 to 3 of a spawn, and 0 of any other node. A choice is handed in as bytes, of any value.
pub fn is_outside(program: &Program<'_>, n: usize, byte: u8) -> bool
    requires { n < program.now.of.nodes }
    ensures { result ≡ outside program.now.table.now n byte }
{
    let spawn = program.is_spawn(n);
    !((spawn & (1 <= byte) & (byte <= 3)) | (!spawn & (byte == 0)))
}

// The first node whose byte is.
fn first_outside(program: &Program<'_>, choice: &[u8]) -> Option<usize>
    ensures { result ≡ earliest (λ n. outside program.now.table.now n (choice_of choice.now n)) program.now.of.nodes }
{
    (0..program.of.nodes).find(|n| is_outside(program, *n, chosen(choice, *n)))
}

// Judges the choice and the length of the sizes buffer.
fn judge(program: &Program<'_>, choice: &[u8], buffer: usize) -> Result<(), Refused>
    ensures { result_of result ≡ call_result (call program.now.table.now choice.now buffer) }
{
    let nodes = program.of.nodes;
    if choice.len() != nodes {
        return Err(Refused {
            cause: Cause::Choice,
            place: nodes,
        });
    }
    if let Some(place) = first_outside(program, choice) {
        return Err(Refused {
            cause: Cause::Choice,
            place,
        });
    }
    judge_room(program.entries(), buffer)
}

// Looks at a table: what it is refused for, or what is known of it.
#[tactic(auto, using(crate::proofs::Calls::looked_result))]
pub fn look(t: &[u8]) -> Result<Known<'_>, Refused>
    ensures answer { result_of result ≡ table_result t.now }
    ensures known { IfOk result (KnownFor t.now) }
{
    synchronising(t)
}

// Judges a call with a sizes buffer of so many numbers.
pub fn admit<'a>(t: &'a [u8], choice: &[u8], buffer: usize) -> Result<Known<'a>, Refused>
    ensures answer { result_of result ≡ call_result (call t.now choice.now buffer) }
    ensures known { IfOk result (KnownFor t.now) }
{
    let known = look(t)?;
    judge(&known.program, choice, buffer)?;
    Ok(known)
}

// The sizes of a choice. Document 01, "Sizes and their rules". A table, a choice and a buffer stand beside one another in this call and in those of the
// crates above, as the C interface hands them in.
#![tactic(auto)]

pub mod admit;
pub mod find;
pub mod trials;

ghost use Rattle.std.specs.Prelude.{◌≡◌, length};
ghost use Rattle.table.specs.Result.{result_of};
ghost use Rattle.sizes.specs.Call.{call, call_result, Leaves};

use admit::admit;
use find::{find, write};
// what is known of a table, for the crates above
pub use sync::Known;
use table::refusal::Refused;

// Writes the sizes of a choice: for each function and then each node Total, Post, Pre, Through, unbounded as 65,536.
pub fn sizes(t: &[u8], choice: &[u8], out: &mut [u32]) -> Result<(), Refused>
    ensures answer { result_of result ≡ call_result (call t.now choice.now (length out.old)) }
    ensures leaves { Leaves t.now choice.now out.old result out.new }
{
    counted(t, choice, out)?;
    Ok(())
}

// The same, and how many turns over the rules it took; of that number nothing is promised.
pub fn counted(t: &[u8], choice: &[u8], out: &mut [u32]) -> Result<u32, Refused>
    ensures answer { result_of result ≡ call_result (call t.now choice.now (length out.old)) }
    ensures leaves { Leaves t.now choice.now out.old result out.new }
{
    let known = admit(t, choice, out.len())?;
    let found = find(&known, choice);
    write(&known.program, &found, out);
    Ok(found.turns())
}

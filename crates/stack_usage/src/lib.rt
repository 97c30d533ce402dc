// Frames from the compiler's report. Document 02, "Frames from the compiler's report".
#![tactic(auto)]

mod counts;
mod mention;
mod names;
mod report;

ghost use Rattle.std.specs.Prelude.{◌≡◌};
ghost use Rattle.table.specs.Result.{result_of};
ghost use Rattle.stack_usage.specs.Call.{frames_call, frames_result, Leaves};

use counts::judge;
use frame_writer::write_frames;
use table::refusal::Refused;

// Writes what the compiler's report counts for each function of a table into the table's own frames. The list of names says which function has which name.
pub fn frames(t: &mut [u8], names: &[u8], report: &[u8]) -> Result<(), Refused>
    ensures answer { result_of result ≡ frames_result (frames_call t.old names.now report.now) }
    ensures leaves { Leaves (frames_call t.old names.now report.now) result t.new }
{
    let counted = judge(t, names, report)?;
    write_frames(t, &counted.counts[..counted.functions]);
    Ok(())
}

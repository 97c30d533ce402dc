// The listing of a table as text. Document 01, "The listing program".
#![tactic(auto)]

mod chosen;
mod lines;
mod rows;
mod text;

ghost use Rattle.std.specs.Prelude.{[], ◌≡◌, ◌≤◌, length, IfErr, OnErr, OnOk};
ghost use Rattle.table.specs.Answer.{number_of, outcome, refused};
ghost use Rattle.text.specs.Listing.{ListingOf};

use choice::best;
use chosen::Chosen;
use program::Program;
use table::refusal::Refused;
pub use text::Text;

// How many bytes the longest table has.
pub const LONGEST: usize = 12800;

// Writes the listing of an accepted table. Of another nothing is written, and the refusal is given.
fn put_best(text: &mut Text, t: &[u8]) -> Result<(), Refused>
    requires empty { text.old.0.bytes ≡ [] }
    requires short { length t.now ≤ LONGEST }
    ensures ok { OnOk result (ListingOf t.now text.new.0.bytes) }
    ensures err { IfErr result (λ r. outcome t.now ≡ refused (number_of r.cause) r.place) }
    ensures same { OnErr result (text.new.0.bytes ≡ []) }
{
    let program = Program::read(t)?;
    let mut verdicts = [0u8; 512];
    let mut sizes = [0u32; 2304];
    best(program.table, &mut verdicts, &mut sizes)?;
    let chosen = Chosen {
        program,
        verdicts: &verdicts,
        sizes: &sizes,
    };
    text.push_listing(&chosen);
    Ok(())
}

// What the program prints for a table of any length.
pub fn listing(t: &[u8]) -> Text
    ensures listing_of { ListingOf t.now result.0.bytes }
{
    let mut text = Text::new();
    let is_long = LONGEST < t.len();
    if is_long {
        text.push("too long\n");
    } else if let Err(refused) = put_best(&mut text, t) {
        text.push_refusal(refused);
    }
    text
}

// The set that the work starts from.
ghost use Rattle.std.specs.Prelude.{◌≡◌, ℕ, eqb};
ghost use Rattle.table.specs.Record.{sync};
ghost use Rattle.table.specs.Program.{program_of};
ghost use Rattle.sync.specs.Words.{member};

use crate::words::insert;
use program::Program;

// The syncs.
pub(crate) fn syncs(program: &Program<'_>) -> [u64; 8]
    ensures { (n : ℕ) → member result n ≡ eqb ((program_of program.now.table.now).sort n) sync }
{
    let mut set = [0; 8];
    for n in 0..program.of.nodes {
        if program.is_sync(n) {
            insert(&mut set, n);
        }
    }
    set
}

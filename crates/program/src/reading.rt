// Reading a program: a table is checked once, and every reader after that rests on it.
ghost use Rattle.std.specs.Prelude.{◌≡◌, IfOk};
ghost use Rattle.table.specs.Answer.{outcome, outcome_of};
ghost use Rattle.program.specs.Read.{counts_read};

use crate::Program;
use table::check;
use table::refusal::Refused;

impl<'a> Program<'a> {
    // The program of a table of any length, or what the table is refused for.
    pub fn read(table: &'a [u8]) -> Result<Program<'a>, Refused>
        ensures outcome { outcome_of (counts_read result) ≡ outcome table.now }
        ensures of_table { IfOk result (λ p. p.table.now ≡ table.now) }
    {
        let of = check(table)?;
        Ok(Program { table, of })
    }
}

// Trials of choices. They start from the sizes that there are.
ghost use Rattle.std.specs.Prelude.{◌≡◌, ℕ, true, false, cond, List, replicate};
ghost use Rattle.table.specs.Program.{program_of};
ghost use Rattle.sizes.specs.Call.{choice_of};
ghost use Rattle.sizes.specs.Trials.{PreparedFor, StartsFor, Holds};
ghost use Rattle.safety.specs.Safety.{Safe};
ghost use Rattle.safety.specs.Trial.{Tried};
ghost use Rattle.search.specs.Verdict.{level};
ghost use Rattle.search.specs.Walk.{Raised};
ghost use Rattle.search.specs.Problem.{program_in};

use crate::Found;
use crate::problem::Problem;
use crate::verdict::Verdict;
use program::Program;
use safety::trial;
use sizes::find::write;
use sizes::trials::{Prepared, find_from};

// The verdicts, with this one for each node that waits for it.
#[tactic(auto, using(size::proofs::Writing::written_none, size::proofs::Writing::written_next, size::proofs::Writing::written_last))]
fn raised(program: &Program<'_>, verdicts: &[u8; 512], verdict: Verdict) -> [u8; 512]
    ensures { Raised (program_of program.now.table.now) (level verdict) verdicts.now result }
{
    let mut larger = *verdicts;
    for n in 0..program.of.nodes {
        larger[n] = verdict.raise(verdicts[n]);
    }
    larger
}

impl Found {
    // A trial: takes the choice, with its sizes, if it is safe, and says so. By value, since verdicts that might lie over one another would be copied by `memmove`,
    // which C callers would have to bring.
    pub(crate) fn attempt(&mut self, prepared: &Prepared<'_>, choice: [u8; 512]) -> bool
        requires { PreparedFor prepared.now × StartsFor prepared.now (choice_of choice) self.old.sizes }
        ensures tried { Tried prepared.now (choice_of choice) self.old.sizes self.new.sizes result }
        ensures taken { self.new.verdicts ≡ cond result choice self.old.verdicts }
    {
        let judged = trial(prepared, &choice, &mut self.sizes);
        self.work.add(1, judged.turns);
        if judged.safe {
            self.verdicts = choice;
        }
        judged.safe
    }

    // Finds the sizes of the choice there is, from zeros.
    pub(crate) fn find_sizes(&mut self, prepared: &Prepared<'_>)
        requires prepared_for { PreparedFor prepared.now }
        requires zeros { self.old.sizes ≡ replicate 2304 0 }
        ensures same { self.new.verdicts ≡ self.old.verdicts }
        ensures holds { Holds prepared.now (choice_of self.new.verdicts) self.new.sizes }
    {
        let solution = find_from(prepared, &self.verdicts, &self.sizes);
        self.work.add(0, solution.turns());
        write(&prepared.known.program, &solution, &mut self.sizes);
    }

    // Whether a trial of all spawns at once that wait for this verdict is due: at least two do. Where all spawns but one wait, a further
    // trial could be one too many: there are at most two for each spawn.
    fn is_due(&self, problem: &Problem<'_>, verdict: Verdict) -> bool {
        let verdicts = &self.verdicts[..problem.prepared.known.program.of.nodes];
        let wait = verdicts
            .iter()
            .filter(|byte| verdict.is_next(**byte))
            .count();
        2 <= wait && wait + 1 != problem.order.len()
    }

    // A trial of all at once, where it is due: gives each spawn that waits for this verdict the verdict, if the choice stays safe, and says
    // so.
    pub(crate) fn all_at_once(&mut self, problem: &Problem<'_>, verdict: Verdict) -> bool
        requires prepared_for { PreparedFor problem.now.prepared.now }
        requires starts_for { (larger : List ℕ) → Raised (program_in problem.now) (level verdict) self.old.verdicts larger → StartsFor problem.now.prepared.now (choice_of larger) self.old.sizes }
        ensures all { result ≡ true → Raised (program_in problem.now) (level verdict) self.old.verdicts self.new.verdicts × Safe (program_in problem.now) (choice_of self.new.verdicts) × Holds problem.now.prepared.now (choice_of self.new.verdicts) self.new.sizes }
        ensures none { result ≡ false → (self.new.verdicts ≡ self.old.verdicts) × (self.new.sizes ≡ self.old.sizes) }
    {
        if !self.is_due(problem, verdict) {
            return false;
        }
        let program = &problem.prepared.known.program;
        let larger = raised(program, &self.verdicts, verdict);
        self.attempt(problem.prepared, larger)
    }
}

// The two walks over the spawns, in the preference order. A walk has one verdict, which stands beside the problem and not in it: both walks are of one
// problem.
ghost use Rattle.std.specs.Prelude.{◌≤◌, length};
ghost use Rattle.size.specs.Numbers.{at, Written};
ghost use Rattle.sizes.specs.Call.{choice_of};
ghost use Rattle.sizes.specs.Trials.{Holds};
ghost use Rattle.safety.specs.Safety.{Safe};
ghost use Rattle.search.specs.Verdict.{level};
ghost use Rattle.search.specs.Problem.{program_in, WellPosed};
ghost use Rattle.search.specs.Walk.{Starts, OthersZero, Walked, Merged};

use crate::Found;
use crate::problem::Problem;
use crate::verdict::Verdict;

impl Found {
    // Gives each spawn in order that has the verdict below this one the verdict, where the choice stays safe.
    fn one_by_one(&mut self, problem: &Problem<'_>, verdict: Verdict)
        requires posed { WellPosed problem.now }
        requires safe { Safe (program_in problem.now) (choice_of self.old.verdicts) }
        requires holds { Holds problem.now.prepared.now (choice_of self.old.verdicts) self.old.sizes }
        ensures walked { Walked (program_in problem.now) (level verdict) (length problem.now.order.now) (at problem.now.order.now) (choice_of self.old.verdicts) (choice_of self.new.verdicts) }
        ensures written { Written (program_in problem.now).nodes (choice_of self.new.verdicts) self.old.verdicts self.new.verdicts }
        ensures still_holds { Holds problem.now.prepared.now (choice_of self.new.verdicts) self.new.sizes }
    {
        for &n in problem.order {
            if verdict.is_next(self.verdicts[n]) {
                let mut larger = self.verdicts;
                larger[n] = u8::from(verdict);
                self.attempt(problem.prepared, larger);
            }
        }
    }

    // A walk over the spawns: all at once, if that is safe, and else one by one.
    pub(crate) fn walk(&mut self, problem: &Problem<'_>, verdict: Verdict)
        requires posed { WellPosed problem.now }
        requires above { 2 ≤ level verdict }
        requires safe { Safe (program_in problem.now) (choice_of self.old.verdicts) × OthersZero (program_in problem.now) (choice_of self.old.verdicts) }
        requires holds { Holds problem.now.prepared.now (choice_of self.old.verdicts) self.old.sizes }
        ensures walked { Walked (program_in problem.now) (level verdict) (length problem.now.order.now) (at problem.now.order.now) (choice_of self.old.verdicts) (choice_of self.new.verdicts) }
        ensures written { Written (program_in problem.now).nodes (choice_of self.new.verdicts) self.old.verdicts self.new.verdicts }
        ensures still_holds { Holds problem.now.prepared.now (choice_of self.new.verdicts) self.new.sizes }
    {
        if self.all_at_once(problem, verdict) {
            return;
        }
        self.one_by_one(problem, verdict);
    }

    // The first walk, from unmerged everywhere. The sizes of that choice are found only where not all spawns can be merged at once.
    pub(crate) fn merge(&mut self, problem: &Problem<'_>)
        requires posed { WellPosed problem.now }
        requires starts { Starts (program_in problem.now) self.old }
        ensures merged { Merged (program_in problem.now) (length problem.now.order.now) (at problem.now.order.now) (choice_of self.new.verdicts) }
        ensures written { Written (program_in problem.now).nodes (choice_of self.new.verdicts) self.old.verdicts self.new.verdicts }
        ensures holds { Holds problem.now.prepared.now (choice_of self.new.verdicts) self.new.sizes }
    {
        if self.all_at_once(problem, Verdict::Guarded) {
            return;
        }
        self.find_sizes(problem.prepared);
        self.one_by_one(problem, Verdict::Guarded);
    }
}

// One pass over the functions, each looked at once. Document 02, Ask 3.
ghost use Rattle.std.specs.Prelude.{◌<◌};
ghost use Rattle.table.specs.Program.{program_of};
ghost use Rattle.call_order.specs.Calls.{NoneReachesItself};
ghost use Rattle.call_order.specs.CallOrder.{places, CallOrder};
ghost use Rattle.sync.specs.Words.{member};
ghost use Rattle.sync.specs.Synchronising.{Synchronising};
ghost use Rattle.sync.specs.Pass.{SyncsAlone};
ghost use Rattle.sync.specs.Passing.{LookedAt, PassedBy};

use crate::ways::Ways;
use crate::words::{has, union};

// What a pass has made of a set so far, and what its looks have reached past the set as it stood.
#[derive(Clone, Copy)]
pub(crate) struct Pass {
    pub set: [u64; 8],
    pub reached: [u64; 8],
}

impl Ways<'_> {
    // Looks whether a path gets through function f past the set as it stands. If none does, all calls of f are added at once.
    fn look(&self, f: usize, pass: Pass) -> Pass
        requires { f < self.now.program.of.functions }
        ensures { LookedAt (program_of self.now.program.table.now) f pass result }
    {
        let (first, exit) = (self.program.first(f), self.program.exit(f));
        let reached = self.reach(pass.set, first);
        let set = if has(reached, exit) {
            pass.set
        } else {
            self.with_calls(f, pass.set)
        };
        Pass {
            set,
            reached: union(pass.reached, reached),
        }
    }

    // One pass over the functions in the call order, from a set on. Where no function reaches itself by calls, one from the syncs alone finds the whole set.
    pub(crate) fn pass(&self, order: &[u8; 64], from: [u64; 8]) -> Pass
        requires { CallOrder (program_of self.now.program.table.now) (places order.now) }
        ensures passed { PassedBy (program_of self.now.program.table.now) (places order.now) from (program_of self.now.program.table.now).functions result }
        ensures whole { NoneReachesItself (program_of self.now.program.table.now) → SyncsAlone (program_of self.now.program.table.now) (member from) → Synchronising (program_of self.now.program.table.now) (member result.set) }
    {
        let mut pass = Pass {
            set: from,
            reached: [0; 8],
        };
        for i in 0..self.program.of.functions {
            pass = self.look(usize::from(order[i]), pass);
        }
        pass
    }
}

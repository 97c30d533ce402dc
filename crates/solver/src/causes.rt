// Causes: for each entry, the entry of its rule that made it rise last. An entry that would rise because of itself is
// unbounded, at once. Entries are numbers: sizes, and then sums.
ghost use Rattle.std.specs.Prelude.{◌≡◌, ◌⊎◌, ℕ, ◌+◌, ◌<◌, min, IsTrue};
ghost use Rattle.size.specs.Size.{value_of};
ghost use Rattle.solver.specs.Causes.{uncaused, Chain, Risen};
ghost use Rattle.solver.specs.Rounds.{cause_at};

use size::Size;

// How an entry rose last: because of which one, and when. One that leapt to unbounded has no cause, but keeps its stamp: `later` still asks
// for it, and where it was forgotten, some rules took another number of turns. No promise rests on stamps.
#[derive(Clone, Copy)]
pub(crate) struct Rise {
    pub cause: Option<u16>,
    pub stamp: u16,
}

impl Rise {
    const NEVER: Rise = Rise {
        cause: None,
        stamp: 0,
    };
}

// How each entry rose last. The clock counts the rises, from 1 on, so that 0 is the stamp of one that never rose: an option of it would be a third
// larger, and all of this is cleared for each choice. Its last time stands for all later ones, so that 16 bits do. Causes go by number: they
// lead from any entry to any other, and there is no heap.
#[derive(Drop)]
pub(crate) struct Causes {
    pub rises: [Rise; 3840],
    clock: u16,
    turn: u16, // when this turn began
}

impl Causes {
    pub(crate) fn none() -> Causes
        ensures { (x : ℕ) → x < 3840 → cause_at result x ≡ uncaused }
    {
        Causes {
            rises: [Rise::NEVER; 3840],
            clock: 0,
            turn: 0,
        }
    }

    pub(crate) fn begin_turn(&mut self)
        ensures { self.new.rises ≡ self.old.rises }
    {
        self.turn = self.clock;
    }

    // Whether the causes lead from one entry to another. A walk that comes back to its mark runs in a ring that misses the goal; marks stand
    // 1, 2, 4, .. steps on. What is promised is what makes a leap right; that no chain is missed makes it quick, and is seen from the turns
    // that are counted.
    #[tactic(auto, using(crate::proofs::Rises::chain_met, crate::proofs::Rises::chain_via))]
    fn lead(&self, from: usize, to: usize) -> bool
        ensures { IsTrue result → Chain (cause_at self.now) to from }
    {
        let mut entry = from;
        let mut mark = from;
        for walked in 1..3841usize {
            let Some(rise) = self.rises.get(entry) else {
                return false;
            };
            if entry == to {
                return true;
            }
            let Some(cause) = rise.cause else {
                return false;
            };
            entry = usize::from(cause);
            if entry == mark {
                return false;
            }
            if walked.is_power_of_two() {
                mark = entry;
            }
        }
        false
    }

    // Whether y or z rose because of x.
    fn caused(&self, x: usize, y: usize, z: usize) -> bool
        ensures { IsTrue result → Chain (cause_at self.now) x y ⊎ Chain (cause_at self.now) x z }
    {
        self.lead(y, x) || (y != z && self.lead(z, x))
    }

    // Whether entry x rose before, and not yet in this turn: then its causes are walked. What feeds itself rises in every turn,
    // so one walk in each finds it, and a line of nodes is not walked for nothing.
    fn is_due(&self, x: usize) -> bool
        requires { x < 3840 }
    {
        let rose = self.rises[x].stamp;
        0 < rose && rose <= self.turn
    }

    // The one of y and z that rose last.
    fn later(&self, y: usize, z: usize) -> usize
        requires { (y < 3840) × (z < 3840) }
        ensures { (result ≡ y) ⊎ (result ≡ z) }
    {
        if self.rises[y].stamp < self.rises[z].stamp {
            z
        } else {
            y
        }
    }

    // What entry x has where a rule asks for `sum`, which is more than it had, from the entries y and z. Most rules that are looked at raise
    // nothing: out of their loop, as `cold` has it, this took the largest table 9 percent less time (a mean over places of the code).
    #[cold]
    pub(crate) fn rise(&mut self, x: usize, y: usize, z: usize, sum: Size) -> Size
        requires { (x < 3840) × (y < 3840) × (z < 3840) }
        ensures risen { Risen (cause_at self.old) x y z (value_of sum) (cause_at self.new) (value_of result) }
        ensures clock { self.new.clock ≡ min (self.old.clock + 1) 65535 }
    {
        self.clock = self.clock.saturating_add(1);
        if self.is_due(x) && self.caused(x, y, z) {
            self.rises[x].cause = None;
            return Size::Unbounded;
        }
        let cause = self.later(y, z);
        self.rises[x] = Rise {
            cause: Some(cause as u16), // one of 3,840 entries: `try_from` would test what is known, at every rise
            stamp: self.clock,
        };
        sum
    }
}

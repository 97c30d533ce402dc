// Turns over the rules: entries rise until a turn over all of them raises nothing.
ghost use Rattle.std.specs.Prelude.{◌≡◌, ℕ, ◌<◌, ◌≤◌, unwrap_or, length};
ghost use Rattle.solver.specs.Words.{Named};
ghost use Rattle.solver.specs.Values.{number_at, Settles};
ghost use Rattle.solver.specs.Rounds.{AmongSizes, cause_at, Applied, HeldFrom, Turned};

use crate::causes::Causes;
use crate::rule::Rule;
use crate::solution::Solution;

impl Solution {
    // Looks at a rule: its head rises, if the rule asks for more than it has.
    fn apply(&mut self, causes: &mut Causes, rule: Rule) -> bool
        requires { (rule.head < 3840) × (rule.part < 3840) × AmongSizes rule.other }
        ensures { Applied rule (number_at self.old) (cause_at causes.old) (number_at self.new) (cause_at causes.new) result }
    {
        let sum = self.sum(rule);
        let old = self.get(rule.head);
        if u32::from(sum) <= u32::from(old) {
            return false;
        }
        let second = rule.other.unwrap_or(rule.part);
        let new = causes.rise(rule.head, rule.part, second, sum);
        self.put(rule.head, new);
        true
    }

    // Goes over the rules, of which those from `stop` on hold: as far as that, or to the last one if something rises. Gives the place behind
    // the rule that rose last, so never 0, or none if nothing rose; those from there on hold, and all if there is none.
    pub(crate) fn turn(&mut self, causes: &mut Causes, rules: &[u64], stop: usize) -> Option<usize>
        requires named { Named rules.now (length rules.now) }
        requires stop_held { (stop ≤ length rules.now) × HeldFrom rules.now (number_at self.old) stop }
        ensures turned { Turned rules.now (number_at self.old) (cause_at causes.old) (number_at self.new) (cause_at causes.new) (unwrap_or result 0) }
        ensures behind { 0 < unwrap_or result 1 }
    {
        let mut end = stop;
        let mut last = 0; // 0 until a rule rises: an `Option` here costs the loop a register, and calls up to 4% of their time
        for (i, word) in rules.iter().enumerate() {
            if i == end {
                break;
            }
            let rule = Rule::from(*word);
            if self.apply(causes, rule) {
                end = rules.len();
                last = i + 1;
            }
        }
        causes.begin_turn();
        (last > 0).then_some(last)
    }

    // Goes over the rules until a turn raises nothing: then the values are the least that meet them all and are at or above what they were.
    pub fn solve(&mut self, rules: &[u64])
        requires { Named rules.now (length rules.now) }
        ensures { Settles rules.now (number_at self.old) self.new }
    {
        let mut causes = Causes::none();
        let mut stop = rules.len();
        let mut turns: u32 = 0;
        // Document 01, in its last list, wants a loop that yields the number of turns by `break`.
        self.turns = loop {
            turns += 1;
            let Some(last) = self.turn(&mut causes, rules, stop) else {
                break turns;
            };
            stop = last;
        };
    }
}

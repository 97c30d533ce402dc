// A solution, as far as it has come.
ghost use Rattle.std.specs.Prelude.{◌≡◌, ℕ, ◌<◌, ◌≤◌, length};
ghost use Rattle.size.specs.Size.{cap, value_of};
ghost use Rattle.size.specs.Numbers.{at};
ghost use Rattle.solver.specs.System.{gives};
ghost use Rattle.solver.specs.Causes.{Put};
ghost use Rattle.solver.specs.Values.{number_at};
ghost use Rattle.solver.specs.Rounds.{rule_form, AmongSizes};

use crate::rule::Rule;
use size::Size;

// The values of entries by number, 2,304 sizes and then three sums for each of 512 nodes, in the four arrays that document 01 names, and the turns
// over the rules that it took. That a number is an entry's is asked of each function and is in no type: of a word's bits it is known from the
// list, and a type for it would have to test them at each look at a rule.
#[derive(Drop)]
pub struct Solution {
    sizes: [Size; 2304],
    after: [Size; 512],
    before: [Size; 512],
    through: [Size; 512],
    pub(crate) turns: u32,
}

impl Solution {
    pub fn sizes(&self) -> &[Size; 2304]
        ensures len { length result.now ≡ 2304 }
        ensures value { result.now ≡ self.now.sizes }
    {
        &self.sizes
    }

    // The sums of paths that end at each node,
    pub fn after(&self) -> &[Size; 512]
        ensures len { length result.now ≡ 512 }
        ensures value { result.now ≡ self.now.after }
    {
        &self.after
    }

    // and of those that start there.
    pub fn before(&self) -> &[Size; 512]
        ensures len { length result.now ≡ 512 }
        ensures value { result.now ≡ self.now.before }
    {
        &self.before
    }

    pub fn turns(&self) -> u32
        ensures { result ≡ self.now.turns }
    {
        self.turns
    }

    // "every entry starts from zero", or from the numbers handed in, as sizes.
    pub fn starting(numbers: &[u32]) -> Solution
        requires { length numbers.now ≤ 2304 }
        ensures { (x : ℕ) → number_at result x ≡ cap (at numbers.now x) }
    {
        let mut solution = Solution {
            sizes: [Size::ZERO; 2304],
            after: [Size::ZERO; 512],
            before: [Size::ZERO; 512],
            through: [Size::ZERO; 512],
            turns: 0,
        };
        for (x, number) in numbers.iter().enumerate() {
            solution.sizes[x] = Size::from_number(*number);
        }
        solution
    }

    #[tactic(auto, using(crate::proofs::Values::size_got, crate::proofs::Values::after_got, crate::proofs::Values::before_got, crate::proofs::Values::through_got))]
    pub(crate) fn get(&self, x: usize) -> Size
        requires { x < 3840 }
        ensures { value_of result ≡ number_at self.now x }
    {
        match x {
            0..2304 => self.sizes[x],
            2304..2816 => self.after[x - 2304],
            2816..3328 => self.before[x - 2816],
            _ => self.through[x - 3328],
        }
    }

    pub(crate) fn put(&mut self, x: usize, size: Size)
        requires { x < 3840 }
        ensures { Put (number_at self.old) x (value_of size) (number_at self.new) }
    {
        match x {
            0..2304 => self.sizes[x] = size,
            2304..2816 => self.after[x - 2304] = size,
            2816..3328 => self.before[x - 2816] = size,
            _ => self.through[x - 3328] = size,
        }
    }

    // What a rule asks for, from the entries of its body.
    #[tactic(auto, using(size::proofs::Values::value_is, crate::proofs::Values::size_got))]
    pub(crate) fn sum(&self, rule: Rule) -> Size
        requires { (rule.part < 3840) × AmongSizes rule.other }
        ensures { value_of result ≡ gives (number_at self.now) (rule_form rule) }
    {
        let sum = Size::from_number(rule.base).add(self.get(rule.part));
        match rule.other {
            Some(other) => sum.add(self.sizes[other]),
            None => sum,
        }
    }
}

// Sets of the numbers below 64, kept in one word: k is bit k, lowest first.
#![tactic(auto)]

ghost use Rattle.std.specs.Prelude.{◌≡◌, ◌||◌, ◌↔◌, ℕ, ◌<◌, ◌≤◌, eqb, true, false, MatchOption};
ghost use Rattle.word.specs.Bit.{bit};
ghost use Rattle.word.specs.First.{NoneIn, FirstIn};

// Whether k is in the set.
pub fn has(x: u64, k: usize) -> bool
    ensures { result ≡ bit x k }
{
    if 64 <= k {
        return false;
    }
    (x >> k) & 1 == 1
}

// The set with k. That there is such a bit is asked: no word has another.
pub fn with(x: u64, k: usize) -> u64
    requires { k < 64 }
    ensures { (j : ℕ) → bit result j ≡ (eqb j k || bit x j) }
{
    x | (1u64 << k)
}

// What is in one set or the other.
pub fn union(x: u64, y: u64) -> u64
    ensures { (j : ℕ) → bit result j ≡ (bit x j || bit y j) }
{
    x | y
}

// Whether all of one set is in the other.
pub fn is_within(x: u64, y: u64) -> bool
    ensures { (result ≡ true) ↔ ((j : ℕ) → bit x j ≡ true → bit y j ≡ true) }
{
    x & y == x
}

// The first member from k on.
pub fn first_from(x: u64, k: usize) -> Option<usize>
    ensures { MatchOption result (NoneIn x k) (FirstIn x k) }
{
    if 64 <= k {
        return None;
    }
    let rest = x >> k;
    if rest == 0 {
        return None;
    }
    Some(k + rest.trailing_zeros() as usize)
}

// A set of nodes in eight words: node n is bit n mod 64, lowest first, of word n div 64. That a node has a place in them is asked, as it is known of the
// nodes of a program, which are numbers.
ghost use Rattle.std.specs.Prelude.{◌≡◌, ◌||◌, ◌↔◌, ℕ, ◌<◌, eqb, true, length};
ghost use Rattle.sync.specs.Words.{member};

// Whether n is in the set.
#[tactic(auto, using(word::proofs::Words::member_past), unfolding(word::specs::Words::member))]
pub fn has(set: [u64; 8], n: usize) -> bool
    ensures { result ≡ member set n }
{
    if 512 <= n {
        return false;
    }
    word::has(set[n / 64], n % 64)
}

// Puts n into the set.
pub(crate) fn insert(set: &mut [u64; 8], n: usize)
    requires { n < 512 }
    ensures { (m : ℕ) → member set.new m ≡ (eqb m n || member set.old m) }
{
    set[n / 64] = word::with(set[n / 64], n % 64);
}

// What is in one set or the other.
pub(crate) fn union(x: [u64; 8], y: [u64; 8]) -> [u64; 8]
    ensures { (n : ℕ) → member result n ≡ (member x n || member y n) }
{
    let mut set = x;
    for i in 0..8 {
        set[i] = word::union(set[i], y[i]);
    }
    set
}

// Whether both are one set. Says too that each has eight words.
pub(crate) fn is_same(x: [u64; 8], y: [u64; 8]) -> bool
    ensures long { (length x ≡ 8) × (length y ≡ 8) }
    ensures same { (result ≡ true) ↔ ((n : ℕ) → member x n ≡ member y n) }
{
    x == y
}

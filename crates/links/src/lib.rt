// Items that are put together by a key: those of a key form a chain, from the last one to the first, and so are found in as many steps as there
// are. They are linked by number, since there is no heap.
#![tactic(auto)]

ghost use Rattle.std.specs.Prelude.{◌≡◌, ℕ, Bool, ◌<◌, ◌≤◌, Some, None, get_or, set};
ghost use Rattle.links.specs.Links.{Keyed, Linked};

// For so many keys and items: the last item of each key, and of each item the last one before it with the same key.
#[derive(Drop)]
pub struct Links<const K: usize, const N: usize> {
    pub first: [Option<u16>; K],
    pub next: [Option<u16>; N],
}

impl<const K: usize, const N: usize> Links<K, N> {
    // Where the chain of key k starts.
    pub fn first(&self, k: usize) -> Option<usize>
        ensures { result ≡ get_or self.now.first k None }
    {
        Some(usize::from(self.first.get(k).copied()??))
    }

    // Where it goes on after item i.
    pub fn next(&self, i: usize) -> Option<usize>
        ensures { result ≡ get_or self.now.next i None }
    {
        Some(usize::from(self.next.get(i).copied()??))
    }
}

// Links the items below a count by the keys that are given for them.
pub fn linked<const K: usize, const N: usize, F: Fn(usize) -> Option<usize>>(
    items: usize,
    key: F,
) -> Links<K, N>
    requires can { (i : ℕ) → i < items → F.pre key i }
    requires few { (i k : ℕ) → i < items → F.post key i (Some k) → k < K }
    requires room { (items ≤ N) × (N ≤ 65536) }
    ensures { (has : ℕ → ℕ → Bool) → Keyed (F.post key) has items → Linked has items result.first result.next }
{
    let mut first = [None; K];
    let mut next = [None; N];
    for i in 0..items {
        if let Some(k) = key(i) {
            next[i] = first[k];
            // By a cast: there are at most 65,536, and a conversion would ask what to do above that.
            first[k] = Some(i as u16);
        }
    }
    Links { first, next }
}

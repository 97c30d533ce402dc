// Orders of the numbers below the length of a lent buffer, written and read as its entries. Reads and writes past an end are harmless.
ghost use Rattle.std.specs.Prelude.{◌≡◌, true, ◌≤◌, ◌%◌, length, get_or, set};
ghost use Rattle.order.specs.Order.{Ordered, Placed};

// Entry i, and 0 past the end.
pub fn get(a: &[u16], i: usize) -> usize
    ensures { result ≡ get_or a.now i 0 }
{
    a.get(i).map_or(0, |x| usize::from(*x))
}

// Makes x entry i, as far as it fits, and does nothing past the end.
pub fn put(a: &mut [u16], i: usize, x: usize)
    ensures { a.new ≡ set a.old i (x % 65536) }
{
    // Not by `get_mut`, after which a proof knows no element. The cast loses nothing after `%`, where a conversion would ask what to do if it did.
    if i < a.len() {
        a[i] = (x % 65536) as u16;
    }
}

// Writes where each number stands in the order. The two are apart since one is made for a single look at the other.
fn invert(order: &[u16], places: &mut [u16]) {
    for (i, e) in order.iter().enumerate() {
        put(places, usize::from(*e), i);
    }
}

// Whether entry e is below the length, and number e stands at the place given.
fn is_placed(order: &[u16], places: &[u16], e: usize) -> bool
    ensures { result ≡ true → Placed (length order.now) order.now e }
{
    let k = order.len();
    let x = get(order, e);
    let i = get(places, e);
    x < k && i < k && get(order, i) == e
}

// Whether the entries are an order of the numbers below their count, which stand at the places given.
fn is_order(order: &[u16], places: &[u16]) -> bool
    ensures { result ≡ true → Ordered (length order.now) order.now }
{
    (0..order.len()).all(|e| is_placed(order, places, e))
}

// Writes 0, 1, 2, .., by a cast: there are at most 65,536, and a conversion would ask what to do above that.
#[tactic(auto, using(crate::proofs::Orders::own_place))]
fn number(order: &mut [u16])
    requires { length order.old ≤ 65536 }
    ensures { Ordered (length order.old) order.new }
{
    for (i, entry) in order.iter_mut().enumerate() {
        *entry = i as u16;
    }
}

// Makes sure that the entries are an order of the numbers below their count: where they are not, each number gets its own place.
pub fn make_sure(order: &mut [u16])
    requires { length order.old ≤ 1024 }
    ensures order_len_unchanged { length order.new ≡ length order.old }
    ensures ordered { Ordered (length order.old) order.new }
{
    let mut places = [0u16; 1024];
    invert(order, &mut places);
    if !is_order(order, &places) {
        number(order);
    }
}

// Makes sure of the order in the first entries of an array, as many as the program has: its count is kept there alone.
#[tactic(auto, using(crate::proofs::Orders::front_ordered))]
pub fn sure_front<const N: usize>(order: [u16; N], count: usize) -> [u16; N]
    requires { (count ≤ N) × (N ≤ 1024) }
    ensures { Ordered count result }
{
    let mut sure = order;
    make_sure(&mut sure[..count]);
    sure
}

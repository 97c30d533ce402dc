// The fields of one record. Every reader is total: past the table's end there are only zeros. A record is a table and a number here: as one value it
// would be made anew at each reader of `program`, which has the number of a node.
ghost use Rattle.std.specs.Prelude.{◌≡◌, ◌<◌};
ghost use Rattle.table.specs.Record.{byte_of, number_of, kind_of, sort_of, field_a, field_b, field_c};

// Byte k of record r. Past the table there is nothing to read.
fn byte(t: &[u8], r: usize, k: usize) -> u8
    requires { k < 8 }
    ensures { result ≡ byte_of t.now r k }
{
    if t.len() / 8 < r {
        return 0;
    }
    t.get(r * 8 + k).copied().unwrap_or(0)
}

// The little-endian number at bytes k and k + 1 of record r.
fn number(t: &[u8], r: usize, k: usize) -> u16
    requires { k < 7 }
    ensures { result ≡ number_of t.now r k }
{
    // a whole record has both bytes: two tests for each of them would cost a check of a large table a quarter of its time
    if r < t.len() / 8 {
        let at = r * 8 + k;
        return u16::from_le_bytes([t[at], t[at + 1]]);
    }
    u16::from_le_bytes([byte(t, r, k), byte(t, r, k + 1)])
}

#[tactic(auto, unfolding(crate::specs::Record::kind_of))]
pub fn kind(t: &[u8], r: usize) -> u8
    ensures { result ≡ kind_of t.now r }
{
    byte(t, r, 0)
}

#[tactic(auto, unfolding(crate::specs::Record::sort_of))]
pub fn sort(t: &[u8], r: usize) -> u8
    ensures { result ≡ sort_of t.now r }
{
    byte(t, r, 1)
}

// The first two fields are numbers that callers count and index with, so they are given as such.
#[tactic(auto, unfolding(crate::specs::Record::field_a))]
pub fn field_a(t: &[u8], r: usize) -> usize
    ensures { (result ≡ field_a t.now r) × (result < 65536) }
{
    usize::from(number(t, r, 2))
}

#[tactic(auto, unfolding(crate::specs::Record::field_b))]
pub fn field_b(t: &[u8], r: usize) -> usize
    ensures { (result ≡ field_b t.now r) × (result < 65536) }
{
    usize::from(number(t, r, 4))
}

#[tactic(auto, unfolding(crate::specs::Record::field_c))]
pub fn field_c(t: &[u8], r: usize) -> u16
    ensures { result ≡ field_c t.now r }
{
    number(t, r, 6)
}

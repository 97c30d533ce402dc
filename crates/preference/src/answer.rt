// The preference order by value.
ghost use Rattle.std.specs.Prelude.{◌≡◌, ◌≤◌, length, take};

use table::Counts;

// The spawns of a program in the preference order: the first `count` numbers, with zeros behind them. It is handed out by value, and there is
// no heap. An array with its count, since it can be copied, as what is handed out here always could: the kit's vector can't.
#[derive(Clone, Copy)]
pub struct Order {
    pub count: usize,
    pub spawns: [usize; 512],
    ghost few: { count ≤ 512 },
}

impl Order {
    // The spawns alone.
    pub fn as_slice(&self) -> &[usize]
        ensures len { length result.now ≡ self.now.count }
        ensures value { result.now ≡ take self.now.count self.now.spawns }
    {
        &self.spawns[..self.count]
    }
}

// What the table's check found, and the order.
#[derive(Clone, Copy)]
pub struct Arranged {
    pub of: Counts,
    pub order: Order,
}

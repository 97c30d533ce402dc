// The call order by value.
ghost use Rattle.std.specs.Prelude.{◌≡◌, ◌≤◌, length, take};

use table::Counts;

// What the table's check found, and the functions in the call order: the first `of.functions` numbers, one byte for each, with zeros behind them.
#[derive(Clone, Copy)]
pub struct InOrder {
    pub of: Counts,
    pub functions: [u8; 64],
    ghost few: { of.functions ≤ 64 },
}

impl InOrder {
    // The functions alone.
    pub fn as_slice(&self) -> &[u8]
        ensures len { length result.now ≡ self.now.of.functions }
        ensures value { result.now ≡ take self.now.of.functions self.now.functions }
    {
        &self.functions[..self.of.functions]
    }
}

// The records of a line.
ghost use Rattle.std.specs.Prelude.{◌≡◌, ◌-◌, ◌/◌, ◌++◌, min, length};
ghost use Rattle.script.specs.Records.{field_at, record_at, records_before};

use crate::Table;
use crate::numbers::Numbers;

// A field of records in a row: its number in the first of them, and whether it goes up by one from each to the next.
#[derive(Clone, Copy)]
pub struct Field {
    pub first: u16,
    pub rises: bool,
}

impl Field {
    // What it is in the record at this place.
    fn at(self, place: u16) -> u16
        ensures { result ≡ field_at self place }
    {
        if self.rises {
            self.first.wrapping_add(place)
        } else {
            self.first
        }
    }
}

// So many records in a row, which differ at most in a and b.
#[derive(Clone, Copy)]
pub struct Records {
    pub kind: u8,
    pub sort: u8,
    pub a: Field,
    pub b: Field,
    pub c: u16,
    pub count: u16,
}

impl Records {
    pub(crate) fn of(text: &[u8]) -> Records {
        let mut numbers = Numbers::of(text);
        let kind = numbers.byte();
        let sort = numbers.byte();
        let a = numbers.number();
        let b = numbers.number();
        let c = numbers.number();
        let count = numbers.number().max(1);
        let a_rises = numbers.flag();
        let b_rises = numbers.flag();
        Records {
            kind,
            sort,
            a: Field {
                first: a,
                rises: a_rises,
            },
            b: Field {
                first: b,
                rises: b_rises,
            },
            c,
            count,
        }
    }

    // The record at this place of the row.
    fn record(&self, place: u16) -> [u8; 8]
        ensures { result ≡ record_at self.now place }
    {
        let [a_low, a_high] = self.a.at(place).to_le_bytes();
        let [b_low, b_high] = self.b.at(place).to_le_bytes();
        let [c_low, c_high] = self.c.to_le_bytes();
        [
            self.kind, self.sort, a_low, a_high, b_low, b_high, c_low, c_high,
        ]
    }

    // Puts the records behind the bytes of a table, as many as there is room for.
    pub(crate) fn put(&self, table: &mut Table)
        ensures { table.new.items ≡ table.old.items ++ records_before self.now (min self.now.count ((65536 - length table.old.items) / 8)) }
    {
        for place in 0..self.count {
            if table.try_extend_from_slice(&self.record(place)).is_err() {
                return;
            }
        }
    }
}

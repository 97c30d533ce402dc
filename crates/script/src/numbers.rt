// The numbers of a line.

// A line's bytes from which numbers are read, one after another: each byte that is no digit ends one.
#[derive(Clone, Copy)]
pub struct Numbers<'a> {
    rest: &'a [u8],
}

impl<'a> Numbers<'a> {
    pub fn of(text: &'a [u8]) -> Numbers<'a> {
        Numbers { rest: text }
    }

    // Those behind a mark and a space, which end one each.
    pub fn behind_mark(text: &'a [u8]) -> Numbers<'a> {
        let mut numbers = Numbers::of(text);
        numbers.number();
        numbers.number();
        numbers
    }

    // The next number, modulo 65,536: 0 where there is none. `parse` refuses what is larger.
    pub fn number(&mut self) -> u16 {
        let rest = self.rest;
        let is_end = |byte: &u8| !byte.is_ascii_digit();
        let (digits, behind) = match rest.iter().position(is_end) {
            Some(end) => (&rest[..end], &rest[end + 1..]),
            None => (rest, &rest[rest.len()..]),
        };
        self.rest = behind;
        digits.iter().fold(0, |number: u16, digit| {
            let unit = u16::from(digit.wrapping_sub(b'0'));
            number.wrapping_mul(10).wrapping_add(unit)
        })
    }

    // The next number, modulo 256.
    pub fn byte(&mut self) -> u8 {
        let [low, _] = self.number().to_le_bytes();
        low
    }

    // Whether the next number is given and not 0.
    pub fn flag(&mut self) -> bool {
        self.number() != 0
    }
}

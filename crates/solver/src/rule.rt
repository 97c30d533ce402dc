// A rule, as numbers.
ghost use Rattle.std.specs.Prelude.{◌≡◌, ℕ, ◌<◌, ◌≤◌, Some};
ghost use Rattle.solver.specs.Words.{rule_of, word_form};
ghost use Rattle.solver.specs.Rounds.{rule_form, AmongSizes};

// Entry `head` is at least `base`, the entry `part` and the size `other`, added up.
#[derive(Clone, Copy)]
pub struct Rule {
    pub head: usize,
    pub base: u32,
    pub part: usize,
    pub other: Option<usize>,
}

// Rules are listed as words, 8 bytes each, since the list lies in fixed memory with room for the largest table: 12 bits for each entry, of
// which the other is past the sizes where there is none, and the base above them. So small numbers lose nothing by `as`, and the check sees
// to it; `try_from` would ask what to do otherwise.
impl Rule {
    pub fn packed(self) -> u64
        requires { (self.head < 4096) × (self.part < 4096) × ((z : ℕ) → self.other ≡ Some z → z < 2304) × (self.base ≤ 65536) }
        ensures { rule_of result ≡ self }
    {
        let other = self.other.unwrap_or(4095) as u64;
        (self.head as u64) | (self.part as u64) << 12 | other << 24 | u64::from(self.base) << 36
    }
}

impl From<u64> for Rule {
    ghost from_gives = { λ word rule. (rule_form rule ≡ word_form word) × AmongSizes rule.other };

    fn from(word: u64) -> Rule {
        let other = (word >> 24 & 4095) as usize;
        Rule {
            head: (word & 4095) as usize,
            base: (word >> 36) as u32,
            part: (word >> 12 & 4095) as usize,
            other: if other < 2304 { Some(other) } else { None },
        }
    }
}

// Verdicts of spawns.
ghost use Rattle.std.specs.Prelude.{◌≡◌, ◌-◌, eqb};
ghost use Rattle.search.specs.Verdict.{level};
ghost use Rattle.search.specs.Walk.{raised_to};

// What a choice does with a spawn.
#[derive(Clone, Copy)]
pub(crate) enum Verdict {
    Unmerged,
    Guarded,
    Unguarded,
}

// The byte that a choice has for it.
impl From<Verdict> for u8 {
    ghost from_gives = { λ verdict byte. byte ≡ level verdict };

    fn from(verdict: Verdict) -> u8 {
        match verdict {
            Verdict::Unmerged => 1,
            Verdict::Guarded => 2,
            Verdict::Unguarded => 3,
        }
    }
}

impl Verdict {
    // Whether a spawn with this byte waits for the verdict: it has the one below. By bytes, as a choice has them: turned into a verdict at each look
    // it would be no plainer.
    pub(crate) fn is_next(self, byte: u8) -> bool
        ensures { result ≡ eqb byte (level self - 1) }
    {
        byte == u8::from(self) - 1
    }

    // The byte of the verdict for one that waits for it, and any other as it is.
    pub(crate) fn raise(self, byte: u8) -> u8
        ensures { result ≡ raised_to (level self) byte }
    {
        if self.is_next(byte) {
            u8::from(self)
        } else {
            byte
        }
    }
}

// A size: "either a number of bytes up to 65,535 or unbounded".
#![tactic(auto)]

ghost use Rattle.std.specs.Prelude.{◌≡◌, ◌+◌, eqb, max};
ghost use Rattle.size.specs.Size.{aligned, size_of, value_of, unbounded};

// Sizes are compared by the numbers that they are written as: what `Bytes` holds is any `u32`, of which those past the ceiling are unbounded, and a derived
// comparison would tell these apart. Names and matches are those of document 01's last list.
#[derive(Clone, Copy)]
pub enum Size {
    Bytes(u32),
    Unbounded,
}

#[tactic(auto, using(crate::proofs::Values::size_bytes, crate::proofs::Values::size_unbounded))]
impl Size {
    // The largest number of bytes that is a size.
    pub const CEILING: u32 = 65535;

    pub const ZERO: Size = Size::Bytes(0);

    // The largest frame that counts as a number of bytes.
    const LARGEST_FRAME: u32 = Size::CEILING / 16 * 16;

    // What a frame counts as: its bytes rounded up to a multiple of 16.
    #[tactic(auto, using(crate::proofs::Frames::frame_bytes, crate::proofs::Frames::frame_unbounded))]
    pub fn from_frame(bytes: u32) -> Size
        ensures { result ≡ size_of (aligned bytes) }
    {
        if Size::LARGEST_FRAME < bytes {
            return Size::Unbounded;
        }
        Size::Bytes(bytes.next_multiple_of(16))
    }

    // The size that a number stands for: so many bytes, or unbounded where they are above the ceiling.
    pub fn from_number(number: u32) -> Size
        ensures { result ≡ size_of number }
    {
        if Size::CEILING < number {
            return Size::Unbounded;
        }
        Size::Bytes(number)
    }

    // The sum: unbounded where it is above the ceiling or has an unbounded part.
    pub fn add(self, other: Size) -> Size
        ensures { result ≡ size_of (value_of self + value_of other) }
    {
        match (self, other) {
            (Size::Bytes(a), Size::Bytes(b)) => Size::from_number(a.saturating_add(b)),
            _ => Size::Unbounded,
        }
    }

    // The larger of the two; unbounded is above every number.
    pub fn max(self, other: Size) -> Size
        ensures { result ≡ size_of (max (value_of self) (value_of other)) }
    {
        match (self, other) {
            (Size::Bytes(a), Size::Bytes(b)) => Size::from_number(a.max(b)),
            _ => Size::Unbounded,
        }
    }

    pub fn is_zero(self) -> bool
        ensures { result ≡ eqb (value_of self) 0 }
    {
        u32::from(self) == 0
    }

    pub fn is_unbounded(self) -> bool
        ensures { result ≡ eqb (value_of self) unbounded }
    {
        u32::from(self) == 65536
    }
}

// How a size is written: unbounded as 65,536.
impl From<Size> for u32 {
    ghost from_gives = { λ size number. number ≡ value_of size };

    fn from(size: Size) -> u32 {
        match size {
            Size::Bytes(n) if n <= Size::CEILING => n,
            _ => 65536,
        }
    }
}

// A text that is being made.
ghost use Rattle.std.specs.Prelude.{◌≡◌, ◌+◌, ◌≤◌, [], ◌++◌, length};
ghost use Rattle.text.specs.Listing.{decimal};

use arrayvec::ArrayString;

// Room for the longest listing, with 20 digits for each number: 64 lines of 107 bytes and 512 of 117.
pub(crate) const ROOM: usize = 64 * 107 + 512 * 117;

// What is written so far, in fixed memory: there is no heap. How much a line adds is said by each writer, so the bound stands in
// each contract.
#[derive(Clone, Copy)]
pub struct Text(ArrayString<ROOM>);

impl Text {
    pub(crate) fn new() -> Text
        ensures { result.0.bytes ≡ [] }
    {
        Text(ArrayString::new())
    }

    pub fn as_bytes(&self) -> &[u8]
        ensures { result.now ≡ self.now.0.bytes }
    {
        self.0.as_bytes()
    }

    pub(crate) fn push(&mut self, piece: &str)
        requires { length self.old.0.bytes + length piece.now ≤ ROOM }
        ensures { self.new.0.bytes ≡ self.old.0.bytes ++ piece.now }
    {
        self.0.push_str(piece);
    }

    // A number in decimal, of at most 20 digits. A `u32` comes widened by `as`, which loses nothing: a `usize` has 64 bits.
    // The casts stay: one generic over what `itoa` formats was tried, and the proofs of four callers stayed open.
    #[tactic(auto, using(crate::proofs::Fields::decimal_is))]
    pub(crate) fn push_decimal(&mut self, n: usize)
        requires { length self.old.0.bytes + 20 ≤ ROOM }
        ensures appended { self.new.0.bytes ≡ self.old.0.bytes ++ decimal n }
        ensures room { length self.new.0.bytes ≤ length self.old.0.bytes + 20 }
    {
        self.push(itoa::Buffer::new().format(n));
    }
}

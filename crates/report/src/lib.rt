// Answers as text, in document 01's words. What is printed is tested; of what is left of a buffer and of single sizes it is proved.
#![tactic(auto)]

ghost use Rattle.std.specs.Prelude.{◌≡◌, ◌==◌, ◌++◌, if◌then◌else◌, Some, codes, decimal, count_by};

use arrayvec::ArrayVec;
use std::fmt;
use std::fmt::Display;
use std::io::Write;
use table::refusal::Refused;
use table::{Counts, check};

// What a sizes buffer holds before each run. It is no size, so what is left of it can be counted.
pub const OLD_SIZE: u32 = 77777;

// The same of a verdict buffer.
pub const OLD_VERDICT: u8 = 77;

// How many places of a buffer have its old content.
pub fn kept<T: PartialEq>(buffer: &[T], old: &T) -> usize
    ensures { result ≡ count_by (λ x. T.eq x old.now) buffer.now }
{
    buffer.iter().filter(|x| *x == old).count()
}

// A size as it is written to a buffer: its bytes, or 65,536 where it is unbounded. A number of a buffer may be no size, as its old content is none, so it
// is not the `Size` of the solver.
#[derive(Clone, Copy)]
struct Size(u32);

impl fmt::Display for Size {
    ghost output = { λ x. Some (if x.0 == 65536 then codes "unbounded" else decimal x.0) };

    fn fmt<W: fmt::Write>(&self, f: &mut fmt::Formatter<W>) -> fmt::Result {
        match self.0 {
            65536 => write!(f, "unbounded"),
            bytes => write!(f, "{bytes}"),
        }
    }
}

// Text in fixed memory of N bytes, for a program to write at once, so that nothing fails before. What goes past it is left out.
#[derive(Drop)]
pub struct Page<const N: usize>(ArrayVec<u8, N>);

impl<const N: usize> Page<N> {
    pub fn new() -> Page<N> {
        Page(ArrayVec::new())
    }

    pub fn as_slice(&self) -> &[u8] {
        self.0.as_slice()
    }

    pub fn clear(&mut self) {
        self.0.clear();
    }

    pub fn bytes(&mut self, bytes: &[u8]) {
        let _ = self.0.write_all(bytes);
    }

    pub fn text(&mut self, text: &str) {
        self.bytes(text.as_bytes());
    }

    // Ends a line.
    pub fn end(&mut self) {
        self.text("\n");
    }

    pub fn show<D: Display + Drop>(&mut self, value: D) {
        let _ = write!(self.0, "{value}");
    }

    // A number behind a space.
    pub fn number(&mut self, n: usize) {
        self.text(" ");
        self.show(n);
    }

    // A refusal, in a line of its own.
    pub fn refused(&mut self, refused: Refused) {
        self.show(refused);
        self.end();
    }

    // `accepted`, then the number of functions, nodes and edges.
    pub fn accepted(&mut self, of: Counts) {
        self.text("accepted");
        self.number(of.functions);
        self.number(of.nodes);
        self.number(of.edges);
        self.end();
    }

    // What `check` answers.
    pub fn checked(&mut self, answer: Result<Counts, Refused>) {
        match answer {
            Ok(of) => self.accepted(of),
            Err(refused) => self.refused(refused),
        }
    }

    // A row of four sizes behind its head and number.
    fn row(&mut self, head: &str, number: usize, sizes: &[u32]) {
        self.text(head);
        self.number(number);
        for size in sizes {
            self.text(" ");
            self.show(Size(*size));
        }
        self.end();
    }

    // Rows for so many fours of sizes, as far as there are any.
    fn rows(&mut self, head: &str, sizes: &[u32], count: usize) {
        let mut rest = sizes;
        for number in 0..count {
            let Some((four, behind)) = rest.split_first_chunk::<4>() else {
                return;
            };
            self.row(head, number, four);
            rest = behind;
        }
    }

    // A row `  F n Total Post Pre Through` for each function of the table, as far as the sizes buffer goes.
    pub fn functions(&mut self, t: &[u8], sizes: &[u32]) {
        if let Ok(of) = check(t) {
            self.rows("  F", sizes, of.functions);
        }
    }

    // A row `  N n Total Post Pre Through` for each node of the table, as far as the sizes buffer goes behind the functions.
    pub fn nodes(&mut self, t: &[u8], sizes: &[u32]) {
        if let Ok(of) = check(t) {
            let behind = of.functions.saturating_mul(4);
            self.rows("  N", sizes.get(behind..).unwrap_or(&[]), of.nodes);
        }
    }
}

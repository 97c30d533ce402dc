// Task tables written as text, for the program that runs worked-out cases and that counts; and how the programs read their inputs.
//
// `! CALL` says which call the runs that follow are of, and `= NAME` begins a table. A line of numbers is a run of its
// records: kind, sort, a, b, c, and then, where they are given, how many there are (1 if not) and whether a and b go up
// by one from each to the next. Such as
//
//     1 1 0 4 40          an entry with first node 0, exit node 4 and a frame of 40
//     2 0 0 0 0 512       512 plain nodes of function 0
//     3 0 0 1 0 4 1 1     the edges 0-1, 1-2, 2-3, 3-4
//
// `+ N` adds N bytes: what longer tables before it left where they go, and 0 where none was as long. A line that begins with
// `#` says nothing. Numbers count modulo 65,536, each byte that is no digit ends one, and one that is missing is 0. A table
// has at most 65,536 bytes, and what goes past them is left out.
//
// `? LENGTH BUFFER B0 B1 ..` is a run on the table: with a choice of LENGTH bytes, 0 where none is given, and a sizes
// buffer of BUFFER numbers. Such as
//
//     ? 7 40 0 3 0 3      a choice of 7 bytes, 0 3 0 3 0 0 0, and a buffer of 40 numbers
#![tactic(auto)]

mod files;
mod input;
mod numbers;
mod records;

ghost use Rattle.std.specs.Prelude.{◌≡◌, [], ◌++◌, length, take, drop, replicate};
ghost use Rattle.script.specs.Line.{ReadsAs};
ghost use Rattle.script.specs.State.{Takes};

use arrayvec::ArrayVec;
pub use files::{Unread, read_file, read_input};
pub use input::{Failed, read_full};
use numbers::Numbers;
use records::Records;

// The bytes of a table, in fixed memory.
pub type Table = ArrayVec<u8, 65536>;

// The bytes of a choice, likewise.
pub type Choice = ArrayVec<u8, 65536>;

// What a line of a script says.
#[derive(Clone, Copy)]
pub enum Line<'a> {
    Comment,
    // The runs that follow are of this call.
    Call(&'a [u8]),
    // A table of this name begins.
    Table(&'a [u8]),
    // The table goes on with so many bytes.
    Bytes(u16),
    Records(Records),
    Run(Run<'a>),
}

// A run on the table: with a choice of so many bytes, which these numbers say, and a sizes buffer of so many numbers.
#[derive(Clone, Copy)]
pub struct Run<'a> {
    pub length: u16,
    pub buffer: u16,
    bytes: Numbers<'a>,
}

impl<'a> Run<'a> {
    fn read(text: &'a [u8]) -> Run<'a> {
        let mut numbers = Numbers::behind_mark(text);
        Run {
            length: numbers.number(),
            buffer: numbers.number(),
            bytes: numbers,
        }
    }

    // Its choice: 0 where no byte is given.
    pub fn choice(&self) -> Choice
        ensures { length result.items ≡ self.now.length }
    {
        let mut choice = ArrayVec::new();
        self.put_choice(&mut choice);
        choice
    }

    // The same in the place of what was lent: a vector of its own for each run would take longer to make than most calls. By `push`, since a vector that is
    // collected may find no room.
    pub fn put_choice(&self, choice: &mut Choice)
        ensures { length choice.new.items ≡ self.now.length }
    {
        choice.clear();
        let mut bytes = self.bytes;
        for _ in 0..self.length {
            choice.push(bytes.byte());
        }
    }
}

impl<'a> Line<'a> {
    // What this line says, without its line feed.
    pub fn read(text: &'a [u8]) -> Line<'a>
        ensures { ReadsAs text.now result }
    {
        let Some((mark, behind)) = text.split_first() else {
            return Line::Comment;
        };
        let words = behind.get(1..).unwrap_or(&[]);
        match *mark {
            b'#' => Line::Comment,
            b'!' => Line::Call(words),
            b'=' => Line::Table(words),
            b'+' => Line::Bytes(Numbers::behind_mark(text).number()),
            b'?' => Line::Run(Run::read(text)),
            _ => Line::Records(Records::of(text)),
        }
    }
}

// Puts so many bytes behind those of a table, as many as there is room for: those that tables before it left there.
fn put_left(table: &mut Table, left: &[u8; 65536], count: u16)
    ensures { table.new.items ≡ table.old.items ++ take count (drop (length table.old.items) left.now) }
{
    let behind = &left[table.len()..];
    let more = behind.get(..usize::from(count)).unwrap_or(behind);
    table.try_extend_from_slice(more).unwrap();
}

// Clears a table: its bytes are left.
fn clear(table: &mut Table, left: &mut [u8; 65536])
    ensures cleared { table.new.items ≡ [] }
    ensures leaves { left.new ≡ table.old.items ++ drop (length table.old.items) left.old }
{
    left[..table.len()].copy_from_slice(table);
    table.clear();
}

// What the lines up to some place of a script have said: the call of the runs, and the table with its name.
#[derive(Drop)]
pub struct State<'a> {
    pub call: &'a [u8],
    pub name: &'a [u8],
    pub table: Table,
    // what tables have left, each from the first byte on; one array for both would have a length beside it
    left: [u8; 65536],
}

impl<'a> State<'a> {
    // What stands before the first line.
    pub fn new() -> State<'a>
        ensures { (result.table.items ≡ []) × (result.left ≡ replicate 65536 0) }
    {
        State {
            call: &[],
            name: &[],
            table: ArrayVec::new(),
            left: [0; 65536],
        }
    }

    pub fn take(&mut self, line: &Line<'a>)
        ensures { Takes self.old line.now self.new }
    {
        match line {
            Line::Comment | Line::Run(_) => {}
            Line::Call(call) => self.call = call,
            Line::Table(name) => {
                self.name = name;
                clear(&mut self.table, &mut self.left);
            }
            Line::Bytes(count) => put_left(&mut self.table, &self.left, *count),
            Line::Records(records) => records.put(&mut self.table),
        }
    }
}

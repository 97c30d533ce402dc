// Which functions reach which by calls. Relations between functions are kept as 64 words: bit h of word f says that f is joined to h.
ghost use Rattle.std.specs.Prelude.{◌≡◌, ℕ, ◌<◌, ◌&&◌, ◌||◌};
ghost use Rattle.table.specs.Program.{program_of};
ghost use Rattle.word.specs.Bit.{bit};
ghost use Rattle.call_order.specs.Rows.{joined, one_way, Targets, ReachOf};

use program::Program;
use word::{has, union, with};

// Whether node n is a call whose target is not joined back to the caller.
fn is_one_way(program: &Program<'_>, back: &[u64; 64], n: usize) -> bool
    requires { n < program.now.of.nodes }
    ensures { result ≡ one_way (program_of program.now.table.now) back.now n }
{
    program.is_call(n) && !has(back[program.target(n)], program.owner(n))
}

// The call targets of each function, but for those that are joined back to it: where none is, all of them.
pub(crate) fn targets(program: &Program<'_>, back: &[u64; 64]) -> [u64; 64]
    ensures { Targets (program_of program.now.table.now) back.now result }
{
    let mut rows = [0; 64];
    for n in 0..program.of.nodes {
        if is_one_way(program, back, n) {
            let owner = program.owner(n);
            rows[owner] = with(rows[owner], program.target(n));
        }
    }
    rows
}

// What a function is joined to, with all that k is joined to if k is among it.
fn through(row: u64, k: usize, onward: u64) -> u64
    ensures { (h : ℕ) → bit result h ≡ (bit row h || (bit row k && bit onward h)) }
{
    if has(row, k) { union(row, onward) } else { row }
}

// Joins each function that is joined to k to all that k is joined to.
fn join_through(rows: &mut [u64; 64], k: usize)
    requires { k < 64 }
    ensures { (f h : ℕ) → joined rows.new f h ≡ (joined rows.old f h || (joined rows.old f k && joined rows.old k h)) }
{
    let onward = rows[k];
    *rows = rows.map(|row| through(row, k, onward));
}

// The functions that each function reaches. Before the turn of k it is joined to all that it reaches by way of functions below k alone.
pub(crate) fn reach(program: &Program<'_>) -> [u64; 64]
    ensures { ReachOf (program_of program.now.table.now) result }
{
    let mut rows = targets(program, &[0; 64]);
    for k in 0..program.of.functions {
        join_through(&mut rows, k);
    }
    rows
}

// An order of a table's functions in which each stands after those that it calls and spawns, where it can be.
// The search is a hint: nothing is promised of it. What it writes is made sure of.
ghost use Rattle.std.specs.Prelude.{◌<◌};
ghost use Rattle.order.specs.Order.{Ordered};

use order::sure::{put, sure_front};
use program::Program;

// The bit of function f, and none past the 64 that a table may have.
fn bit(f: usize) -> u64 {
    if f < 64 { 1u64 << f } else { 0 }
}

// The bit of the function that node n calls or spawns, if it does.
fn target_bit(program: &Program<'_>, n: usize) -> u64
    requires { n < program.now.of.nodes }
{
    if program.has_target(n) {
        bit(program.target(n))
    } else {
        0
    }
}

// For each function those that it calls or spawns, one bit for each.
fn find_targets(program: &Program<'_>, targets: &mut [u64]) {
    for n in 0..program.of.nodes {
        if let Some(own) = targets.get_mut(program.owner(n)) {
            *own |= target_bit(program, n);
        }
    }
}

fn is_left(left: u64, f: usize) -> bool {
    left & bit(f) != 0
}

// Whether another function is left that f calls or spawns.
fn waits(targets: &[u64], left: u64, f: usize) -> bool {
    let own = targets.get(f).copied().unwrap_or(0);
    own & left & !bit(f) != 0
}

// The first function that is left and has no targets left, or else the first that is left: bits past the functions stay, so that there always is one.
// Its number is cast, since a bit's place is at most 64.
fn next_function(targets: &[u64], left: u64) -> usize {
    (0..targets.len())
        .find(|f| is_left(left, *f) && !waits(targets, left, *f))
        .unwrap_or(left.trailing_zeros() as usize)
}

// Takes functions until none is left.
fn search_all(program: &Program<'_>) -> [u16; 64] {
    let mut order = [0; 64];
    let mut targets = [0u64; 64];
    find_targets(program, &mut targets);
    let mut left = u64::MAX;
    for q in 0..program.of.functions {
        let f = next_function(&targets[..program.of.functions], left);
        put(&mut order, q, f);
        left &= !bit(f);
    }
    order
}

// The order that the search gives, made sure of.
pub fn order_functions(program: &Program<'_>) -> [u16; 64]
    ensures { Ordered program.now.of.functions result }
{
    sure_front(search_all(program), program.of.functions)
}

// Room for the rules of a choice, as long as a closure looks at them.
ghost use Rattle.std.specs.Prelude.{◌≡◌, [], IfSome};
ghost use Rattle.listed.specs.Listed.{everywhere, needed, slots, RoomFor, RulesFor, Widest};
ghost use Rattle.listed.specs.Lent.{Callable, Called};

use crate::force::in_force;
use crate::list::list_rules;
use arrayvec::ArrayVec;
use sync::Known;

// How many words they can take: as many as the widest choice has rules, where these are at hand, and else one for each place. Here and in `fill` it is
// asked whether they are: a closure for the one or the other could not be generic in the size of the list.
fn room(known: &Known<'_>, widest: Option<&[u64]>) -> usize
    ensures { result ≡ needed known.now widest.entry }
{
    let of = known.program.of;
    match widest {
        Some(all) => all.len(),
        None => 8 * of.nodes + 4 * of.edges + 3 * of.functions,
    }
}

// Lists them: takes them from those of the widest choice, or lists them anew.
fn fill<const N: usize>(
    known: &Known<'_>,
    choice: &[u8],
    widest: Option<&[u64]>,
    rules: &mut ArrayVec<u64, N>,
)
    requires widest { IfSome widest (λ all. Widest known.now all.now) }
    requires room { (rules.old.items ≡ []) × RoomFor (needed known.now widest) N }
    ensures { RulesFor choice.now known.now (needed known.now widest.entry) rules.new.items }
{
    match widest {
        Some(all) => in_force(known, choice, all, rules),
        None => list_rules(known, choice, rules),
    }
}

// Lists them in N words, and hands them to a closure. With known, choice and widest as one value, and these as its methods, the proofs
// close, but the best choice of a small table took 0.023 ms in place of 0.014.
fn in_words<const N: usize, S, R, F: FnOnce(&mut S, &[u64]) -> R>(
    known: &Known<'_>,
    choice: &[u8],
    widest: Option<&[u64]>,
    state: &mut S,
    take: F,
) -> R
    requires widest { IfSome widest (λ all. Widest known.now all.now) }
    requires room { RoomFor (needed known.now widest) N }
    requires takes { Callable (RulesFor choice.now known.now (needed known.now widest)) F.FnOnce take state.old }
    ensures { Called (RulesFor choice.now known.now (needed known.now widest.entry)) F.FnOnce take state.old state.new result }
{
    let mut rules = ArrayVec::<u64, N>::new();
    fill(known, choice, widest, &mut rules);
    take(state, &rules)
}

// Hands a closure the rules of a table and a choice, and answers what it does. Those of the widest choice may be lent: what they have is
// not looked for again. Few rules get a small list: a large one would take longer to clear than all the rest. What the closure changes is
// lent to it: with solutions answered, and so copied, a call on a small table took twice as long, and with lists by value four times. A value of
// that and the closure would have the same parameters and clauses.
pub fn with_rules<S, R, F: FnOnce(&mut S, &[u64]) -> R>(
    known: &Known<'_>,
    choice: &[u8],
    widest: Option<&[u64]>,
    state: &mut S,
    take: F,
) -> R
    requires widest { IfSome widest (λ all. Widest known.now all.now) }
    requires takes { Callable (RulesFor choice.now known.now (needed known.now widest)) F.FnOnce take state.old }
    ensures { Called (RulesFor choice.now known.now (needed known.now widest.entry)) F.FnOnce take state.old state.new result }
{
    if room(known, widest) <= 256 {
        in_words::<256, S, R, F>(known, choice, widest, state, take)
    } else {
        in_words::<8384, S, R, F>(known, choice, widest, state, take)
    }
}

// The same with the rules of a table where every spawn is unguarded: no choice has others.
pub fn with_widest<S, R, F: FnOnce(&mut S, &[u64]) -> R>(
    known: &Known<'_>,
    state: &mut S,
    take: F,
) -> R
    requires { Callable (RulesFor everywhere known.now (slots known.now.program.of)) F.FnOnce take state.old }
    ensures { Called (RulesFor everywhere known.now (slots known.now.program.of)) F.FnOnce take state.old state.new result }
{
    // a choice is bytes, also to the crates below
    let every = [3u8; 512];
    with_rules(known, &every, None, state, take)
}

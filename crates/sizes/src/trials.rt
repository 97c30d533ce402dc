// Sizes of many choices for one table: its rules are listed once, and sizes are found from those of a smaller choice.
ghost use Rattle.sync.specs.Found.{Looked};
ghost use Rattle.listed.specs.Lent.{Callable, Called};
ghost use Rattle.sizes.specs.Call.{choice_of};
ghost use Rattle.sizes.specs.Trials.{FoundFor, PreparedFor, PreparedFrom, Prepares, StartsFor};

use listed::room::{with_rules, with_widest};
use solver::solution::Solution;
use sync::Known;

// A table that is prepared for trials: what is known of it, and the rules of its widest choice, into which the crates above don't look. That it is
// (`PreparedFor`) stands in contracts, since it gives paths and rules and is no proposition, and so does what sizes start from (`StartsFor`), which is
// of a choice besides, another one in each trial.
#[derive(Clone, Copy)]
pub struct Prepared<'a> {
    pub known: Known<'a>,
    pub words: &'a [u64],
}

// Prepares a table for trials, hands it to a closure with what this changes, and answers what that does.
pub fn with_prepared<S, R, F: FnOnce(&mut S, &Prepared<'_>) -> R>(
    known: &Known<'_>,
    state: &mut S,
    take: F,
) -> R
    requires { Looked known.now × Callable (Prepares known.now) F.FnOnce take state.old }
    ensures { Called (Prepares known.now) F.FnOnce take state.old state.new result }
{
    with_widest(
        known,
        state,
        |state, words|
            requires { PreparedFrom known.now words.now × Callable (Prepares known.now) F.FnOnce take state.old }
            ensures { Called (Prepares known.entry.now) F.FnOnce take state.old state.new result }
        {
            take(
                state,
                &Prepared {
                    known: *known,
                    words,
                },
            )
        },
    )
}

// The least sizes of a choice, from zeros or from those of a smaller choice.
#[tactic(auto, using(listed::proofs::Worded::lists_named))]
pub fn find_from(prepared: &Prepared<'_>, choice: &[u8], numbers: &[u32]) -> Solution
    requires { PreparedFor prepared.now × StartsFor prepared.now (choice_of choice.now) numbers.now }
    ensures { FoundFor prepared.now.known (choice_of choice.now) result }
{
    let known = &prepared.known;
    let mut found = Solution::starting(&numbers[..known.program.entries()]);
    let words = Some(prepared.words);
    with_rules(known, choice, words, &mut found, Solution::solve);
    found
}

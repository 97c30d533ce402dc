// The tests of document 01's "Refused tables" that look at one record.
ghost use Rattle.std.specs.Prelude.{◌≡◌, ◌<◌};
ghost use Rattle.table.specs.Record.{records, field_a, field_b, node_owner, node_sort, is_entry, has_target};
ghost use Rattle.table.specs.Checks.{unlisted, out_of_order, absent, foreign, not_plain, above, not_above};
ghost use Rattle.table.specs.Below.{earliest};
ghost use Rattle.table.specs.Answer.{CountsOf};
ghost use Rattle.table.specs.Scan.{sought, place_for};

use crate::Counts;
use crate::kinds::{Kind, is_of, listed_kind};
use crate::record::{field_a, field_b, field_c, kind, sort};
use crate::refusal::Cause;
use crate::scan::first_too_many;

// Whether a node of this sort has a target. Sorts stay numbers in all these tests: each kind lists other ones, so an enum of the sorts
// of one kind would be wrong for the others.
fn has_target(s: u8) -> bool
    ensures { result ≡ has_target s }
{
    (s == 1) | (s == 2)
}

// 2: a kind or sort that is not listed, or a field that must be 0 and isn't.
#[tactic(auto, unfolding(crate::specs::Checks::unlisted))]
fn is_unlisted(t: &[u8], r: usize) -> bool
    ensures { result ≡ unlisted t.now r }
{
    let s = sort(t, r);
    let b = field_b(t, r);
    let c = field_c(t, r);
    !match listed_kind(t, r) {
        Some(Kind::Function) => s <= 1,
        Some(Kind::Node) => (s <= 3) & (has_target(s) | (b == 0)) & (c == 0),
        Some(Kind::Edge) => (s == 0) & (c == 0),
        None => false,
    }
}

// 3: a kind lower than that of the record before. It compares bytes, since it speaks of kinds that are not listed too.
#[tactic(auto, using(crate::proofs::Scanning::in_order, crate::proofs::Scanning::later))]
fn is_out_of_order(t: &[u8], r: usize) -> bool
    ensures { result ≡ out_of_order t.now r }
{
    r != 0 && kind(t, r) < kind(t, r - 1)
}

// The edge in record r is above that in record q.
fn is_above(t: &[u8], r: usize, q: usize) -> bool
    ensures { result ≡ above (field_a t.now r) (field_b t.now r) (field_a t.now q) (field_b t.now q) }
{
    let a = field_a(t, r);
    let c = field_a(t, q);
    (c < a) | ((c == a) & (field_b(t, q) < field_b(t, r)))
}

// 15: an edge not above the one before it.
#[tactic(auto, using(crate::proofs::Scanning::first_above, crate::proofs::Scanning::later_above))]
fn is_not_above(t: &[u8], r: usize) -> bool
    ensures { result ≡ not_above t.now r }
{
    r != 0 && is_of(t, r, Kind::Edge) && is_of(t, r - 1, Kind::Edge) && !is_above(t, r, r - 1)
}

// 5 wants one of these. Sort 1 is an entry here, and of a node it is a call.
fn is_entry(t: &[u8], r: usize) -> bool
    ensures { result ≡ is_entry t.now r }
{
    is_of(t, r, Kind::Function) & (sort(t, r) == 1)
}

// A table with its counts, for the tests of what the numbers in a record stand for.
#[derive(Clone, Copy)]
pub(crate) struct Counted<'a> {
    pub(crate) t: &'a [u8],
    pub(crate) of: Counts,
    ghost counts_of: { CountsOf t.now of },
}

impl Counted<'_> {
    // The owner of node n.
    #[tactic(auto, using(crate::proofs::Below::functions_fit))]
    fn owner(&self, n: usize) -> usize
        requires { n < 65536 }
        ensures { result ≡ node_owner self.now.t.now n }
    {
        field_a(self.t, self.of.functions + n)
    }

    // The sort of node n.
    #[tactic(auto, using(crate::proofs::Below::functions_fit))]
    fn node_sort(&self, n: usize) -> u8
        requires { n < 65536 }
        ensures { result ≡ node_sort self.now.t.now n }
    {
        sort(self.t, self.of.functions + n)
    }

    // 6: a function or node number that doesn't exist.
    #[tactic(auto, unfolding(crate::specs::Checks::absent))]
    fn is_absent(&self, r: usize) -> bool
        ensures { result ≡ absent self.now.t.now r }
    {
        let a = field_a(self.t, r);
        let b = field_b(self.t, r);
        match listed_kind(self.t, r) {
            Some(Kind::Function | Kind::Edge) => (self.of.nodes <= a) | (self.of.nodes <= b),
            Some(Kind::Node) => (self.of.functions <= a)
                | has_target(sort(self.t, r)) & (self.of.functions <= b),
            None => false,
        }
    }

    // 7: a first or exit node that another function owns, or an edge between two functions.
    #[tactic(auto, unfolding(crate::specs::Checks::foreign))]
    fn is_foreign(&self, r: usize) -> bool
        ensures { result ≡ foreign self.now.t.now r }
    {
        let a = self.owner(field_a(self.t, r));
        let b = self.owner(field_b(self.t, r));
        match listed_kind(self.t, r) {
            Some(Kind::Function) => (a != r) | (b != r),
            Some(Kind::Edge) => a != b,
            Some(Kind::Node) | None => false,
        }
    }

    // 8: a first or exit node that is not plain.
    #[tactic(auto, unfolding(crate::specs::Checks::not_plain))]
    fn is_not_plain(&self, r: usize) -> bool
        ensures { result ≡ not_plain self.now.t.now r }
    {
        let a = self.node_sort(field_a(self.t, r));
        let b = self.node_sort(field_b(self.t, r));
        is_of(self.t, r, Kind::Function) & !((a == 0) & (b == 0))
    }

    // Whether record r is what the check for this cause looks for: what it refuses, and of check 5 an entry, which it wants.
    fn finds(&self, cause: Cause, r: usize) -> bool
        ensures { result ≡ sought cause self.now.t.now r }
    {
        match cause {
            Cause::Unlisted => is_unlisted(self.t, r),
            Cause::OutOfOrder => is_out_of_order(self.t, r),
            Cause::NoEntry => is_entry(self.t, r),
            Cause::Absent => self.is_absent(r),
            Cause::Foreign => self.is_foreign(r),
            Cause::NotPlain => self.is_not_plain(r),
            Cause::NotAbove => is_not_above(self.t, r),
            _ => false,
        }
    }

    // The first record that it looks for.
    fn first(&self, cause: Cause) -> Option<usize>
        ensures { result ≡ earliest (sought cause self.now.t.now) (records self.now.t.now) }
    {
        (0..self.t.len() / 8).find(|r| self.finds(cause, *r))
    }

    // Where the check for this cause applies.
    pub(crate) fn place_of(&self, cause: Cause) -> Option<usize>
        ensures { result ≡ place_for cause self.now.t.now }
    {
        let n = self.t.len() / 8;
        match cause {
            Cause::Length => (self.t.len() % 8 != 0).then_some(n),
            Cause::TooMany => first_too_many(self.t, n),
            Cause::NoEntry => {
                let no_entry = (self.of.functions == 0) | self.first(cause).is_none();
                no_entry.then_some(0)
            }
            _ => self.first(cause),
        }
    }
}

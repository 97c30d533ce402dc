// What a search is to solve.
use sizes::trials::Prepared;

// A prepared table, and its spawns in the preference order, as `WellPosed` says. That is no ghost field: it gives places and depths, and a
// ghost field gives nothing but that it holds.
#[derive(Clone, Copy)]
pub(crate) struct Problem<'a> {
    pub(crate) prepared: &'a Prepared<'a>,
    pub(crate) order: &'a [usize],
}

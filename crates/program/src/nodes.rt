// The fields of a node.
ghost use Rattle.std.specs.Prelude.{◌≡◌, ◌<◌, eqb};
ghost use Rattle.table.specs.Record.{call, spawn, sync, has_target};
ghost use Rattle.table.specs.Program.{program_of};
ghost use Rattle.program.specs.Sort.{number_of};

use crate::Program;
use table::record;

// What a node is.
#[derive(Clone, Copy, Debug, PartialEq, Eq)]
pub enum Sort {
    Plain,
    Call,
    Spawn,
    Sync,
}

impl Program<'_> {
    // The sort of node n: the byte of an accepted table is one of four, so that `TryFrom` would only ask what to do with others.
    #[tactic(auto, using(table::proofs::Ready::sort_given))]
    pub fn sort(&self, n: usize) -> Sort
        requires { n < self.now.of.nodes }
        ensures { number_of result ≡ (program_of self.now.table.now).sort n }
    {
        match record::sort(self.table, self.of.functions + n) {
            0 => Sort::Plain,
            1 => Sort::Call,
            2 => Sort::Spawn,
            _ => Sort::Sync,
        }
    }

    // This and the next two stay methods of their own: one with the sort beside the node would be no shorter where it is called.
    pub fn is_call(&self, n: usize) -> bool
        requires { n < self.now.of.nodes }
        ensures { result ≡ eqb ((program_of self.now.table.now).sort n) call }
    {
        matches!(self.sort(n), Sort::Call)
    }

    pub fn is_spawn(&self, n: usize) -> bool
        requires { n < self.now.of.nodes }
        ensures { result ≡ eqb ((program_of self.now.table.now).sort n) spawn }
    {
        matches!(self.sort(n), Sort::Spawn)
    }

    pub fn is_sync(&self, n: usize) -> bool
        requires { n < self.now.of.nodes }
        ensures { result ≡ eqb ((program_of self.now.table.now).sort n) sync }
    {
        matches!(self.sort(n), Sort::Sync)
    }

    // Whether node n has a target: it is a call or a spawn.
    pub fn has_target(&self, n: usize) -> bool
        requires { n < self.now.of.nodes }
        ensures { result ≡ has_target ((program_of self.now.table.now).sort n) }
    {
        matches!(self.sort(n), Sort::Call | Sort::Spawn)
    }

    // The function that owns node n.
    pub fn owner(&self, n: usize) -> usize
        requires { n < self.now.of.nodes }
        ensures { (result ≡ (program_of self.now.table.now).owner n) × (result < self.now.of.functions) }
    {
        record::field_a(self.table, self.of.functions + n)
    }

    // The target of node n: 0 where it is no call or spawn, as in the program of the specs, of which this promises the number. Some callers read
    // it before they ask what the node is, and the others ask that anyhow: an `Option` would be opened at each of them.
    pub fn target(&self, n: usize) -> usize
        requires { n < self.now.of.nodes }
        ensures { (result ≡ (program_of self.now.table.now).target n) × (result < self.now.of.functions) }
    {
        record::field_b(self.table, self.of.functions + n)
    }
}

// The lines of all functions, and of all spawns.
ghost use Rattle.std.specs.Prelude.{[], ◌+◌, ◌*◌, ◌<◌, ◌≤◌, ◌≡◌, ◌++◌, length};
ghost use Rattle.text.specs.Listing.{joined};
ghost use Rattle.text.specs.Chosen.{four_at, function_text, node_text, text_of};

use crate::chosen::Chosen;
use crate::text::{ROOM, Text};

impl Chosen<'_> {
    // The four sizes at a place: functions stand first, then nodes.
    fn four(&self, place: usize) -> [u32; 4]
        requires { place < self.now.program.of.functions + self.now.program.of.nodes }
        ensures { result ≡ four_at self.now place }
    {
        let at = 4 * place;
        [
            self.sizes[at],
            self.sizes[at + 1],
            self.sizes[at + 2],
            self.sizes[at + 3],
        ]
    }
}

#[tactic(auto, using(crate::proofs::Joining::rows))]
impl Text {
    pub(crate) fn push_functions(&mut self, chosen: &Chosen<'_>)
        requires { length self.old.0.bytes + 107 * chosen.now.program.of.functions ≤ ROOM }
        ensures appended { self.new.0.bytes ≡ self.old.0.bytes ++ joined (function_text chosen.now) chosen.now.program.of.functions }
        ensures room { length self.new.0.bytes ≤ length self.old.0.bytes + 107 * chosen.now.program.of.functions }
    {
        for f in 0..chosen.program.of.functions {
            self.push_function(f, chosen.four(f));
        }
    }

    // The line of node n, if it is a spawn.
    fn push_node(&mut self, chosen: &Chosen<'_>, n: usize)
        requires room { length self.old.0.bytes + 117 ≤ ROOM }
        requires node { n < chosen.now.program.of.nodes }
        ensures appended { self.new.0.bytes ≡ self.old.0.bytes ++ node_text chosen.now n }
        ensures room { length self.new.0.bytes ≤ length self.old.0.bytes + 117 }
    {
        if chosen.program.is_spawn(n) {
            let sizes = chosen.four(chosen.program.of.functions + n);
            self.push_spawn(n, chosen.verdicts[n], sizes);
        }
    }

    pub(crate) fn push_spawns(&mut self, chosen: &Chosen<'_>)
        requires { length self.old.0.bytes + 117 * chosen.now.program.of.nodes ≤ ROOM }
        ensures { self.new.0.bytes ≡ self.old.0.bytes ++ joined (node_text chosen.now) chosen.now.program.of.nodes }
    {
        for n in 0..chosen.program.of.nodes {
            self.push_node(chosen, n);
        }
    }

    // The lines of the functions, and then those of the spawns.
    pub(crate) fn push_listing(&mut self, chosen: &Chosen<'_>)
        requires { self.old.0.bytes ≡ [] }
        ensures { self.new.0.bytes ≡ text_of chosen.now }
    {
        self.push_functions(chosen);
        self.push_spawns(chosen);
    }
}

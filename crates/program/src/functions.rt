// The fields of a function.
ghost use Rattle.std.specs.Prelude.{◌≡◌, ◌<◌, ◌≤◌};
ghost use Rattle.table.specs.Program.{program_of};
ghost use Rattle.program.specs.Frame.{frame_of};

use crate::Program;
use size::Size;
use table::record;

impl Program<'_> {
    // Whether function f is an entry: its sort is a flag, 1 or 0.
    pub fn is_entry(&self, f: usize) -> bool
        requires { f < self.now.of.functions }
        ensures { result ≡ (program_of self.now.table.now).entry f }
    {
        record::sort(self.table, f) == 1
    }

    // The first node of function f.
    pub fn first(&self, f: usize) -> usize
        requires { f < self.now.of.functions }
        ensures { (result ≡ (program_of self.now.table.now).first f) × (result < self.now.of.nodes) }
    {
        record::field_a(self.table, f)
    }

    // The exit node of function f.
    pub fn exit(&self, f: usize) -> usize
        requires { f < self.now.of.functions }
        ensures { (result ≡ (program_of self.now.table.now).exit f) × (result < self.now.of.nodes) }
    {
        record::field_b(self.table, f)
    }

    // What the frame of function f counts as: a number of bytes, or 65,536 where it is unbounded.
    pub fn frame(&self, f: usize) -> u32
        requires { f < self.now.of.functions }
        ensures { (result ≡ frame_of (program_of self.now.table.now) f) × (result ≤ 65536) }
    {
        let bytes = u32::from(record::field_c(self.table, f));
        u32::from(Size::from_frame(bytes))
    }
}

// The fields and the lines of a listing.
ghost use Rattle.std.specs.Prelude.{◌+◌, ◌≤◌, ◌≡◌, ◌++◌, length};
ghost use Rattle.table.specs.Answer.{number_of};
ghost use Rattle.size.specs.Numbers.{at};
ghost use Rattle.text.specs.Listing.{size_field, four_fields, verdict_word, function_line, spawn_line, refusal_line};

use crate::text::{ROOM, Text};
use table::refusal::Refused;

// The word of a spawn's verdict, which is a byte: a choice is bytes, as the caller's buffer has them.
#[tactic(auto, unfolding(crate::specs::Listing::verdict_word))]
fn verdict_word(verdict: u8) -> &'static str
    ensures word { result.now ≡ verdict_word verdict }
    ensures short { length result.now ≤ 9 }
{
    match verdict {
        1 => "unmerged",
        2 => "guarded",
        _ => "unguarded",
    }
}

impl Text {
    // A size, behind a space: its bytes, or `unbounded` for 65,536. `report` has a `Display` for the same, which can't serve here:
    // a formatter may fail, and nothing says that it won't where there is room.
    #[tactic(auto, unfolding(crate::specs::Listing::size_field, crate::specs::Listing::size_text))]
    fn push_size(&mut self, size: u32)
        requires { length self.old.0.bytes + 21 ≤ ROOM }
        ensures appended { self.new.0.bytes ≡ self.old.0.bytes ++ size_field size }
        ensures room { length self.new.0.bytes ≤ length self.old.0.bytes + 21 }
    {
        self.push(" ");
        match size {
            65536 => self.push("unbounded"),
            _ => self.push_decimal(size as usize),
        }
    }

    // The four sizes of a function or a node, by kind.
    #[tactic(auto, unfolding(crate::specs::Listing::four_fields))]
    fn push_four(&mut self, sizes: [u32; 4])
        requires { length self.old.0.bytes + 84 ≤ ROOM }
        ensures appended { self.new.0.bytes ≡ self.old.0.bytes ++ four_fields (at sizes) }
        ensures room { length self.new.0.bytes ≤ length self.old.0.bytes + 84 }
    {
        let [total, post, pre, through] = sizes;
        self.push_size(total);
        self.push_size(post);
        self.push_size(pre);
        self.push_size(through);
    }

    // The line of function f.
    #[tactic(auto, unfolding(crate::specs::Listing::function_line))]
    pub(crate) fn push_function(&mut self, f: usize, sizes: [u32; 4])
        requires { length self.old.0.bytes + 107 ≤ ROOM }
        ensures appended { self.new.0.bytes ≡ self.old.0.bytes ++ function_line (at sizes) f }
        ensures room { length self.new.0.bytes ≤ length self.old.0.bytes + 107 }
    {
        self.push("F ");
        self.push_decimal(f);
        self.push_four(sizes);
        self.push("\n");
    }

    // The line of spawn n.
    #[tactic(auto, unfolding(crate::specs::Listing::spawn_line))]
    pub(crate) fn push_spawn(&mut self, n: usize, verdict: u8, sizes: [u32; 4])
        requires { length self.old.0.bytes + 117 ≤ ROOM }
        ensures appended { self.new.0.bytes ≡ self.old.0.bytes ++ spawn_line verdict (at sizes) n }
        ensures room { length self.new.0.bytes ≤ length self.old.0.bytes + 117 }
    {
        self.push("S ");
        self.push_decimal(n);
        self.push(" ");
        self.push(verdict_word(verdict));
        self.push_four(sizes);
        self.push("\n");
    }

    // `refused N at P`, as a refusal is displayed. A formatter may fail, which a listing can't.
    #[tactic(auto, unfolding(crate::specs::Listing::refusal_line))]
    pub(crate) fn push_refusal(&mut self, refused: Refused)
        requires { length self.old.0.bytes + 53 ≤ ROOM }
        ensures { self.new.0.bytes ≡ self.old.0.bytes ++ refusal_line (number_of refused.cause) refused.place }
    {
        self.push("refused ");
        self.push_decimal(u32::from(refused.cause) as usize);
        self.push(" at ");
        self.push_decimal(refused.place);
        self.push("\n");
    }
}

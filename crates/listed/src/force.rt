// The rules that a choice has, taken from those of the widest one.
ghost use Rattle.std.specs.Prelude.{◌≡◌, [], length};
ghost use Rattle.listed.specs.Listed.{in_force, RoomFor, RulesFor, Widest};

use arrayvec::ArrayVec;
use program::Program;
use rules::targets::rests_on_target;
use solver::rule::Rule;
use sync::Known;

// Whether a choice has the rule that one of those words says: only the sizes of nodes rest on it. Which size of a node that is, the head says by
// number, as in `kinds` of `rules`.
#[tactic(auto, unfolding(crate::specs::Listed::in_force))]
fn has_word(program: &Program<'_>, choice: &[u8], word: u64) -> bool
    ensures { result ≡ in_force choice.now program.now word }
{
    let of = program.of;
    let head = Rule::from(word).head;
    if head < 4 * of.functions || program.entries() <= head {
        return true;
    }
    rests_on_target(program, choice, head / 4 - of.functions, head % 4)
}

// Those of them that a choice has. The library's `extend` answers an error where the vector is full, which can't come here.
pub(crate) fn in_force<const N: usize>(
    known: &Known<'_>,
    choice: &[u8],
    all: &[u64],
    rules: &mut ArrayVec<u64, N>,
)
    requires widest { Widest known.now all.now }
    requires room { (rules.old.items ≡ []) × RoomFor (length all.now) N }
    ensures { RulesFor choice.now known.now (length all.now) rules.new.items }
{
    for word in all {
        if has_word(&known.program, choice, *word) {
            rules.push(*word);
        }
    }
}

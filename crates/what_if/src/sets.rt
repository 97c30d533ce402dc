// The choices of a list, one after another.
ghost use Rattle.std.specs.Prelude.{◌≡◌, ◌||◌, ◌<◌, ℕ, eqb};
ghost use Rattle.sync.specs.Words.{bit};
ghost use Rattle.sizes.specs.Trials.{PreparedFor};
ghost use Rattle.what_if.specs.Call.{LeavesSets, Safeties};
ghost use Rattle.what_if.specs.Fits.{Fits};

use safety::judge;
use sizes::trials::Prepared;

// Where the sizes go: the buffer that is lent to the call, which a closure is lent in its turn.
#[derive(Drop)]
pub(crate) struct Sets<'a> {
    pub(crate) numbers: &'a mut [u32],
}

// The bits with bit i besides.
fn with_bit(bits: u16, i: usize) -> u16
    requires { i < 16 }
    ensures { (j : ℕ) → bit result j ≡ (eqb j i || bit bits j) }
{
    bits | (1u16 << i)
}

// What a list comes to: bit i is 1 exactly when choice i is safe. Of the turns over the rules that this took nothing is promised.
#[derive(Clone, Copy)]
pub struct Told {
    pub bits: u16,
    pub turns: u32,
}

// Judges one after another, each from its part of the list, with its sizes in their part of the buffer.
pub(crate) fn judge_all(
    prepared: &Prepared<'_>,
    number: usize,
    choices: &[u8],
    sets: &mut Sets<'_>,
) -> Told
    requires { PreparedFor prepared.now × Fits prepared.now.known.program.table.now choices.now number sets.old.numbers.now }
    ensures same { sets.new.numbers.ghost_name ≡ sets.old.numbers.ghost_name }
    ensures safe { Safeties prepared.now.known.program.table.now choices.now number result.bits }
    ensures leaves { LeavesSets prepared.now.known.program.table.now choices.now number sets.old.numbers.now sets.new.numbers.now }
{
    let nodes = prepared.known.program.of.nodes;
    let entries = prepared.known.program.entries();
    let mut bits = 0u16;
    let mut turns = 0u32;
    for i in 0..number {
        let from = nodes * i;
        let to = entries * i;
        let choice = &choices[from..from + nodes];
        let set = &mut sets.numbers[to..to + entries];
        let judged = judge(prepared, choice, set);
        turns = turns.saturating_add(judged.turns);
        if judged.safe {
            bits = with_bit(bits, i);
        }
    }
    Told { bits, turns }
}

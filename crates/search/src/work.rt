// How much work a search takes.

// How many trials, and how many turns over the rules in all. Of these numbers nothing is promised.
#[derive(Clone, Copy, Debug, Default)]
pub struct Work {
    pub trials: u32,
    pub turns: u32,
}

impl Work {
    // Counts more of both.
    pub(crate) fn add(&mut self, trials: u32, turns: u32) {
        self.trials = self.trials.wrapping_add(trials);
        self.turns = self.turns.wrapping_add(turns);
    }
}

// How much work the calls do, for the benchmark: trials of the search, and turns over the rules. Nothing is promised of the counts.
#![tactic(auto)]

// Of the best-choice call: 0 and the counts, or the refusal's number.
#[unsafe(no_mangle)]
pub extern "C" fn nagbiro_best_effort(t: &[u8], trials: &mut u32, passes: &mut u32) -> u32 {
    let mut verdicts = [0u8; 512];
    let mut sizes = [0u32; 2304];
    match choice::counted(t, &mut verdicts, &mut sizes) {
        Ok(work) => {
            *trials = work.trials;
            *passes = work.turns;
            0
        }
        Err(refused) => u32::from(refused.cause),
    }
}

// Of a call with a list of choices, whose sizes go into what is lent.
#[unsafe(no_mangle)]
pub extern "C" fn nagbiro_list_effort(
    t: &[u8],
    count: usize,
    choices: &[u8],
    sizes: &mut [u32],
    passes: &mut u32,
) -> u32 {
    match what_if::counted(t, count, choices, sizes) {
        Ok(told) => {
            *passes = told.turns;
            0
        }
        Err(refused) => u32::from(refused.cause),
    }
}

// Of the call for one choice.
#[unsafe(no_mangle)]
pub extern "C" fn nagbiro_one_effort(t: &[u8], choice: &[u8], passes: &mut u32) -> u32 {
    let mut sizes = [0u32; 2304];
    match sizes::counted(t, choice, &mut sizes) {
        Ok(turns) => {
            *passes = turns;
            0
        }
        Err(refused) => u32::from(refused.cause),
    }
}

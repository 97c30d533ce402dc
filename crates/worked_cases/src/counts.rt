// The work that calls take. The counts are held by stored output, and but for one not promised.
use crate::Page;

// In how many passes over the functions the synchronising set is found, the one that adds nothing among them. Where no function reaches itself by
// calls, that there are two at most is promised.
pub fn show_set_passes(page: &mut Page, t: &[u8]) {
    match sync::counted(t) {
        Ok(settled) => {
            page.show(settled.passes);
            page.text(" passes\n");
        }
        Err(refused) => page.refused(refused),
    }
}

// In how many passes the sizes of a choice are found. A loss of speed raises them: to some 4,100 on recursion and on a
// loop that adds up, if entries do not leap to unbounded; to 500 on a line of nodes, if the edges are gone over against
// their way.
pub fn show_passes(page: &mut Page, t: &[u8], choice: &[u8]) {
    // Room for the sizes of the largest table, so that none is refused for it.
    let mut numbers = [0u32; 2304];
    match sizes::counted(t, choice, &mut numbers) {
        Ok(turns) => {
            page.show(turns);
            page.text(" passes\n");
        }
        Err(refused) => page.refused(refused),
    }
}

// How many trials the search for the best choice takes, at most two for each spawn, and how many passes over the rules in
// them. A loss of speed raises them.
pub fn show_trials(page: &mut Page, t: &[u8]) {
    // Room for the largest table, so that none is refused for it.
    let mut verdicts = [0u8; 512];
    let mut sizes = [0u32; 2304];
    match choice::counted(t, &mut verdicts, &mut sizes) {
        Ok(work) => {
            page.show(work.trials);
            page.text(" trials, ");
            page.show(work.turns);
            page.text(" passes\n");
        }
        Err(refused) => page.refused(refused),
    }
}

// The calls of documents 01 and 02, with their answers as text. Each takes where it prints and what the call takes: a value of both would be made for one call.
use crate::Page;
use report::{OLD_SIZE, OLD_VERDICT, kept};
use sync::words::has;
use table::check;

// The functions in the call order.
pub fn show_order(page: &mut Page, t: &[u8]) {
    match call_order::call_order(t) {
        Ok(found) => {
            page.text("order");
            for f in found.as_slice() {
                page.number(usize::from(*f));
            }
            page.end();
        }
        Err(refused) => page.refused(refused),
    }
}

// The nodes of a set.
fn print_nodes(page: &mut Page, set: [u64; 8]) {
    for n in 0..512 {
        if has(set, n) {
            page.number(n);
        }
    }
}

// The two sets that `sync` finds: the synchronising nodes, and those that are reached.
pub fn show_sync(page: &mut Page, t: &[u8]) {
    let (synchronising, reached) = match sync::synchronising(t) {
        Ok(known) => {
            page.accepted(known.program.of);
            (known.synchronising, known.reached)
        }
        Err(refused) => {
            page.refused(refused);
            ([0; 8], [0; 8])
        }
    };
    page.text("  synchronising:");
    print_nodes(page, synchronising);
    page.text("\n  reached:");
    print_nodes(page, reached);
    page.end();
}

// The sizes of a choice, those of functions and of nodes, and how much of its buffer the call left.
pub fn show_sizes(page: &mut Page, t: &[u8], choice: &[u8], sizes: &mut [u32]) {
    match sizes::sizes(t, choice, sizes) {
        Ok(()) => {
            page.text("done\n");
            page.functions(t, sizes);
            page.nodes(t, sizes);
        }
        Err(refused) => page.refused(refused),
    }
    page.text("  kept");
    page.number(kept(sizes, &OLD_SIZE));
    page.end();
}

// Whether a choice is safe, the sizes of functions, and how much of its buffer the call left.
pub fn show_safety(page: &mut Page, t: &[u8], choice: &[u8], sizes: &mut [u32]) {
    match safety::safety(t, choice, sizes) {
        Ok(safe) => {
            page.text(if safe { "safe\n" } else { "unsafe\n" });
            page.functions(t, sizes);
        }
        Err(refused) => page.refused(refused),
    }
    page.text("  kept");
    page.number(kept(sizes, &OLD_SIZE));
    page.end();
}

// The sizes of functions, of so many choices one after another.
fn print_sets(page: &mut Page, t: &[u8], number: usize, sizes: &[u32]) {
    let Ok(of) = check(t) else {
        return;
    };
    let entries = of.functions.saturating_add(of.nodes).saturating_mul(4);
    let mut rest = sizes;
    for _ in 0..number {
        page.functions(t, rest);
        rest = rest.get(entries..).unwrap_or(&[]);
    }
}

// Which choices of a list are safe, the sizes of functions for each, and how much of its buffer the call left. The first byte is the number of
// choices, and those behind it are the list.
pub fn show_list(page: &mut Page, t: &[u8], bytes: &[u8], sizes: &mut [u32]) {
    let Some((number, list)) = bytes.split_first() else {
        return;
    };
    let number = usize::from(*number);
    match what_if::what_if(t, number, list, sizes) {
        Ok(bits) => {
            page.text("safe");
            for i in 0..16usize {
                if (bits >> i) & 1 == 1 {
                    page.number(i);
                }
            }
            page.end();
            print_sets(page, t, number, sizes);
        }
        Err(refused) => page.refused(refused),
    }
    page.text("  kept");
    page.number(kept(sizes, &OLD_SIZE));
    page.end();
}

// The spawns of the table in the preference order, where it is accepted.
fn print_order(page: &mut Page, t: &[u8]) {
    let Ok(arranged) = preference::preference(t) else {
        return;
    };
    page.text("  order");
    for spawn in arranged.order.as_slice() {
        page.number(usize::from(*spawn));
    }
    page.end();
}

// The verdict of each node of the table, as far as the buffer goes.
fn print_verdicts(page: &mut Page, t: &[u8], verdicts: &[u8]) {
    let Ok(of) = check(t) else {
        return;
    };
    page.text("  verdicts");
    for verdict in verdicts.get(..of.nodes).unwrap_or(verdicts) {
        page.number(usize::from(*verdict));
    }
    page.end();
}

// The preference order, the best choice and its sizes, and how much of its two buffers the call left.
pub fn show_best(page: &mut Page, t: &[u8], verdicts: &mut [u8], sizes: &mut [u32]) {
    match choice::best(t, verdicts, sizes) {
        Ok(()) => {
            page.text("done\n");
            print_order(page, t);
            print_verdicts(page, t, verdicts);
            page.functions(t, sizes);
        }
        Err(refused) => {
            page.refused(refused);
            print_order(page, t);
        }
    }
    page.text("  kept");
    page.number(kept(verdicts, &OLD_VERDICT));
    page.number(kept(sizes, &OLD_SIZE));
    page.end();
}

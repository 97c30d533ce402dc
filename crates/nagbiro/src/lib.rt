// The C interface: the calls of the crates below, for a program in C or Rust. include/nagbiro.h declares them.
#![tactic(auto)]

ghost use Rattle.std.specs.Prelude.{◌≡◌, ◌++◌, length, take, drop};
ghost use Rattle.table.specs.Answer.{outcome, number_of};
ghost use Rattle.sync.specs.Words.{Eight};
ghost use Rattle.sizes.specs.Call.{call, call_result, LeavesFor};
ghost use Rattle.choice.specs.Call.{best_call, best_result, LeavesBothFor};
ghost use Rattle.nagbiro.specs.Codes.{table_result, code_of, Told};
ghost use Rattle.what_if.specs.Call.{list_call, what_if_result, LeavesListFor};
ghost use Rattle.stack_usage.specs.Call.{frames_call, frames_result};
ghost use Rattle.stack_usage.specs.Call.{LeavesFor as LeavesFrames};
ghost use Rattle.ordered_table.specs.Call.{writer_call, writer_result};
ghost use Rattle.ordered_table.specs.Call.{LeavesFor as LeavesOrdered};
ghost use Rattle.nagbiro.specs.Left.{Counted, LeavesWords, LeavesOrder, Judges, JudgesList, SaysWritten};

use call_order::call_order;
use ordered_table::ordered;
use stack_usage::frames;
use sync::synchronising;
use table::check;
use table::refusal::Refused;

// What a caller is told of a refusal: its number, and its place.
fn tell(refused: Refused, place: &mut usize) -> u32
    ensures number { result ≡ number_of refused.cause }
    ensures place { place.new ≡ refused.place }
{
    *place = refused.place;
    u32::from(refused.cause)
}

// Checks a table: 0 and its numbers of functions, nodes and edges in a, b and c; or the refusal's number, and its place in a.
#[unsafe(no_mangle)]
pub extern "C" fn nagbiro_check(t: &[u8], a: &mut usize, b: &mut usize, c: &mut usize) -> u32
    ensures code { result ≡ code_of (table_result (outcome t.now)) }
    ensures counts { Counted (outcome t.now) b.old c.old a.new b.new c.new }
{
    match check(t) {
        Ok(of) => {
            *a = of.functions;
            *b = of.nodes;
            *c = of.edges;
            0
        }
        Err(refused) => tell(refused, a),
    }
}

// Writes a list to a buffer: as much of it as there is room for.
fn write_front<T: Copy>(list: &[T], to: &mut [T])
    ensures { to.new ≡ take (length to.old) list.now ++ drop (length list.now) to.old }
{
    let count = to.len().min(list.len());
    to[..count].copy_from_slice(&list[..count]);
}

// Writes the words of a set to a buffer. Says too that there are eight, of 64 bits each.
fn write_words(set: [u64; 8], words: &mut [u64])
    ensures eight { Eight set }
    ensures written { words.new ≡ take (length words.old) set ++ drop 8 words.old }
{
    write_front(&set, words);
}

// Finds the synchronising nodes, one bit for each.
#[unsafe(no_mangle)]
pub extern "C" fn nagbiro_synchronising(t: &[u8], words: &mut [u64], place: &mut usize) -> u32
    ensures told { Told (table_result (outcome t.now)) result place.old place.new }
    ensures leaves { LeavesWords t.now (table_result (outcome t.now)) words.old words.new }
{
    match synchronising(t) {
        Ok(known) => {
            let set = known.synchronising;
            write_words(set, words);
            0
        }
        Err(refused) => tell(refused, place),
    }
}

// Writes the functions in the call order, one byte for each.
#[unsafe(no_mangle)]
pub extern "C" fn nagbiro_call_order(t: &[u8], order: &mut [u8], place: &mut usize) -> u32
    ensures told { Told (table_result (outcome t.now)) result place.old place.new }
    ensures leaves { LeavesOrder t.now (table_result (outcome t.now)) order.old order.new }
{
    match call_order(t) {
        Ok(found) => {
            write_front(found.as_slice(), order);
            0
        }
        Err(refused) => tell(refused, place),
    }
}

// The call for one choice: says whether it is safe, 1 or 0, and writes its sizes.
#[unsafe(no_mangle)]
pub extern "C" fn nagbiro_one_choice(
    t: &[u8],
    choice: &[u8],
    sizes: &mut [u32],
    safe: &mut u32,
    place: &mut usize,
) -> u32
    ensures told { Told (call_result (call t.now choice.now (length sizes.old))) result place.old place.new }
    ensures judges { Judges (call t.now choice.now (length sizes.old)) safe.old safe.new }
    ensures leaves { LeavesFor t.now choice.now sizes.old (call_result (call t.now choice.now (length sizes.old))) sizes.new }
{
    match safety::safety(t, choice, sizes) {
        Ok(is_safe) => {
            *safe = u32::from(is_safe);
            0
        }
        Err(refused) => tell(refused, place),
    }
}

// The call for a list of choices: says which are safe, bit i of `safe` for choice i, and writes their sizes, one set after another.
#[unsafe(no_mangle)]
pub extern "C" fn nagbiro_what_if(
    t: &[u8],
    count: usize,
    choices: &[u8],
    sizes: &mut [u32],
    safe: &mut u16,
    place: &mut usize,
) -> u32
    ensures told { Told (what_if_result (list_call t.now count choices.now (length sizes.old))) result place.old place.new }
    ensures judges { JudgesList (list_call t.now count choices.now (length sizes.old)) safe.old safe.new }
    ensures leaves { LeavesListFor t.now choices.now count sizes.old (what_if_result (list_call t.now count choices.now (length sizes.old))) sizes.new }
{
    match what_if::what_if(t, count, choices, sizes) {
        Ok(bits) => {
            *safe = bits;
            0
        }
        Err(refused) => tell(refused, place),
    }
}

// The best-choice call: writes the best choice, one byte for each node, and its sizes.
#[unsafe(no_mangle)]
pub extern "C" fn nagbiro_best_choice(
    t: &[u8],
    verdicts: &mut [u8],
    sizes: &mut [u32],
    place: &mut usize,
) -> u32
    ensures told { Told (best_result (best_call t.now (length verdicts.old) (length sizes.old))) result place.old place.new }
    ensures leaves { LeavesBothFor t.now verdicts.old verdicts.new sizes.old sizes.new (best_result (best_call t.now (length verdicts.old) (length sizes.old))) }
{
    match choice::best(t, verdicts, sizes) {
        Ok(()) => 0,
        Err(why) => tell(why, place),
    }
}

// Frames from the compiler's report: writes what it counts for each function into the table's own frames.
#[unsafe(no_mangle)]
pub extern "C" fn nagbiro_frames(
    t: &mut [u8],
    names: &[u8],
    report: &[u8],
    place: &mut usize,
) -> u32
    ensures told { Told (frames_result (frames_call t.old names.now report.now)) result place.old place.new }
    ensures leaves { LeavesFrames (frames_call t.old names.now report.now) (frames_result (frames_call t.old names.now report.now)) t.new }
{
    if let Err(why) = frames(t, names, report) {
        return tell(why, place);
    }
    0
}

// The writer: writes a table whose edges stand in any order with its edges in order, each once, and says how many bytes that are.
#[unsafe(no_mangle)]
pub extern "C" fn nagbiro_ordered(
    t: &[u8],
    out: &mut [u8],
    written: &mut usize,
    place: &mut usize,
) -> u32
    ensures told { Told (writer_result (writer_call t.now (length out.old))) result place.old place.new }
    ensures written { SaysWritten (writer_call t.now (length out.old)) written.old written.new }
    ensures leaves { LeavesOrdered t.now out.old (writer_result (writer_call t.now (length out.old))) out.new }
{
    match ordered(t, out) {
        Ok(length) => {
            *written = length;
            0
        }
        Err(refused) => tell(refused, place),
    }
}

// Makes the calls that a script asks for, as `script` reads it, and prints what they answer: on tables and choices whose
// outcomes were worked out from documents 01 and 02, and for the work that calls take.
#![tactic(auto)]

mod cases;
mod counts;
mod names;

use cases::{show_best, show_list, show_order, show_safety, show_sizes, show_sync};
use counts::{show_passes, show_set_passes, show_trials};
use names::Call;
use report::{OLD_SIZE, OLD_VERDICT};
use script::{Choice, Failed, Line, Run, State, read_full};
use std::io;
use std::io::Write;

// What a line of a script makes the program print: there is room for the longest name in a script of 131,072 bytes, and behind it for the longest answer, 576
// rows of at most 48 bytes.
type Page = report::Page<163840>;

// What a call answers to a run on this table. The buffers have room for the largest table and a tail, with old content.
fn show_call(page: &mut Page, call: Call, t: &[u8], run: &Run<'_>, choice: &mut Choice) {
    run.put_choice(choice);
    let choice = choice.as_slice();
    let mut sizes = [OLD_SIZE; 2400];
    let sizes = &mut sizes[..usize::from(run.buffer).min(2400)];
    match call {
        Call::Table => page.checked(table::check(t)),
        Call::Order => show_order(page, t),
        Call::Sync => show_sync(page, t),
        Call::Sizes => show_sizes(page, t, choice, sizes),
        Call::Safety => show_safety(page, t, choice, sizes),
        Call::List => show_list(page, t, choice, sizes),
        Call::Best => {
            let mut verdicts = [OLD_VERDICT; 600];
            show_best(page, t, &mut verdicts[..choice.len().min(600)], sizes);
        }
        Call::SetPasses => show_set_passes(page, t),
        Call::Passes => show_passes(page, t, choice),
        Call::Trials => show_trials(page, t),
    }
}

// What a line of a script makes the program print: `! CALL` as a heading, and for a run `NAME: ` and what the call answers to it.
fn show_line<'a>(page: &mut Page, state: &mut State<'a>, choice: &mut Choice, text: &'a [u8]) {
    let line = Line::read(text);
    state.take(&line);
    match &line {
        Line::Call(call) => {
            page.text("! ");
            page.bytes(call);
            page.end();
        }
        Line::Run(run) => {
            page.bytes(state.name);
            page.text(": ");
            match Call::named(state.call) {
                Some(call) => show_call(page, call, state.table.as_slice(), run, choice),
                None => page.text("no such call\n"),
            }
        }
        _ => {}
    }
}

// What each line makes it print is written before the next line is read.
fn run_script<W: Write>(out: &mut W, text: &[u8]) -> io::Result<()> {
    let mut state = State::new();
    let mut page = Page::new();
    let mut choice = Choice::new();
    for line in text.split(|byte| *byte == b'\n') {
        page.clear();
        show_line(&mut page, &mut state, &mut choice, line);
        out.write_all(page.as_slice())?;
    }
    Ok(())
}

// Reads a script of at most 131,072 bytes from standard input.
fn main(rt: HostRuntime) -> Result<(), Failed> {
    let mut buffer = [0u8; 131072];
    let text = read_full(&mut rt.stdin(), &mut buffer).map_err(Failed::Reading)?;
    run_script(&mut rt.stdout(), text).map_err(Failed::Writing)
}

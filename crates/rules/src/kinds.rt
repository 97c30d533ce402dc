// The rules of the finite system by kind and number, each as numbers: entry `head` is at least `base`, the entry `part` and the entry
// `other`. An entry is a size, by its place in the written order, or a sum of a node, by `Sum::number`. Which of the four sizes of a function or
// a node is meant is a number too, 0 to 3: it is counted with, and an enum would be turned into that number at each place.
ghost use Rattle.std.specs.Prelude.{◌*◌, ◌<◌, ◌/◌, ◌%◌};
ghost use Rattle.table.specs.Record.{edge_from, edge_to};
ghost use Rattle.table.specs.Program.{program_of};
ghost use Rattle.sync.specs.Words.{member};
ghost use Rattle.size.specs.Numbers.{at};
ghost use Rattle.rules.specs.System.{takes, starts, steps, ends, start_form, step_form, end_form, total_node_form, total_edge_form, target_form};
ghost use Rattle.rules.specs.Numbered.{count_of, on_at, form_at, Gives, Means};

use crate::sums::{Sum, frame_size};
use crate::targets::{kind_taken, rests_on_target};
use program::Program;
use solver::rule::Rule;
use sync::Known;

// Which rules: of the sizes of nodes that rest on a target; of a sum of nodes, where it starts, along the edges, and where it is done;
// of Total, by nodes and by edges.
#[derive(Clone, Copy)]
pub enum Kind {
    Target,
    Start(Sum),
    Step(Sum),
    End(Sum),
    TotalNode,
    TotalEdge,
}

// Size k of node n, as number 4 n + k: a call's rests on the same size of its target, a merged spawn's on Total.
fn target_rule(program: &Program<'_>, choice: &[u8], i: usize) -> Option<Rule>
    requires { i < 4 * program.now.of.nodes }
    ensures { Gives (takes (program_of program.now.table.now) (at choice.now) (i / 4) (i % 4)) (target_form (program_of program.now.table.now) (i / 4) (i % 4)) result }
{
    let n = i / 4;
    let k = i % 4;
    let rule = Rule {
        head: 4 * program.of.functions + i,
        base: 0,
        part: 4 * program.target(n) + kind_taken(program, n, k),
        other: None,
    };
    rests_on_target(program, choice, n, k).then_some(rule)
}

// A sum starts at node n.
fn start_rule(program: &Program<'_>, sum: Sum, n: usize) -> Option<Rule>
    requires { n < program.now.of.nodes }
    ensures { Gives (starts (program_of program.now.table.now) sum n) (start_form (program_of program.now.table.now) sum n) result }
{
    let rule = Rule {
        head: sum.number(n),
        base: 0,
        part: 4 * (program.of.functions + n) + sum.kind(),
        other: None,
    };
    sum.starts_at(program, n).then_some(rule)
}

// It runs along the e-th edge.
fn step_rule(known: &Known<'_>, sum: Sum, e: usize) -> Option<Rule>
    requires { e < known.now.program.of.edges }
    ensures { Gives (steps (member known.now.synchronising) (member known.now.reached) sum (edge_from known.now.program.table.now e) (edge_to known.now.program.table.now e)) (step_form (program_of known.now.program.table.now) sum (edge_from known.now.program.table.now e) (edge_to known.now.program.table.now e)) result }
{
    let program = known.program;
    let p = program.edge_from(e);
    let n = program.edge_to(e);
    let (from, to) = sum.ends(p, n);
    let rule = Rule {
        head: sum.number(to),
        base: 0,
        part: sum.number(from),
        other: Some(4 * (program.of.functions + to) + 3),
    };
    sum.steps_on(known, p, n).then_some(rule)
}

// It is done in function f.
fn end_rule(known: &Known<'_>, sum: Sum, f: usize) -> Option<Rule>
    requires { f < known.now.program.of.functions }
    ensures { Gives (ends (program_of known.now.program.table.now) (member known.now.reached) sum f) (end_form (program_of known.now.program.table.now) sum f) result }
{
    let program = known.program;
    let rule = Rule {
        head: 4 * f + sum.kind(),
        base: u32::from(sum.due(&program, f)),
        part: sum.number(sum.ending(&program, f)),
        other: None,
    };
    sum.ends_at(known, f).then_some(rule)
}

// Total of the owner of node n.
fn total_node_rule(program: &Program<'_>, n: usize) -> Rule
    requires { n < program.now.of.nodes }
    ensures { Means (total_node_form (program_of program.now.table.now) n) result }
{
    let f = program.owner(n);
    Rule {
        head: 4 * f,
        base: u32::from(frame_size(program, f)),
        part: 4 * (program.of.functions + n),
        other: None,
    }
}

// Total of the function that has the e-th edge, as the last one of an open path.
fn total_edge_rule(program: &Program<'_>, e: usize) -> Rule
    requires { e < program.now.of.edges }
    ensures { Means (total_edge_form (program_of program.now.table.now) (edge_from program.now.table.now e) (edge_to program.now.table.now e)) result }
{
    let p = program.edge_from(e);
    let n = program.edge_to(e);
    let f = program.owner(n);
    Rule {
        head: 4 * f,
        base: u32::from(frame_size(program, f)),
        part: Sum::After.number(p),
        other: Some(4 * (program.of.functions + n) + 2),
    }
}

// Rule i of a kind, if it is there. The kinds are those of the specs, which go by cases too.
pub fn numbered(kind: Kind, known: &Known<'_>, choice: &[u8], i: usize) -> Option<Rule>
    requires { i < count_of known.now.program.of kind }
    ensures { Gives (on_at choice.now known.now kind i) (form_at known.now.program.table.now kind i) result }
{
    let program = &known.program;
    match kind {
        Kind::Target => target_rule(program, choice, i),
        Kind::Start(sum) => start_rule(program, sum, i),
        Kind::Step(sum) => step_rule(known, sum, i),
        Kind::End(sum) => end_rule(known, sum, i),
        Kind::TotalNode => Some(total_node_rule(program, i)),
        Kind::TotalEdge => Some(total_edge_rule(program, i)),
    }
}

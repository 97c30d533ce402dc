// The rules of a table and a choice, listed as words.
ghost use Rattle.std.specs.Prelude.{◌≡◌, ℕ, ◌+◌, ◌-◌, ◌*◌, ◌<◌, ◌≤◌, []};
ghost use Rattle.arrayvec.specs.ArrayVec.{array_vec_len};
ghost use Rattle.listed.specs.Listed.{node_kind, node_number, edge_kind, function_kind, places_of, slots, kind_at, number_at, place_at, blocks, on_in, form_in, RoomFor, WordFor, Listed, Lengthens, RulesFor};
ghost use Rattle.rules.specs.Numbered.{count_of};

use crate::source::Source;
use arrayvec::ArrayVec;
use order::sure::get;
use rule_order::{Item, Items, order_all};
use rules::kinds::{Kind, numbered};
use rules::sums::Sum;
use solver::rule::Rule;
use std::ops::Range;
use sync::Known;

// The rules of a node, those of an edge that run with it, the one that runs against it, and those of a function.
#[derive(Clone, Copy)]
pub(crate) enum Group {
    Node,
    Edge,
    Back,
    Function,
}

// A rule by its kind and number.
#[derive(Clone, Copy)]
pub(crate) struct Slot {
    pub kind: Kind,
    pub number: usize,
}

// The eight of a node. That each place has its rule is a match by number, which a table of rules would say no plainer,
fn of_node(n: usize, c: usize) -> Slot
    requires { (n < 65536) × (c < 8) }
    ensures { (result.kind ≡ node_kind c) × (result.number ≡ node_number n c) }
{
    match c {
        0 => Slot {
            kind: Kind::TotalNode,
            number: n,
        },
        1 => Slot {
            kind: Kind::Start(Sum::Through),
            number: n,
        },
        2 => Slot {
            kind: Kind::Start(Sum::Before),
            number: n,
        },
        3 => Slot {
            kind: Kind::Start(Sum::After),
            number: n,
        },
        _ => Slot {
            kind: Kind::Target,
            number: 4 * n + (c - 4),
        },
    }
}

// the three of an edge,
fn of_edge(c: usize) -> Kind
    ensures { result ≡ edge_kind c }
{
    match c {
        0 => Kind::Step(Sum::After),
        1 => Kind::Step(Sum::Through),
        _ => Kind::TotalEdge,
    }
}

// and the three of a function.
fn of_function(c: usize) -> Kind
    ensures { result ≡ function_kind c }
{
    match c {
        0 => Kind::End(Sum::After),
        1 => Kind::End(Sum::Before),
        _ => Kind::End(Sum::Through),
    }
}

impl Group {
    // The q-th of these places, counted from the last one where rules run against the edges. They are turned round by hand: an iterator in
    // either direction would be a parameter of `list`, and its contract would have to speak of what that runs over.
    fn place(self, places: &Range<usize>, q: usize) -> usize
        requires { places.now.start + q < places.now.end }
        ensures { result ≡ place_at self places.now.start places.now.end q }
    {
        match self {
            Group::Node | Group::Edge | Group::Function => places.start + q,
            Group::Back => places.end - (q + 1),
        }
    }
}

impl Source<'_> {
    // The kind and number of the rule at place i of a group. The specs give both by group, so four functions in its place would be matched
    // there as well.
    fn slot(&self, group: Group, i: usize) -> Slot
        requires { i < places_of self.now.known.now.program.of group }
        ensures slot_is { (result.kind ≡ kind_at group i) × (result.number ≡ number_at self.now.orders.now group i) }
        ensures within { result.number < count_of self.now.known.now.program.of result.kind }
    {
        match group {
            Group::Node => of_node(get(&self.orders.nodes, i / 8), 7 - i % 8),
            Group::Edge => Slot {
                kind: of_edge(i % 3),
                number: get(&self.orders.edges, i / 3),
            },
            Group::Back => Slot {
                kind: Kind::Step(Sum::Before),
                number: get(&self.orders.edges, i),
            },
            Group::Function => Slot {
                kind: of_function(i % 3),
                number: get(&self.orders.functions, i / 3),
            },
        }
    }

    // The word of the rule at place i of a group, if it is there. No list stands here, so that there is one such function for lists of all
    // sizes, and what it calls is put into it: with a rule handed to the list a large table took a tenth longer.
    fn word_at(&self, group: Group, i: usize) -> Option<u64>
        requires { i < places_of self.now.known.now.program.of group }
        ensures { WordFor self.now group i result }
    {
        let slot = self.slot(group, i);
        numbered(slot.kind, self.known, self.choice, slot.number).map(Rule::packed)
    }

    // Lists the rules of a group at these places. The library's `extend` answers an error where the vector is full, which can't come here.
    fn list<const N: usize>(&self, group: Group, places: Range<usize>, rules: &mut ArrayVec<u64, N>)
        requires places_within { (places.start ≤ places.end) × (places.end ≤ places_of self.now.known.now.program.of group) }
        requires room { RoomFor (array_vec_len rules.old + (places.end - places.start)) N }
        ensures { Lengthens self.now group places.start places.end rules.old.items rules.new.items }
    {
        for q in 0..places.end - places.start {
            if let Some(word) = self.word_at(group, group.place(&places, q)) {
                rules.push(word);
            }
        }
    }

    // Lists the rules of a block: those of the nodes and edges at these places, and of the function at place f.
    fn list_block<const N: usize>(
        &self,
        nodes: Range<usize>,
        edges: Range<usize>,
        f: usize,
        rules: &mut ArrayVec<u64, N>,
    )
        requires nodes_within { (nodes.start ≤ nodes.end) × (nodes.end ≤ self.now.known.now.program.of.nodes) }
        requires edges_within { (edges.start ≤ edges.end) × (edges.end ≤ self.now.known.now.program.of.edges) }
        requires function_within { f < self.now.known.now.program.of.functions }
        requires room { RoomFor (slots self.now.known.now.program.of) N × (array_vec_len rules.old ≤ 8 * nodes.start + 4 * edges.start + 3 * f) }
        requires listed { Listed self.now (blocks nodes.start edges.start f) rules.old.items }
        ensures few { array_vec_len rules.new ≤ 8 * nodes.end + 4 * edges.end + 3 * (f + 1) }
        ensures still_listed { Listed self.now (blocks nodes.end edges.end (f + 1)) rules.new.items }
    {
        self.list(Group::Node, 8 * nodes.start..8 * nodes.end, rules);
        self.list(Group::Edge, 3 * edges.start..3 * edges.end, rules);
        self.list(Group::Back, edges, rules);
        self.list(Group::Function, 3 * f..3 * (f + 1), rules);
    }

    // Lists all rules, function by function.
    #[tactic(auto, using(crate::proofs::Listing::listed_none, table::proofs::Laws::well_formed))]
    fn list_all<const N: usize>(&self, rules: &mut ArrayVec<u64, N>)
        requires { (rules.old.items ≡ []) × RoomFor (slots self.now.known.now.program.of) N }
        ensures few { array_vec_len rules.new ≤ slots self.now.known.now.program.of }
        ensures listed { Listed self.now (blocks self.now.known.now.program.of.nodes self.now.known.now.program.of.edges self.now.known.now.program.of.functions) rules.new.items }
    {
        let program = &self.known.program;
        let of = program.of;
        let functions = &self.orders.functions[..];
        let nodes = &self.orders.nodes[..of.nodes];
        let edges = &self.orders.edges[..of.edges];
        let node = Items {
            program,
            item: Item::Node,
        };
        let edge = Items {
            program,
            item: Item::Edge,
        };
        let mut a = 0;
        let mut b = 0;
        for f in 0..of.functions {
            let left = &functions[f..of.functions];
            let c = node.end_of(nodes, a, left);
            let d = edge.end_of(edges, b, left);
            self.list_block(a..c, b..d, f, rules);
            a = c;
            b = d;
        }
    }
}

// Lists the rules of a table and a choice.
pub(crate) fn list_rules<const N: usize>(
    known: &Known<'_>,
    choice: &[u8],
    rules: &mut ArrayVec<u64, N>,
)
    requires { (rules.old.items ≡ []) × RoomFor (slots known.now.program.of) N }
    ensures { RulesFor choice.now known.now (slots known.now.program.of) rules.new.items }
{
    let orders = order_all(&known.program);
    let source = Source {
        known,
        choice,
        orders: &orders,
    };
    source.list_all(rules);
}

// The places as a graph for Graphviz: a node for each place, an edge for each move, the plan's own heavy.
ghost use Rattle.std.specs.Prelude.{◌≤◌, ◌<◌};
ghost use Rattle.job.specs.Layout.{Fit};

use crate::reach::{is_met, target};
use game::entry::Entry;
use rules::answer::Value;
use telling::names::{Table, put_name, put_place};
use telling::shown::Shown;
use text::Line;

// The beginning of a graph, with an arrow to the place of the start.
pub fn put_begin(line: &mut Line<'_>, start: usize) {
    line.put_word(
        b"digraph plan {\n  rankdir=LR;\n  node [fontname=\"sans-serif\", style=filled];\n",
    );
    line.put_word(b"  edge [fontname=\"sans-serif\"];\n  start [shape=point];\n  start -> p");
    line.put_number((start % 65536) as u32);
    line.put_word(b" [penwidth=3];\n");
}

// The value of a place in words, with its number.
fn put_value(line: &mut Line<'_>, e: Entry) {
    match (Value::try_from(e.value), e.named()) {
        (Ok(Value::Losing), _) => line.put_word(b"losing"),
        (_, None) => line.put_word(b"met"),
        (Ok(Value::Pending), _) => {
            line.put_word(b"pending ");
            line.put_number(u32::from(e.number));
        }
        _ => {
            line.put_word(b"winning ");
            line.put_number(u32::from(e.number));
        }
    }
}

// The shape and the colour of a value; where the goal is met the line is doubled.
fn put_shape(line: &mut Line<'_>, e: Entry) {
    match (Value::try_from(e.value), e.named()) {
        (Ok(Value::Losing), _) => line.put_word(b"shape=octagon, fillcolor=lightpink];\n"),
        (Ok(Value::Pending), _) => line.put_word(b"shape=ellipse, fillcolor=khaki];\n"),
        (_, None) => line.put_word(b"shape=box, peripheries=2, fillcolor=palegreen];\n"),
        _ => line.put_word(b"shape=box, fillcolor=palegreen];\n"),
    }
}

// The beginning of the node of place i: its number, and the names of its state and its goal state.
fn put_label(line: &mut Line<'_>, shown: Shown<'_>, i: usize, s: usize, q: usize) {
    line.put_word(b"  p");
    line.put_number((i % 65536) as u32);
    line.put_word(b" [label=\"");
    put_place(line, shown.states, shown.goals, s, q, b"\\n");
}

// The end of a node, by the entry of its place.
fn put_entry(line: &mut Line<'_>, e: Entry) {
    line.put_word(b"\\n");
    put_value(line, e);
    line.put_word(b"\", ");
    put_shape(line, e);
}

// The node of place i, or nothing where the plan has no such place.
pub fn put_node(line: &mut Line<'_>, shown: Shown<'_>, i: usize)
    requires { 1 ≤ shown.layout.goals }
{
    if i < shown.plan.len() / 4 {
        let e = rules::entry::read_entry(shown.plan, i);
        let goals = shown.layout.goals;
        put_label(line, shown, i, i / goals, i % goals);
        put_entry(line, e);
    }
}

// How an edge is drawn: heavy where the plan makes the move.
fn put_weight(line: &mut Line<'_>, own: bool) {
    if own {
        line.put_word(b"\", penwidth=3];\n");
    } else {
        line.put_word(b"\", color=gray50, fontcolor=gray50, style=dashed];\n");
    }
}

// The edge from one place to another by an action.
fn put_edge(line: &mut Line<'_>, actions: Table<'_>, i: usize, j: usize, action: usize, own: bool) {
    line.put_word(b"  p");
    line.put_number((i % 65536) as u32);
    line.put_word(b" -> p");
    line.put_number((j % 65536) as u32);
    line.put_word(b" [label=\"");
    put_name(line, actions, action);
    put_weight(line, own);
}

// The edge of record k from place i, or nothing where it is no move from there. Where the goal is met a run ends.
pub fn put_move(line: &mut Line<'_>, shown: Shown<'_>, i: usize, k: usize)
    requires fit { Fit shown.job.now shown.layout }
    requires k_lt_records { k < shown.layout.records }
{
    if shown.plan.len() / 4 <= i {
        return;
    }
    let e = rules::entry::read_entry(shown.plan, i);
    let m = job::ask::move_at(shown.job, shown.layout, k);
    if is_met(e) || usize::from(m.state) != i / shown.layout.goals {
        return;
    }
    put_edge(
        line,
        shown.actions,
        i,
        target(shown.job, shown.layout, i, k),
        usize::from(m.action),
        m.action == e.action,
    );
}

// The formula judge and the walks over later labels, which call each other: formula nodes and labels left fall.
ghost use Rattle.std.specs.Prelude.{◌≡◌};
ghost use Rattle.judging.specs.Walking.{Ready, TwoReady, JudgedAt, BothAt, NextAt, UntilAt, EverAt, denied};

use crate::read::Node;

// Whether a formula holds, and where its bytes end: who judges the first of two parts learns so where the second one stands.
#[derive(Clone, Copy, Debug, PartialEq, Eq)]
pub struct Part {
    pub holds: bool,
    pub end: usize,
}

// The same formula, denied.
fn deny(p: Part) -> Part
    ensures { result ≡ denied p }
{
    Part {
        holds: !p.holds,
        end: p.end,
    }
}

// Whether the formula that stands at a byte holds at moment i of the trace.
#[cycle(both_ever_walk_judge_next_until_walk)]
pub fn judge(f: &[u8], at: usize, t: &[u8], i: usize) -> Part
    requires { Ready f.now at t.now i }
    ensures { JudgedAt f.now at t.now i result }
{
    match crate::read::node_of(f[at]) {
        Node::Atom => Part {
            holds: sets::label::has_proposition(t[i], f[at]),
            end: at + 1,
        },
        Node::Not => deny(judge(f, at + 1, t, i)),
        Node::And => both(f, at + 1, t, i),
        Node::Next => next(f, at + 1, false, t, i),
        Node::Until => until_walk(f, at + 1, t, i),
        Node::WeakNext => next(f, at + 1, true, t, i),
        Node::Eventually => ever_walk(f, at + 1, true, t, i),
        Node::Always => deny(ever_walk(f, at + 1, false, t, i)),
        Node::Malformed => Part {
            holds: false,
            end: at + 1,
        },
    }
}

// Whether two formulas in a row hold at moment i.
#[cycle(both_ever_walk_judge_next_until_walk)]
fn both(f: &[u8], at: usize, t: &[u8], i: usize) -> Part
    requires { TwoReady f.now at t.now i }
    ensures { BothAt f.now at t.now i result }
{
    let p = judge(f, at, t, i);
    let q = judge(f, p.end, t, i);
    if p.holds {
        return q;
    }
    Part {
        holds: false,
        end: q.end,
    }
}

// Whether the formula holds at the moment after i; at the last one, as is said. There it is judged for its end alone.
#[cycle(both_ever_walk_judge_next_until_walk)]
fn next(f: &[u8], at: usize, last: bool, t: &[u8], i: usize) -> Part
    requires { Ready f.now at t.now i }
    ensures { NextAt f.now at last t.now i result }
{
    if i + 1 < t.len() {
        return judge(f, at, t, i + 1);
    }
    let p = judge(f, at, t, i);
    Part {
        holds: last,
        end: p.end,
    }
}

// Whether, from moment i on, the second of two formulas in a row holds at some moment, and the first at all before it.
#[cycle(both_ever_walk_judge_next_until_walk)]
fn until_walk(f: &[u8], at: usize, t: &[u8], i: usize) -> Part
    requires { TwoReady f.now at t.now i }
    ensures { UntilAt f.now at t.now i result }
{
    let first = judge(f, at, t, i);
    let second = judge(f, first.end, t, i);
    if second.holds {
        return second;
    }
    if !first.holds {
        return second;
    }
    if i + 1 < t.len() {
        return until_walk(f, at, t, i + 1);
    }
    Part {
        holds: second.holds,
        end: second.end,
    }
}

// Whether, from moment i on, the formula is as wanted at some moment.
#[cycle(both_ever_walk_judge_next_until_walk)]
fn ever_walk(f: &[u8], at: usize, wanted: bool, t: &[u8], i: usize) -> Part
    requires { Ready f.now at t.now i }
    ensures { EverAt f.now at wanted t.now i result }
{
    let p = judge(f, at, t, i);
    if p.holds == wanted {
        return Part {
            holds: true,
            end: p.end,
        };
    }
    if t.len() <= i + 1 {
        return Part {
            holds: false,
            end: p.end,
        };
    }
    ever_walk(f, at, wanted, t, i + 1)
}

// The goal states of a goal in clauses, told in words: what each clause has seen so far.
#![tactic(auto)]

ghost use Rattle.std.specs.Prelude.{◌≤◌, length};
ghost use Rattle.std.specs.List.{All};
ghost use Rattle.seen.specs.Kept.{Grown};

use lines::line::{Lines, Words};
use lines::names::Span;
use std::iter::Fuse;
use text::Line;

// The word by which a line says a clause.
#[derive(Clone, Copy, Debug, PartialEq, Eq)]
enum Kind {
    Eventually,
    Never,
    Whenever,
    Before,
}

// A clause of a text: its kind and its two facts, or its one fact twice.
#[derive(Clone, Copy, Debug)]
struct Clause<'a> {
    kind: Kind,
    one: &'a [u8],
    other: &'a [u8],
}

// The next word of a line, or no bytes where the line is at its end, which is looked for once.
fn next_or_none<'a>(line: &mut Fuse<Words<'a>>) -> &'a [u8] {
    match line.next() {
        Some(word) => word.bytes(),
        None => b"",
    }
}

// The clause that a line says, if it says one.
fn clause_of(line: Words<'_>) -> Option<Clause<'_>> {
    let mut line = line.fuse();
    let first = next_or_none(&mut line);
    let second = next_or_none(&mut line);
    let third = next_or_none(&mut line);
    let fourth = next_or_none(&mut line);
    let (kind, one, other) = if first == b"eventually".as_slice() {
        (Kind::Eventually, second, second)
    } else if first == b"never".as_slice() {
        (Kind::Never, second, second)
    } else if first == b"whenever".as_slice() {
        (Kind::Whenever, second, fourth)
    } else if second == b"before".as_slice() {
        (Kind::Before, first, third)
    } else {
        return None;
    };
    Some(Clause { kind, one, other })
}

// One clause more: a goal has three at most.
fn one_more(n: usize) -> usize {
    n.saturating_add(1).min(3)
}

// How many clauses a text has.
pub fn count(text: &[u8]) -> usize {
    let mut n: usize = 0;
    for line in Lines::of(text) {
        if clause_of(line).is_some() {
            n = one_more(n);
        }
    }
    n
}

// A word before a fact, the fact, and a word after it.
fn put_around(line: &mut Line<'_>, before: &[u8], fact: &[u8], after: &[u8])
    ensures { Grown line.old line.new }
{
    line.put_word(before);
    line.put_word(fact);
    line.put_word(after);
}

// What a clause has seen so far, by its goal state.
fn put_seen(line: &mut Line<'_>, kind: Kind, one: &[u8], other: &[u8], q: usize)
    ensures { Grown line.old line.new }
{
    match (kind, q) {
        (Kind::Eventually, 0) => put_around(line, b"not yet ", one, b""),
        (Kind::Eventually, _) => put_around(line, b"", one, b" seen"),
        (Kind::Never, 0) => put_around(line, b"never ", one, b" so far"),
        (Kind::Never, _) => put_around(line, b"broken by ", one, b""),
        (Kind::Whenever, 0) => put_around(line, b"no ", other, b" owed"),
        (Kind::Whenever, _) => put_around(line, b"", other, b" owed"),
        (Kind::Before, 0) => put_around(line, b"before ", one, b""),
        (Kind::Before, 1) => put_around(line, b"", one, b" seen"),
        (Kind::Before, _) => put_around(line, b"", other, b" came too soon"),
    }
}

// The goal state that a clause is in where all n of them are in goal state q, by how many clauses come before it; none where it is one too many.
fn goal_of_clause(q: usize, n: usize, before: usize) -> Option<usize> {
    match n.saturating_sub(before) {
        0 => None,
        1 => Some(q % 3),
        2 => Some(q / 3 % 3),
        _ => Some(q / 9 % 3),
    }
}

// What a clause has seen so far in its goal state q, after a comma where it is not the first in the line from a position on.
fn put_clause(line: &mut Line<'_>, first: usize, c: Clause<'_>, q: usize)
    ensures { Grown line.old line.new }
{
    if line.at != first {
        line.put_word(b", ");
    }
    put_seen(line, c.kind, c.one, c.other, q);
}

// The goal state q of the n clauses of a text.
pub fn put_goal(line: &mut Line<'_>, text: &[u8], n: usize, q: usize)
    ensures { Grown line.old line.new }
{
    let first = line.at;
    let mut k: usize = 0;
    for words in Lines::of(text) {
        if let Some(c) = clause_of(words) {
            if let Some(own) = goal_of_clause(q, n, k) {
                put_clause(line, first, c, own);
            }
            k = one_more(k);
        }
    }
}

// Tells each goal state of the clauses of a text, and keeps where it stands.
pub fn list(phrases: &mut [u8], goals: &mut [Span], text: &[u8])
    ensures { All (λ s. (s.start ≤ s.end) × (s.end ≤ length phrases.new)) goals.new }
{
    let n = count(text);
    let mut line = Line {
        bytes: phrases,
        at: 0,
    };
    for q in 0..goals.len() {
        let start = line.at;
        put_goal(&mut line, text, n, q);
        goals[q] = Span {
            start,
            end: line.at,
        };
    }
}

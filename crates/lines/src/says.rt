// What the lines of a text say of moves and of facts, gathered in sets of numbers.
ghost use Rattle.std.specs.Prelude.{◌≡◌, ◌+◌, ◌*◌, ◌≤◌, ◌<◌};
ghost use Rattle.lines.specs.Words.{lines};
ghost use Rattle.lines.specs.Tables.{names_of, count_of};
ghost use Rattle.lines.specs.Steps.{words_left};
ghost use Rattle.lines.specs.Numbers.{Gains};
ghost use Rattle.lines.specs.Says.{some_of, names_some, says_after, says_action, says_move, says_fact};

use crate::line::{Lines, Words};
use crate::names::Names;
use crate::numbers::Bits;

// For each state, action and outcome whether a text says it, and for each state its facts.
pub type Moves = Bits<524288>;

pub type Facts = Bits<512>;

// Puts base + x into the set for each word of the line that is name x.
fn add_words<const N: usize>(set: &mut Bits<N>, line: Words<'_>, names: Names<'_>, base: usize)
    requires { (base + count_of names ≤ 8 * N) × (N ≤ 524288) }
    ensures { Gains set.old.bytes set.new.bytes (λ j. names_some (names_of names.entry) base j (words_left line.entry)) }
{
    for w in line {
        if let Some(x) = names.find(w.bytes()) {
            set.insert(base + x);
        }
    }
}

// The same for the words after a key, if the key comes next.
fn add_after<const N: usize>(
    set: &mut Bits<N>,
    mut line: Words<'_>,
    key: &[u8],
    names: Names<'_>,
    base: usize,
)
    requires { (base + count_of names ≤ 8 * N) × (N ≤ 524288) }
    ensures { Gains set.old.bytes set.new.bytes (λ j. says_after key.now (names_of names.entry) base j (words_left line.entry)) }
{
    if let Some(w) = line.next() {
        if w.is(key) {
            add_words(set, line, names, base);
        }
    }
}

// Puts the moves of state i that the rest of a line says into the set.
fn add_action(set: &mut Moves, mut line: Words<'_>, states: Names<'_>, actions: Names<'_>, i: usize)
    requires { (i < 512) × (count_of states ≤ 512) × (count_of actions ≤ 16) }
    ensures { Gains set.old.bytes set.new.bytes (λ j. says_action (names_of states.entry) (names_of actions.entry) i j (words_left line.entry)) }
{
    if let Some(w) = line.next() {
        if let Some(k) = actions.find(w.bytes()) {
            add_after(set, line, b"->", states, (i * 16 + k) * 512);
        }
    }
}

// Puts the moves that a line says into the set.
fn move_line(set: &mut Moves, mut line: Words<'_>, states: Names<'_>, actions: Names<'_>)
    requires { (count_of states ≤ 512) × (count_of actions ≤ 16) }
    ensures { Gains set.old.bytes set.new.bytes (λ j. says_move (names_of states.entry) (names_of actions.entry) j (words_left line.entry)) }
{
    if let Some(w) = line.next() {
        if let Some(i) = states.find(w.bytes()) {
            add_action(set, line, states, actions, i);
        }
    }
}

// Puts the facts that a line says of a state into the set.
fn fact_line(
    set: &mut Facts,
    mut line: Words<'_>,
    states: Names<'_>,
    facts: Names<'_>,
    shift: usize,
)
    requires { (count_of states ≤ 512) × (shift + count_of facts ≤ 8) }
    ensures { Gains set.old.bytes set.new.bytes (λ j. says_fact (names_of states.entry) (names_of facts.entry) shift j (words_left line.entry)) }
{
    if let Some(w) = line.next() {
        if let Some(i) = states.find(w.bytes()) {
            add_after(set, line, b"is", facts, 8 * i + shift);
        }
    }
}

// Puts the moves that the text says into the set.
pub fn moves(set: &mut Moves, text: &[u8], states: Names<'_>, actions: Names<'_>)
    requires { (count_of states ≤ 512) × (count_of actions ≤ 16) }
    ensures { Gains set.old.bytes set.new.bytes (λ j. some_of (says_move (names_of states.entry) (names_of actions.entry) j) (lines text.now)) }
{
    for line in Lines::of(text) {
        move_line(set, line, states, actions);
    }
}

// Puts the facts that the text says of states into the set, each for a state s at 8·s + shift and up.
pub fn facts(set: &mut Facts, text: &[u8], states: Names<'_>, facts: Names<'_>, shift: usize)
    requires { (count_of states ≤ 512) × (shift + count_of facts ≤ 8) }
    ensures { Gains set.old.bytes set.new.bytes (λ j. some_of (says_fact (names_of states.entry) (names_of facts.entry) shift j) (lines text.now)) }
{
    for line in Lines::of(text) {
        fact_line(set, line, states, facts, shift);
    }
}

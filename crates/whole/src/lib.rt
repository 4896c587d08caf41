// Whether no word of a text's moves, facts and clauses is skipped.
#![tactic(auto)]

ghost use Rattle.std.specs.Prelude.{◌≡◌, true};
ghost use Rattle.lines.specs.Words.{lines};
ghost use Rattle.lines.specs.Steps.{bytes_of, words_left};
ghost use Rattle.lines.specs.Tables.{names_of};
ghost use Rattle.whole.specs.Whole.{known, fits, listing, over, sole, then_sole, whole_clause, whole_facts, whole_move, whole_rest};
ghost use Rattle.whole.specs.Whole.{whole_line, whole};

use lines::line::{Lines, Word, Words};
use lines::names::Names;

// Whether a word is one of the names.
#[tactic(auto, using(crate::proofs::Judging::known_found))]
fn is_known(names: Names<'_>, word: Word<'_>) -> bool
    ensures { result ≡ known (names_of names.entry) (bytes_of word.entry) }
{
    names.find(word.bytes()).is_some()
}

// Whether a word is one of the names, or the other word that may stand for a name.
#[tactic(auto, unfolding(crate::specs::Whole::fits))]
fn is_fit(names: Names<'_>, also: &[u8], word: Word<'_>) -> bool
    ensures { result ≡ fits (names_of names.entry) also.now (bytes_of word.entry) }
{
    word.is(also) || is_known(names, word)
}

// Whether names follow up to the end of the line, at least one, with a mark between each and the next.
#[tactic(auto, unfolding(crate::specs::Whole::listing))]
fn is_listing(line: Words<'_>, names: Names<'_>, also: &[u8], mark: &[u8]) -> bool
    ensures { result ≡ listing (names_of names.entry) also.now mark.now true (words_left line.entry) }
{
    let mut due = true;
    for word in line {
        if due && !is_fit(names, also, word) {
            return false;
        }
        if !due && !word.is(mark) {
            return false;
        }
        due = !due;
    }
    !due
}

// Whether no word follows on the line.
#[tactic(auto, unfolding(crate::specs::Whole::over))]
fn is_over(mut rest: Words<'_>) -> bool
    ensures { result ≡ over (words_left rest.entry) }
{
    rest.next().is_none()
}

// Whether one word follows, which is one of the facts.
#[tactic(auto, unfolding(crate::specs::Whole::sole))]
fn is_sole(mut rest: Words<'_>, facts: Names<'_>) -> bool
    ensures { result ≡ sole (names_of facts.entry) (words_left rest.entry) }
{
    match rest.next() {
        Some(word) => is_known(facts, word) && is_over(rest),
        None => false,
    }
}

// Whether the word then follows, and after it one of the facts alone.
#[tactic(auto, unfolding(crate::specs::Whole::then_sole))]
fn is_then_sole(mut rest: Words<'_>, facts: Names<'_>) -> bool
    ensures { result ≡ then_sole (names_of facts.entry) (words_left rest.entry) }
{
    match rest.next() {
        Some(word) => word.is(b"then") && is_sole(rest, facts),
        None => false,
    }
}

// Whether a line is a whole clause, by its first two words and those after them.
#[tactic(auto, unfolding(crate::specs::Whole::whole_clause))]
fn is_clause(one: Word<'_>, two: Word<'_>, rest: Words<'_>, facts: Names<'_>) -> bool
    ensures { result ≡ whole_clause (names_of facts.entry) (bytes_of one.entry) (bytes_of two.entry) (words_left rest.entry) }
{
    if one.is(b"eventually") || one.is(b"never") {
        return is_known(facts, two) && is_over(rest);
    }
    if one.is(b"whenever") {
        return is_known(facts, two) && is_then_sole(rest, facts);
    }
    two.is(b"before") && is_known(facts, one) && is_sole(rest, facts)
}

// Whether a line of facts is whole, by its first word and those after the word is.
#[tactic(auto, unfolding(crate::specs::Whole::whole_facts))]
fn is_fact_line(one: Word<'_>, rest: Words<'_>, states: Names<'_>, facts: Names<'_>) -> bool
    ensures { result ≡ whole_facts (names_of states.entry) (names_of facts.entry) (bytes_of one.entry) (words_left rest.entry) }
{
    is_known(states, one) && is_listing(rest, facts, b"busy", b",")
}

// Whether a line of moves is whole, by its first two words and those after the arrow.
#[tactic(auto, unfolding(crate::specs::Whole::whole_move))]
fn is_move_line(
    one: Word<'_>,
    two: Word<'_>,
    rest: Words<'_>,
    states: Names<'_>,
    actions: Names<'_>,
) -> bool
    ensures { result ≡ whole_move (names_of states.entry) (names_of actions.entry) (bytes_of one.entry) (bytes_of two.entry) (words_left rest.entry) }
{
    is_known(states, one) && is_known(actions, two) && is_listing(rest, states, b"", b"|")
}

// Whether a line is a whole move or clause, by its first two words and those after them.
#[tactic(auto, unfolding(crate::specs::Whole::whole_rest))]
fn is_rest(
    one: Word<'_>,
    two: Word<'_>,
    rest: Words<'_>,
    states: Names<'_>,
    actions: Names<'_>,
    facts: Names<'_>,
) -> bool
    ensures { result ≡ whole_rest (names_of states.entry) (names_of actions.entry) (names_of facts.entry) (bytes_of one.entry) (bytes_of two.entry)
        (words_left rest.entry) }
{
    let mut after = rest;
    match after.next() {
        Some(three) if three.is(b"->") => is_move_line(one, two, after, states, actions),
        _ => is_clause(one, two, rest, facts),
    }
}

// Whether no word of a line is skipped.
#[tactic(auto, unfolding(crate::specs::Whole::whole_line))]
fn is_whole_line(
    mut line: Words<'_>,
    states: Names<'_>,
    actions: Names<'_>,
    facts: Names<'_>,
) -> bool
    ensures { result ≡ whole_line (names_of states.entry) (names_of actions.entry) (names_of facts.entry) (words_left line.entry) }
{
    let Some(one) = line.next() else {
        return true;
    };
    let Some(two) = line.next() else {
        return false;
    };
    if two.is(b":") {
        return true;
    }
    if two.is(b"is") {
        return is_fact_line(one, line, states, facts);
    }
    is_rest(one, two, line, states, actions, facts)
}

// Whether no word of a text's moves, facts and clauses is skipped.
#[tactic(auto, unfolding(crate::specs::Whole::every_of))]
pub fn is_whole(text: &[u8], states: Names<'_>, actions: Names<'_>, facts: Names<'_>) -> bool
    ensures { result ≡ whole (names_of states.entry) (names_of actions.entry) (names_of facts.entry) (lines text.now) }
{
    for line in Lines::of(text) {
        if !is_whole_line(line, states, actions, facts) {
            return false;
        }
    }
    true
}

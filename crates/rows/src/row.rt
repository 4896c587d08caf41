// The rows of a goal's table: where the first one leads that fits a goal state and a label.
ghost use Rattle.std.specs.Prelude.{◌≡◌, false, ◌≤◌, ◌<◌, eqb, IfSome};
ghost use Rattle.lines.specs.Words.{lines};
ghost use Rattle.lines.specs.Steps.{bytes_of, words_left};
ghost use Rattle.lines.specs.Tables.{names_of, count_of};
ghost use Rattle.lines.specs.Names.{index_of, found};
ghost use Rattle.rows.specs.Rows.{to_goal, aim, row_aim, first_aim, next_said};
ghost use Rattle.rows.specs.Cells.{lets};

use lines::line::{Lines, Word, Words};
use lines::names::Names;
use lines::word::is_same;

// Whether a word of a row, which is not the arrow, lets the row fit still; ban: whether "not" came before it.
fn lets(word: Word<'_>, facts: Names<'_>, l: u8, ban: bool) -> bool
    requires { count_of facts ≤ 6 }
    ensures { result ≡ lets (names_of facts.entry) l ban (bytes_of word.entry) }
{
    if word.is(b",") || word.is(b"not") {
        return true;
    }
    // a word that is no fact has the number after the last
    let k = facts.find(word.bytes()).unwrap_or(facts.len());
    sets::label::has_proposition(l, k as u8) != ban
}

// The goal state that the next word names.
#[tactic(auto, using(lines::proofs::Tabling::names_counted), unfolding(crate::specs::Rows::to_goal))]
fn to_goal(mut rest: Words<'_>, goals: Names<'_>) -> Option<usize>
    ensures index { found result (count_of goals.entry) ≡ to_goal (names_of goals.entry) (words_left rest.entry) }
    ensures within { IfSome result (λ k. k < count_of goals.entry) }
{
    let word = rest.next()?;
    goals.find(word.bytes())
}

// Where a row leads under a label, by its words after the colon.
fn aim(mut rest: Words<'_>, facts: Names<'_>, goals: Names<'_>, l: u8) -> Option<usize>
    requires { count_of facts ≤ 6 }
    ensures index { found result (count_of goals.entry) ≡ aim (names_of facts.entry) (names_of goals.entry) l false (words_left rest.entry) }
    ensures within { IfSome result (λ k. k < count_of goals.entry) }
{
    let mut ban = false;
    while let Some(word) = rest.next() {
        if word.is(b"->") {
            return to_goal(rest, goals);
        }
        if !lets(word, facts, l, ban) {
            return None;
        }
        ban = word.is(b"not");
    }
    None
}

// Whether a word names goal state q. A word that is spelt in another way is known after one comparison, and most are.
fn names_it(goals: Names<'_>, q: usize, word: Word<'_>) -> bool
    requires { q < count_of goals }
    ensures { result ≡ eqb (index_of (names_of goals.entry) (bytes_of word.entry)) q }
{
    is_same(goals.get(q), word.bytes()) && goals.find(word.bytes()) == Some(q)
}

// Where a line leads from goal state q, if it is a row of it. A line whose second word is no colon is passed over before any name is looked up.
#[tactic(auto, using(lines::proofs::Tabling::names_counted), unfolding(crate::specs::Rows::row_aim))]
fn row_aim(
    mut line: Words<'_>,
    facts: Names<'_>,
    goals: Names<'_>,
    q: usize,
    l: u8,
) -> Option<usize>
    requires { (count_of facts ≤ 6) × (q < count_of goals) }
    ensures index { found result (count_of goals.entry) ≡ row_aim (names_of facts.entry) (names_of goals.entry) q l (words_left line.entry) }
    ensures within { IfSome result (λ k. k < count_of goals.entry) }
{
    let one = line.next()?;
    let two = line.next()?;
    if !two.is(b":") || !names_it(goals, q, one) {
        return None;
    }
    aim(line, facts, goals, l)
}

// Where the first row of the text leads that fits goal state q and a label.
fn first_aim(text: &[u8], facts: Names<'_>, goals: Names<'_>, q: usize, l: u8) -> Option<usize>
    requires { (count_of facts ≤ 6) × (q < count_of goals) }
    ensures index { found result (count_of goals.entry) ≡ first_aim (names_of facts.entry) (names_of goals.entry) q l (lines text.now) }
    ensures within { IfSome result (λ k. k < count_of goals.entry) }
{
    for line in Lines::of(text) {
        if let Some(to) = row_aim(line, facts, goals, q, l) {
            return Some(to);
        }
    }
    None
}

// The next goal state for goal state q under a label.
pub fn next_said(text: &[u8], facts: Names<'_>, goals: Names<'_>, q: usize, l: u8) -> usize
    requires { (count_of facts ≤ 6) × (q < count_of goals) }
    ensures { result ≡ next_said (names_of facts.entry) (names_of goals.entry) (lines text.now) q l }
{
    first_aim(text, facts, goals, q, l).unwrap_or(q)
}

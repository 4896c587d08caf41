// What the lines of a text say of the start, of the first goal state, and of the clauses of the goal.
#![tactic(auto)]

ghost use Rattle.std.specs.Prelude.{◌≡◌, ◌≤◌, ◌<◌, IfSome};
ghost use Rattle.text.specs.PutText.{PutText};
ghost use Rattle.text.specs.Puts.{Puts};
ghost use Rattle.lines.specs.Words.{lines};
ghost use Rattle.lines.specs.Names.{index_of, found};
ghost use Rattle.lines.specs.Steps.{bytes_of, words_left};
ghost use Rattle.lines.specs.Tables.{names_of, count_of};
ghost use Rattle.slips.specs.Writing.{kind_number};
ghost use Rattle.aims.specs.Aims.{given, three, whenever_said, before_said, clause_of, no_clause, clause_said, clauses_said};

use lines::line::{Lines, Word, Words};
use lines::names::Names;
use slips::kind::Kind;
use text::Line;

// The number of the name that the first line with a key and a colon names, if that is one of the names.
#[tactic(auto, using(lines::proofs::Tabling::names_counted), unfolding(crate::specs::Aims::given, crate::specs::Aims::named_first))]
pub fn given(text: &[u8], key: &[u8], names: Names<'_>) -> Option<usize>
    ensures index { found result (count_of names.entry) ≡ given key.now (names_of names.entry) (lines text.now) }
    ensures within { IfSome result (λ k. k < count_of names.entry) }
{
    for line in Lines::of(text) {
        if let Some(mut rest) = line.after_key(key) {
            if let Some(word) = rest.next() {
                return names.find(word.bytes());
            }
        }
    }
    None
}

// Puts a clause of a kind with two facts, which are given by their words. A word that is no fact has the number after the last.
fn put_three(slip: &mut Line<'_>, kind: Kind, facts: Names<'_>, one: Word<'_>, other: Word<'_>)
    requires { count_of facts ≤ 6 }
    ensures { Puts slip.old
        (three (kind_number kind) (index_of (names_of facts.entry) (bytes_of one.entry))
        (index_of (names_of facts.entry) (bytes_of other.entry)))
        slip.new }
{
    let a = facts.find(one.bytes()).unwrap_or(facts.len());
    let b = facts.find(other.bytes()).unwrap_or(facts.len());
    slip.put(u8::from(kind));
    slip.put(a as u8);
    slip.put(b as u8);
}

// Puts the clause of a line "whenever F then G", from after F on.
#[tactic(auto, using(crate::proofs::Aiming::put_same, crate::proofs::Aiming::put_nothing), unfolding(crate::specs::Aims::whenever_said))]
fn put_whenever(slip: &mut Line<'_>, mut rest: Words<'_>, one: Word<'_>, facts: Names<'_>)
    requires { count_of facts ≤ 6 }
    ensures { Puts slip.old
        (whenever_said (names_of facts.entry) (index_of (names_of facts.entry) (bytes_of one.entry)) (words_left rest.entry))
        slip.new }
{
    if let (Some(then), Some(other)) = (rest.next(), rest.next()) {
        if then.is(b"then") {
            put_three(slip, Kind::Response, facts, one, other);
        }
    }
}

// Puts the clause of a line "F before G", from after the word before on.
#[tactic(auto, using(crate::proofs::Aiming::put_same, crate::proofs::Aiming::put_nothing), unfolding(crate::specs::Aims::before_said))]
fn put_before(slip: &mut Line<'_>, mut rest: Words<'_>, one: Word<'_>, facts: Names<'_>)
    requires { count_of facts ≤ 6 }
    ensures { Puts slip.old
        (before_said (names_of facts.entry) (index_of (names_of facts.entry) (bytes_of one.entry)) (words_left rest.entry))
        slip.new }
{
    if let Some(other) = rest.next() {
        put_three(slip, Kind::Precedence, facts, one, other);
    }
}

// Puts the clause of a line by its first two words, from after them on.
#[tactic(auto, using(crate::proofs::Aiming::put_same, crate::proofs::Aiming::put_nothing), unfolding(crate::specs::Aims::clause_of))]
fn put_clause(slip: &mut Line<'_>, one: Word<'_>, two: Word<'_>, rest: Words<'_>, facts: Names<'_>)
    requires { count_of facts ≤ 6 }
    ensures { Puts slip.old
        (clause_of (names_of facts.entry) (bytes_of one.entry) (bytes_of two.entry) (words_left rest.entry))
        slip.new }
{
    if one.is(b"eventually") {
        put_three(slip, Kind::Existence, facts, two, two);
    } else if one.is(b"never") {
        put_three(slip, Kind::Absence, facts, two, two);
    } else if one.is(b"whenever") {
        put_whenever(slip, rest, two, facts);
    } else if two.is(b"before") {
        put_before(slip, rest, one, facts);
    }
}

// Whether a line is no clause, by its second word and what follows.
#[tactic(auto, unfolding(crate::specs::Aims::no_clause, crate::specs::Aims::begins))]
fn is_no_clause(two: Word<'_>, mut rest: Words<'_>) -> bool
    ensures { result ≡ no_clause (bytes_of two.entry) (words_left rest.entry) }
{
    if two.is(b":") || two.is(b"is") {
        return true;
    }
    match rest.next() {
        Some(three) => three.is(b"->"),
        None => false,
    }
}

// Puts the clause that a line says.
#[tactic(auto, using(crate::proofs::Aiming::put_same, crate::proofs::Aiming::put_nothing), unfolding(crate::specs::Aims::clause_said))]
fn put_line(slip: &mut Line<'_>, mut line: Words<'_>, facts: Names<'_>)
    requires { count_of facts ≤ 6 }
    ensures { Puts slip.old (clause_said (names_of facts.entry) (words_left line.entry)) slip.new }
{
    if let (Some(one), Some(two)) = (line.next(), line.next()) {
        if !is_no_clause(two, line) {
            put_clause(slip, one, two, line, facts);
        }
    }
}

// Puts the clauses of the goal that a text says, line by line.
fn put_clauses(slip: &mut Line<'_>, text: &[u8], facts: Names<'_>)
    requires { count_of facts ≤ 6 }
    ensures { Puts slip.old (clauses_said (names_of facts.entry) (lines text.now)) slip.new }
{
    for line in Lines::of(text) {
        put_line(slip, line, facts);
    }
}

// Writes the clauses of the goal that a text says as the bytes of a slip, as many as it has room for, and answers how many bytes these are.
pub fn clauses(slip: &mut [u8], text: &[u8], facts: Names<'_>) -> usize
    requires { count_of facts ≤ 6 }
    ensures { PutText slip.old 0 (clauses_said (names_of facts.entry) (lines text.now)) slip.new result }
{
    let mut line = Line { bytes: slip, at: 0 };
    put_clauses(&mut line, text, facts);
    line.at
}

// The rows of a goal's table.
use faults::fault::Report;
use lines::line::{Word, Words};
use lines::names::Names;
use phrases::list::{check_known, check_last};

// What is due in a row before its arrow: a fact at its beginning, a comma or the arrow, a fact after a comma, or a fact after "not".
#[derive(Clone, Copy, Debug, PartialEq, Eq)]
enum Due {
    Begin,
    Comma,
    Fact,
    Bare,
}

// What is due after a word.
fn due_after(due: Due, word: Word<'_>) -> Due {
    match due {
        Due::Begin | Due::Fact if word.is(b"not") => Due::Bare,
        Due::Comma if word.is(b",") => Due::Fact,
        _ => Due::Comma,
    }
}

// A word where a comma or the arrow is due.
fn check_comma(report: &mut Report<'_>, word: Word<'_>) {
    if !word.is(b",") {
        report.tell_word(b"expected a comma or '->', found ", word.bytes(), b"");
    }
}

// A word of a row before its arrow.
fn check_word(report: &mut Report<'_>, due: Due, word: Word<'_>, facts: Names<'_>) {
    match due {
        Due::Begin | Due::Fact => check_known(report, b"fact", b"not", word, facts),
        Due::Comma => check_comma(report, word),
        Due::Bare => check_known(report, b"fact", b"", word, facts),
    }
}

// A row from its arrow on: no fact may be due there but at the row's beginning, and a goal state follows.
fn check_aim(report: &mut Report<'_>, due: Due, mut rest: Words<'_>, goals: Names<'_>) {
    if due == Due::Fact || due == Due::Bare {
        report.tell(b"expected a fact before '->'");
    }
    let Some(goal) = rest.next() else {
        return report.tell(b"expected a goal state after '->'");
    };
    check_last(report, b"goal state", goal, rest, goals);
}

/// A row of a goal's table, from after the colon on.
pub fn row_line(report: &mut Report<'_>, mut line: Words<'_>, facts: Names<'_>, goals: Names<'_>) {
    let mut due = Due::Begin;
    while let Some(word) = line.next() {
        if word.is(b"->") {
            return check_aim(report, due, line, goals);
        }
        check_word(report, due, word, facts);
        due = due_after(due, word);
    }
    report.tell(b"expected '->' and a goal state");
}

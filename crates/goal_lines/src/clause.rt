// The clauses of a goal, each of which counts, and lines that say nothing.
use faults::fault::Report;
use lines::line::{Word, Words};
use lines::names::Names;
use phrases::list::{check_known, expect_end};

// One clause more, once its line's other faults are told.
fn count_clause(report: &mut Report<'_>) {
    if 3 <= report.seen.clauses {
        report.tell(b"a goal has three clauses at most");
    } else {
        report.seen.clauses += 1;
    }
}

// A clause with one fact, after which the line has to end.
fn clause_of_one(report: &mut Report<'_>, one: Word<'_>, rest: Words<'_>, facts: Names<'_>) {
    expect_end(report, rest);
    check_known(report, b"fact", b"", one, facts);
    count_clause(report);
}

// A clause with two facts, after the second of which the line has to end.
fn clause_of_two(
    report: &mut Report<'_>,
    one: Word<'_>,
    two: Word<'_>,
    rest: Words<'_>,
    facts: Names<'_>,
) {
    expect_end(report, rest);
    check_known(report, b"fact", b"", one, facts);
    check_known(report, b"fact", b"", two, facts);
    count_clause(report);
}

// A line "whenever F then G", from its third word on.
fn whenever_line(report: &mut Report<'_>, one: Word<'_>, mut rest: Words<'_>, facts: Names<'_>) {
    if !rest.next().is_some_and(|then| then.is(b"then")) {
        return report.tell(b"expected 'then' and a fact after 'whenever' and a fact");
    }
    let Some(two) = rest.next() else {
        return report.tell(b"expected a fact after 'then'");
    };
    clause_of_two(report, one, two, rest, facts);
}

// A line "F before G", from its third word on.
fn before_line(report: &mut Report<'_>, one: Word<'_>, mut rest: Words<'_>, facts: Names<'_>) {
    let Some(two) = rest.next() else {
        return report.tell(b"expected a fact after 'before'");
    };
    clause_of_two(report, one, two, rest, facts);
}

// A line that says nothing: it begins like a move, or like no line.
fn lost_line(report: &mut Report<'_>, one: &[u8], mut rest: Words<'_>, states: Names<'_>) {
    if states.find(one).is_none() {
        report.tell_word(b"no line of the form begins with ", one, b" in this way");
    } else if let Some(three) = rest.next() {
        report.tell_word(
            b"expected '->' after the action, found ",
            three.bytes(),
            b"",
        );
    } else {
        report.tell(b"expected '->' and outcomes at the line's end");
    }
}

/// A clause of the goal, by the first two words of its line and the rest of it.
pub fn clause_line(
    report: &mut Report<'_>,
    one: Word<'_>,
    two: Word<'_>,
    rest: Words<'_>,
    states: Names<'_>,
    facts: Names<'_>,
) {
    match one.bytes() {
        b"eventually" | b"never" => clause_of_one(report, two, rest, facts),
        b"whenever" => whenever_line(report, two, rest, facts),
        _ if two.is(b"before") => before_line(report, one, rest, facts),
        other => lost_line(report, other, rest, states),
    }
}

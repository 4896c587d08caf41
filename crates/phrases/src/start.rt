// Where a job starts, and where its goal starts and is met.
use crate::list::{check_each, check_last};
use faults::fault::Report;
use lines::line::Words;
use lines::names::Names;

// The one name that a key gives, where `given` says whether it was given before, and so whether it is given now.
fn check_sole(
    report: &mut Report<'_>,
    given: bool,
    missing: &[u8],
    twice: &[u8],
    kind: &[u8],
    mut line: Words<'_>,
    names: Names<'_>,
) -> bool {
    let Some(word) = line.next() else {
        report.tell(missing);
        return given;
    };
    if given {
        report.tell(twice);
    } else {
        check_last(report, kind, word, line, names);
    }
    true
}

/// The state that a job starts in.
pub fn start_line(report: &mut Report<'_>, line: Words<'_>, states: Names<'_>) {
    report.seen.has_start = check_sole(
        report,
        report.seen.has_start,
        b"expected a state after 'start:'",
        b"the start is given twice",
        b"state",
        line,
        states,
    );
}

/// The goal state that a goal's table starts in.
pub fn first_line(report: &mut Report<'_>, line: Words<'_>, goals: Names<'_>) {
    report.seen.has_first = check_sole(
        report,
        report.seen.has_first,
        b"expected a goal state after 'first:'",
        b"the first goal state is given twice",
        b"goal state",
        line,
        goals,
    );
}

/// The final goal states.
pub fn final_line(report: &mut Report<'_>, line: Words<'_>, goals: Names<'_>) {
    let mut words = line;
    if words.next().is_some() {
        report.seen.has_final = true;
        check_each(report, b"goal state", line, goals);
    }
}

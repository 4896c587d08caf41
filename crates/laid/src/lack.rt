// What a text lacks as a whole, or has too much of.
use faults::fault::{Report, Seen};

// Whether something of a table was said.
fn is_table(seen: Seen, goals: usize) -> bool {
    0 < goals || seen.has_first || seen.has_final || seen.has_row
}

// Tells what is missing, unless it is there.
fn need(report: &mut Report<'_>, there: bool, what: &[u8]) {
    if !there {
        report.tell_whole(what);
    }
}

// What a table lacks.
fn check_table(report: &mut Report<'_>, seen: Seen) {
    need(
        report,
        seen.has_first,
        b"no first goal state is given; expected a line 'first: ...'",
    );
    need(
        report,
        seen.has_final,
        b"no final goal state is given; expected a line 'final: ...'",
    );
}

// What a goal lacks, or has too much of.
fn check_goal(report: &mut Report<'_>, goals: usize) {
    let seen = report.seen;
    if is_table(seen, goals) {
        need(
            report,
            seen.clauses == 0,
            b"a goal is made of clauses or of goal states, and not of both",
        );
        check_table(report, seen);
    } else {
        need(
            report,
            0 < seen.clauses,
            b"no goal is given; expected clauses, or a line 'goal-states: ...'",
        );
    }
}

// What a text does not list.
fn check_lists(report: &mut Report<'_>, states: usize, actions: usize) {
    need(
        report,
        0 < states,
        b"no states are listed; expected a line 'states: ...'",
    );
    need(
        report,
        0 < actions,
        b"no actions are listed; expected a line 'actions: ...'",
    );
}

// What a text lacks of a start, or has too much of moves.
fn check_moves(report: &mut Report<'_>, moves: usize) {
    let has_start = report.seen.has_start;
    need(
        report,
        has_start,
        b"no start is given; expected a line 'start: ...'",
    );
    need(report, moves <= 8192, b"there are more than 8192 moves");
}

/// What a text lacks, or has too much of.
pub fn check_whole(
    report: &mut Report<'_>,
    states: usize,
    actions: usize,
    goals: usize,
    moves: usize,
) {
    check_lists(report, states, actions);
    check_moves(report, moves);
    check_goal(report, goals);
}

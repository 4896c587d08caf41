// The lines of a text, one by one: what is wrong with each.
use faults::fault::Report;
use goal_lines::clause::clause_line;
use goal_lines::row::row_line;
use lines::line::{Lines, Word, Words};
use phrases::list::{check_known, check_list, expect_end};
use phrases::name::check_names;
use phrases::start::{final_line, first_line, start_line};
use phrases::tables::Tables;

// A line whose first word before the colon is no key: a row of a goal's table, if it is a goal state.
fn other_line(report: &mut Report<'_>, key: &[u8], line: Words<'_>, tables: Tables<'_>) {
    if tables.goals.find(key).is_none() {
        return report.tell_no_key(key, tables.goals);
    }
    report.seen.has_row = true;
    row_line(report, line, tables.facts, tables.goals);
}

// A line with a key and a colon, from after the colon on.
fn key_line(report: &mut Report<'_>, key: &[u8], line: Words<'_>, tables: Tables<'_>) {
    match key {
        b"states" => check_names(report, b"of 512 states, ", line, tables.states),
        b"actions" => check_names(report, b"of 16 actions, ", line, tables.actions),
        b"facts" => check_names(report, b"of 6 facts, ", line, tables.facts),
        b"goal-states" => check_names(report, b"of 32 goal states, ", line, tables.goals),
        b"start" => start_line(report, line, tables.states),
        b"first" => first_line(report, line, tables.goals),
        b"final" => final_line(report, line, tables.goals),
        b"goal" => expect_end(report, line),
        _ => other_line(report, key, line, tables),
    }
}

// A line that says facts of a state, from after the word "is" on.
fn fact_line(report: &mut Report<'_>, state: Word<'_>, line: Words<'_>, tables: Tables<'_>) {
    check_known(report, b"state", b"", state, tables.states);
    check_list(report, b"fact", b"busy", b",", line, tables.facts);
}

// A line that says moves, from after the arrow on.
fn move_line(
    report: &mut Report<'_>,
    state: Word<'_>,
    action: Word<'_>,
    line: Words<'_>,
    tables: Tables<'_>,
) {
    check_known(report, b"state", b"", state, tables.states);
    check_known(report, b"action", b"", action, tables.actions);
    check_list(report, b"state", b"", b"|", line, tables.states);
}

// A line that has no colon and no "is" after its first word, from its third word on: a move or a clause.
fn plain_line(
    report: &mut Report<'_>,
    one: Word<'_>,
    two: Word<'_>,
    line: Words<'_>,
    tables: Tables<'_>,
) {
    let mut after = line;
    if after.next().is_some_and(|three| three.is(b"->")) {
        move_line(report, one, two, after, tables);
    } else {
        clause_line(report, one, two, line, tables.states, tables.facts);
    }
}

// A line of a text.
fn check_line(report: &mut Report<'_>, mut line: Words<'_>, tables: Tables<'_>) {
    let Some(one) = line.next() else {
        return;
    };
    let Some(two) = line.next() else {
        return report.tell_word(b"expected more after ", one.bytes(), b"");
    };
    match two.bytes() {
        b":" => key_line(report, one.bytes(), line, tables),
        b"is" => fact_line(report, one, line, tables),
        _ => plain_line(report, one, two, line, tables),
    }
}

/// Every line of a text.
pub fn check_lines(report: &mut Report<'_>, text: &[u8], tables: Tables<'_>) {
    for line in Lines::of(text) {
        check_line(report, line, tables);
        report.next_line();
    }
}

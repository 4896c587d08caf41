// Names that a line uses, one alone or several with a mark between them, and nothing after them.
use faults::fault::Report;
use lines::line::{Word, Words};
use lines::names::Names;

/// Nothing more may stand in the line.
pub fn expect_end(report: &mut Report<'_>, mut line: Words<'_>) {
    if let Some(word) = line.next() {
        report.tell_word(b"expected the line's end, found ", word.bytes(), b"");
    }
}

/// A word that has to be one of the names, or the one other word that is fine there.
pub fn check_known(
    report: &mut Report<'_>,
    kind: &[u8],
    also: &[u8],
    word: Word<'_>,
    names: Names<'_>,
) {
    if !word.is(also) && names.find(word.bytes()).is_none() {
        report.tell_unknown(kind, word.bytes(), names);
    }
}

/// A word that has to be one of the names, and the last of its line.
pub fn check_last(
    report: &mut Report<'_>,
    kind: &[u8],
    word: Word<'_>,
    rest: Words<'_>,
    names: Names<'_>,
) {
    if names.find(word.bytes()).is_some() {
        expect_end(report, rest);
    } else {
        report.tell_unknown(kind, word.bytes(), names);
    }
}

/// Names up to the line's end, with nothing between them.
pub fn check_each(report: &mut Report<'_>, kind: &[u8], line: Words<'_>, names: Names<'_>) {
    for word in line {
        check_known(report, kind, b"", word, names);
    }
}

/// Names with a mark between each and the next, up to the line's end: at least one.
pub fn check_list(
    report: &mut Report<'_>,
    kind: &[u8],
    also: &[u8],
    mark: &[u8],
    line: Words<'_>,
    names: Names<'_>,
) {
    let mut due = true;
    for word in line {
        if due {
            check_known(report, kind, also, word, names);
        } else {
            check_mark(report, mark, word);
        }
        due = !due;
    }
    if due {
        tell_missing(report, kind);
    }
}

// A word that has to be the mark.
fn check_mark(report: &mut Report<'_>, mark: &[u8], word: Word<'_>) {
    if word.is(mark) {
        return;
    }
    match mark {
        b"|" => report.tell_word(b"expected '|' between outcomes, found ", word.bytes(), b""),
        _ => report.tell_word(b"expected a comma between facts, found ", word.bytes(), b""),
    }
}

// Tells that the line ends where a name is due.
fn tell_missing(report: &mut Report<'_>, kind: &[u8]) {
    match kind {
        b"state" => report.tell(b"expected a state at the line's end"),
        _ => report.tell(b"expected a fact at the line's end"),
    }
}

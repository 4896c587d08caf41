// The names that a line lists after a key, each well made, given once, and not one too many.
ghost use Rattle.std.specs.Prelude.{◌<◌, IfSome};
ghost use Rattle.lines.specs.Tables.{count_of};

use faults::fault::Report;
use lines::line::{Word, Words};
use lines::names::Names;

// Whether a byte may stand in a name.
fn is_name_letter(b: u8) -> bool {
    matches!(b, b'0'..=b'9' | b'A'..=b'Z' | b'a'..=b'z' | b'-' | b'_')
}

// Whether a word is made of letters, digits, - and _.
fn is_proper(word: &[u8]) -> bool {
    word.iter().all(|&b| is_name_letter(b))
}

// Whether a word has a meaning of its own in the form, and so is no name.
fn is_taken(word: &[u8]) -> bool {
    matches!(
        word,
        b"states"
            | b"actions"
            | b"facts"
            | b"goal-states"
            | b"start"
            | b"goal"
            | b"first"
            | b"final"
            | b"is"
            | b"busy"
            | b"eventually"
            | b"never"
            | b"whenever"
            | b"then"
            | b"before"
            | b"not"
    )
}

// The number of a name that a line lists; none where it stands after the last that has room. Names are in the order in which they stand.
fn find_listed(word: Word<'_>, names: Names<'_>) -> Option<usize>
    ensures { IfSome result (λ k. k < count_of names.entry) }
{
    let last = names.spans.last()?;
    if last.start < word.start {
        return None;
    }
    names.find(word.bytes())
}

// A name by its place among the names: not one too many, and not given before.
fn check_place(report: &mut Report<'_>, full: &[u8], word: Word<'_>, names: Names<'_>) {
    let Some(k) = find_listed(word, names) else {
        return report.tell_word(full, word.bytes(), b" is one too many");
    };
    if names.spans[k].start != word.start {
        report.tell_word(b"the name ", word.bytes(), b" is given twice");
    }
}

// A name that a line lists: well made, no word of the form, and in its place among the names.
fn check_name(report: &mut Report<'_>, full: &[u8], word: Word<'_>, names: Names<'_>) {
    let bytes = word.bytes();
    if !is_proper(bytes) {
        report.tell_word(
            b"",
            bytes,
            b" is no name: a name has letters, digits, - and _",
        );
    } else if 64 < bytes.len() {
        report.tell_word(b"the name ", bytes, b" has more than 64 letters");
    } else if is_taken(bytes) {
        report.tell_word(b"", bytes, b" is a word of the form, and no name");
    } else {
        check_place(report, full, word, names);
    }
}

/// The names that a line lists after its key.
pub fn check_names(report: &mut Report<'_>, full: &[u8], line: Words<'_>, names: Names<'_>) {
    for word in line {
        check_name(report, full, word, names);
    }
}

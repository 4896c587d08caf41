// The classes of bytes, and where words and lines end.
ghost use Rattle.std.specs.Prelude.{◌≡◌, ◌+◌, ◌≤◌, length, drop};
ghost use Rattle.lines.specs.Words.{class, class_number, run, blanks, NextWord, NextLine, same_word};

use crate::names::Span;

// The byte that ends a line.
const LINE_FEED: u8 = b'\n';

// What a byte is to a line: a blank, where the line's words end, a mark that is a word by itself, or a letter.
#[derive(Clone, Copy, Debug, PartialEq, Eq)]
pub enum Class {
    Blank,
    End,
    Mark,
    Letter,
}

impl From<u8> for Class {
    ghost from_gives = { λ b c. class_number c ≡ class b };

    #[inline(always)]
    fn from(b: u8) -> Class {
        match b {
            b' ' | b'\t' | b'\r' => Class::Blank,
            b'\n' | b'#' => Class::End,
            b':' | b'|' | b',' => Class::Mark,
            _ => Class::Letter,
        }
    }
}

// Where the bytes of a class end that stand from a position on.
#[inline(always)]
fn class_end(text: &[u8], at: usize, class: Class) -> usize
    requires { at ≤ length text.now }
    ensures { (result ≡ at + run (class_number class) (drop at text.now)) × (result ≤ length text.now) }
{
    for i in at..text.len() {
        if Class::from(text[i]) != class {
            return i;
        }
    }
    text.len()
}

// The word that begins at a position where no blank is.
#[inline(always)]
fn word_at(text: &[u8], start: usize) -> Span
    requires start_in_bounds { start ≤ length text.now }
    requires text_value { blanks (drop start text.now) ≡ 0 }
    ensures { NextWord text.now start result.start result.end }
{
    if text.len() <= start {
        return Span { start, end: start };
    }
    let end = match Class::from(text[start]) {
        Class::Letter => class_end(text, start, Class::Letter),
        Class::Mark => start + 1,
        Class::Blank | Class::End => start,
    };
    Span { start, end }
}

// The next word of the line from a position on.
#[inline(always)]
pub fn next_word(text: &[u8], at: usize) -> Span
    requires { at ≤ length text.now }
    ensures { NextWord text.now at result.start result.end }
{
    let start = class_end(text, at, Class::Blank);
    word_at(text, start)
}

// Where the next line begins, seen from the beginning of a line or from within it; beyond the text where none follows.
#[inline(always)]
pub fn next_line(text: &[u8], at: usize) -> usize
    requires { at ≤ length text.now }
    ensures { NextLine text.now at result }
{
    for i in at..text.len() {
        if text[i] == LINE_FEED {
            return i + 1;
        }
    }
    text.len() + 1
}

// Whether two words are the same.
pub fn is_same(a: &[u8], b: &[u8]) -> bool
    ensures { result ≡ same_word a.now b.now }
{
    a == b
}

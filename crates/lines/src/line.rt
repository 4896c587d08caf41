// The lines of a text, and the words of a line, handed out one after the other.
ghost use Rattle.std.specs.Prelude.{◌≡◌, ◌≤◌, length};

use crate::word::{is_same, next_line, next_word};

// A word where it stands in a text, from its first byte to where it ends.
#[derive(Clone, Copy, Debug)]
pub struct Word<'a> {
    pub text: &'a [u8],
    pub start: usize,
    pub end: usize,
    ghost order: { start ≤ end },
    ghost inside: { end ≤ length text.now },
}

// The words of a line that are left: those from a position in a text on.
#[derive(Clone, Copy, Debug)]
pub struct Words<'a> {
    pub text: &'a [u8],
    pub at: usize,
    ghost inside: { at ≤ length text.now },
}

// The lines of a text that are left: those that begin at a position or after it.
#[derive(Clone, Copy, Debug)]
pub struct Lines<'a> {
    pub text: &'a [u8],
    pub at: usize,
}

impl<'a> Word<'a> {
    ghost use Rattle.lines.specs.Words.{same_word};
    ghost use Rattle.lines.specs.Steps.{bytes_of};

    // The bytes of the word.
    pub fn bytes(self) -> &'a [u8]
        ensures { result.now ≡ bytes_of self.entry }
    {
        &self.text[self.start..self.end]
    }

    // Whether the word is spelt like another one.
    pub fn is(self, other: &[u8]) -> bool
        ensures { result ≡ same_word (bytes_of self.entry) other.now }
    {
        is_same(self.bytes(), other)
    }
}

impl<'a> Words<'a> {
    ghost use Rattle.lines.specs.Steps.{AfterKey};

    // The words after a key and a colon, if the line begins with these.
    #[inline(always)]
    pub fn after_key(self, key: &[u8]) -> Option<Words<'a>>
        ensures { AfterKey key.now self.entry result }
    {
        let mut rest = self;
        let first = rest.next()?;
        let second = rest.next()?;
        if first.is(key) && second.is(b":") {
            return Some(rest);
        }
        None
    }
}

impl<'a> Iterator for Words<'a> {
    ghost use Rattle.std.specs.Iterator.{item_count};
    ghost use Rattle.lines.specs.Steps.{GivesWord, words_left};

    type Item = Word<'a>;

    ghost next_gives = { GivesWord };

    ghost remaining = { item_count words_left };

    #[inline(always)]
    fn next(&mut self) -> Option<Word<'a>> {
        let w = next_word(self.text, self.at);
        if w.start == w.end {
            return None;
        }
        self.at = w.end;
        Some(Word {
            text: self.text,
            start: w.start,
            end: w.end,
        })
    }
}

impl<'a> Lines<'a> {
    // All lines of a text.
    pub fn of(text: &'a [u8]) -> Lines<'a>
        ensures { (result.text.now ≡ text.entry.now) × (result.at ≡ 0) }
    {
        Lines { text, at: 0 }
    }
}

impl<'a> Iterator for Lines<'a> {
    ghost use Rattle.std.specs.Iterator.{item_count};
    ghost use Rattle.lines.specs.Steps.{GivesLine, lines_left};

    type Item = Words<'a>;

    ghost next_gives = { GivesLine };

    ghost remaining = { item_count lines_left };

    #[inline(always)]
    fn next(&mut self) -> Option<Words<'a>> {
        if self.text.len() < self.at {
            return None;
        }
        let line = Words {
            text: self.text,
            at: self.at,
        };
        self.at = next_line(self.text, self.at);
        Some(line)
    }
}

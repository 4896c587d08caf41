// Names where they stand in a text, and a list with room for some of them.
ghost use Rattle.std.specs.Prelude.{◌≡◌, ◌≤◌, ◌<◌, length, take, get_or, [], IfSome};
ghost use Rattle.std.specs.List.{All};

use crate::line::{Lines, Word, Words};
use crate::word::is_same;

// Where a name stands: from its first byte in a text to where it ends.
#[derive(Clone, Copy, Debug, PartialEq, Eq)]
pub struct Span {
    pub start: usize,
    pub end: usize,
}

// Names where they stand in a text.
#[derive(Clone, Copy, Debug)]
pub struct Names<'a> {
    pub text: &'a [u8],
    pub spans: &'a [Span],
    ghost inside: { All (λ s. (s.start ≤ s.end) × (s.end ≤ length text.now)) spans.now },
}

// A list of names of a text, with room for N.
#[derive(Clone, Copy, Debug)]
pub struct List<'a, const N: usize> {
    pub text: &'a [u8],
    pub spans: [Span; N],
    pub len: usize,
    ghost few: { len ≤ N },
    ghost inside: { All (λ s. (s.start ≤ s.end) × (s.end ≤ length text.now)) (take len spans) },
}

impl<'a> Names<'a> {
    ghost use Rattle.lines.specs.Tables.{names_of, count_of};
    ghost use Rattle.lines.specs.Names.{index_of, found};

    // How many names there are.
    pub fn len(self) -> usize
        ensures { result ≡ count_of self.entry }
    {
        self.spans.len()
    }

    // The name k.
    pub fn get(self, k: usize) -> &'a [u8]
        requires { k < count_of self }
        ensures { result.now ≡ get_or (names_of self.entry) k [] }
    {
        let s = self.spans[k];
        &self.text[s.start..s.end]
    }

    // The number of the first name that is spelt like the word, if there is one.
    pub fn find(self, word: &[u8]) -> Option<usize>
        ensures index { found result (count_of self.entry) ≡ index_of (names_of self.entry) word.now }
        ensures within { IfSome result (λ k. k < count_of self.entry) }
    {
        for k in 0..self.spans.len() {
            if is_same(self.get(k), word) {
                return Some(k);
            }
        }
        None
    }
}

impl<'a, const N: usize> List<'a, N> {
    ghost use Rattle.lines.specs.Tables.{names_of, names_in, count_of};
    ghost use Rattle.lines.specs.Names.{after_key, names, push, pushes};
    ghost use Rattle.lines.specs.Steps.{bytes_of, words_left};

    // The names that a text lists after a key, as many as there is room for.
    pub fn of(text: &'a [u8], key: &[u8]) -> List<'a, N>
        ensures { (result.text.now ≡ text.entry.now) × (names_in result ≡ names N key.now text.entry.now) }
    {
        let mut list = List {
            text,
            spans: [Span { start: 0, end: 0 }; N],
            len: 0,
        };
        for line in Lines::of(text) {
            list.put_line(line, key);
        }
        list
    }

    // The names of the list.
    pub fn names(&self) -> Names<'_>
        ensures { (result.text.now ≡ self.now.text.now) × (names_of result ≡ names_in self.now) × (count_of result ≤ N) }
    {
        Names {
            text: self.text,
            spans: &self.spans[..self.len],
        }
    }

    // Puts a word to the list, where it has room for one more.
    fn put(&mut self, w: Word<'_>)
        requires { w.text.now ≡ self.old.text.now }
        ensures { (self.new.text.now ≡ self.old.text.now) × (names_in self.new ≡ push N (names_in self.old) (bytes_of w.entry)) }
    {
        if self.len < N {
            self.spans[self.len] = Span {
                start: w.start,
                end: w.end,
            };
            self.len += 1;
        }
    }

    // Puts the words of a line to the list.
    fn put_words(&mut self, line: Words<'_>)
        requires { line.text.now ≡ self.old.text.now }
        ensures { (self.new.text.now ≡ self.old.text.now) × (names_in self.new ≡ pushes N (names_in self.old) (words_left line.entry)) }
    {
        for w in line {
            self.put(w);
        }
    }

    // Puts the names of a line to the list, if it lists them after the key.
    fn put_line(&mut self, line: Words<'_>, key: &[u8])
        requires { line.text.now ≡ self.old.text.now }
        ensures { (self.new.text.now ≡ self.old.text.now) × (names_in self.new ≡ pushes N (names_in self.old) (after_key key.now (words_left line.entry))) }
    {
        if let Some(names) = line.after_key(key) {
            self.put_words(names);
        }
    }
}

// Faults of a text, told in lines: the line's number, what is wrong, and the word at fault.
ghost use Rattle.std.specs.Prelude.{◌≡◌};
ghost use Rattle.faults.specs.Telling.{shown};

use lines::names::{List, Names};
use text::Line;

/// What was seen of a text so far: whether it says a start, and what its goal is made of.
#[derive(Clone, Copy, Debug, PartialEq, Eq, Default)]
pub struct Seen {
    pub has_start: bool,
    pub has_first: bool,
    pub has_final: bool,
    pub clauses: usize,
    pub has_row: bool,
}

/// The faults of a text that were told, in a lent buffer, how many more there are, and what was seen up to the line that is looked at.
#[derive(Drop)]
pub struct Report<'a> {
    pub told: Line<'a>,
    pub number: u32,
    pub more: u32,
    pub seen: Seen,
}

impl<'a> Report<'a> {
    ghost use Rattle.std.specs.Prelude.{◌≡◌};

    /// Nothing is told yet; the line that is looked at is the first.
    pub fn new(told: &'a mut [u8]) -> Report<'a>
        ensures none { (result.told.at ≡ 0) × (result.number ≡ 1) × (result.more ≡ 0) }
        ensures same_buffer { result.told.bytes.ghost_name ≡ told.entry.ghost_name }
    {
        Report {
            told: Line { bytes: told, at: 0 },
            number: 1,
            more: 0,
            seen: Seen::default(),
        }
    }
}

impl Report<'_> {
    ghost use Rattle.std.specs.Prelude.{◌≡◌, false, ◌||◌, ltb, [], map};
    ghost use Rattle.text.specs.Puts.{Puts};
    ghost use Rattle.faults.specs.Telling.{is_full, one_more, Counts, line_number, fault_line, more_line};
    ghost use Rattle.faults.specs.Telling.{shown, points, quoted, whole_line, word_line, unknown_line, Begins, Misnamed};

    /// Goes to the next line.
    pub fn next_line(&mut self)
        ensures { self.new.number ≡ one_more self.old.number }
    {
        self.number = self.number.saturating_add(1).min(1000000);
    }

    // Whether a fault more has no room.
    fn is_full(&self) -> bool
        ensures { result ≡ is_full self.now }
    {
        self.told.bytes.len().saturating_sub(self.told.at) < 512
    }

    // One fault more that is only counted.
    fn count(&mut self)
        ensures as_told { self.new.told ≡ self.old.told }
        ensures more { self.new.more ≡ one_more self.old.more }
    {
        self.more = self.more.saturating_add(1).min(1000000);
    }

    // The beginning of a fault's line: the number of the text's line.
    fn put_number(&mut self)
        ensures number { Puts self.old.told (line_number self.old.number) self.new.told }
        ensures more { self.new.more ≡ self.old.more }
    {
        self.told.put_word(b"line ");
        self.told.put_number(self.number);
        self.told.put_word(b": ");
    }

    // Letters, each as it is shown.
    fn put_shown(&mut self, letters: &[u8])
        ensures more { self.new.more ≡ self.old.more }
        ensures letters { Puts self.old.told (map shown letters.now) self.new.told }
    {
        for &byte in letters {
            self.told.put(shown(byte));
        }
    }

    // Two points, where a word has more than the 64 letters that are shown.
    fn put_points(&mut self, word: &[u8])
        ensures more { self.new.more ≡ self.old.more }
        ensures points { Puts self.old.told (points word.now) self.new.told }
    {
        if 64 < word.len() {
            self.told.put_word(b"..");
        }
    }

    // A word between quotes; of a long one its first 64 letters.
    fn put_quoted(&mut self, word: &[u8])
        ensures more { self.new.more ≡ self.old.more }
        ensures word { Puts self.old.told (quoted word.now) self.new.told }
    {
        self.told.put(b'\'');
        self.put_shown(&word[..word.len().min(64)]);
        self.put_points(word);
        self.told.put(b'\'');
    }

    // The name that the word may stand for, if one is near.
    fn put_near(&mut self, word: &[u8], names: Names<'_>)
        ensures more { self.new.more ≡ self.old.more }
        ensures near { Begins self.old.told [] self.new.told }
    {
        if let Some(k) = crate::near::nearest(names, word) {
            self.told.put_word(b"; did you mean ");
            self.put_quoted(names.get(k));
            self.told.put(b'?');
        }
    }

    /// Tells a fault of no line: that the text lacks something, or has too much of it.
    pub fn tell_whole(&mut self, lack: &[u8])
        ensures counted { Counts self.old self.new }
        ensures told { is_full self.old ≡ false → Puts self.old.told (whole_line lack.now) self.new.told }
    {
        if self.is_full() {
            return self.count();
        }
        self.told.put_word(lack);
        self.told.put(b'\n');
    }

    /// Tells a fault of the line, at its end or of the whole of it.
    pub fn tell(&mut self, what: &[u8])
        ensures counted { Counts self.old self.new }
        ensures told { is_full self.old ≡ false → Puts self.old.told (fault_line self.old.number what.now) self.new.told }
    {
        if self.is_full() {
            return self.count();
        }
        self.put_number();
        self.told.put_word(what);
        self.told.put(b'\n');
    }

    /// Tells a fault of a word, between what stands before it and after it.
    pub fn tell_word(&mut self, before: &[u8], word: &[u8], after: &[u8])
        ensures counted { Counts self.old self.new }
        ensures told { is_full self.old ≡ false → Puts self.old.told (word_line self.old.number before.now word.now after.now) self.new.told }
    {
        if self.is_full() {
            return self.count();
        }
        self.put_number();
        self.told.put_word(before);
        self.put_quoted(word);
        self.told.put_word(after);
        self.told.put(b'\n');
    }

    /// Tells that a word names none of its kind.
    pub fn tell_unknown(&mut self, kind: &[u8], word: &[u8], names: Names<'_>)
        ensures counted { Counts self.old self.new }
        ensures told { is_full self.old ≡ false → Begins self.old.told (unknown_line self.old.number kind.now word.now) self.new.told }
    {
        if self.is_full() {
            return self.count();
        }
        self.put_number();
        self.told.put_word(b"no ");
        self.told.put_word(kind);
        self.told.put_word(b" is named ");
        self.put_quoted(word);
        self.put_near(word, names);
        self.told.put(b'\n');
    }

    // Tells that a word names no key, if a key of the list is near, and otherwise that it names no goal state.
    fn tell_key_or(&mut self, word: &[u8], goals: Names<'_>, list: &[u8])
        ensures counted { Counts self.old self.new }
        ensures told { is_full self.old ≡ false → Misnamed self.old.told self.old.number word.now self.new.told }
    {
        let list: List<16> = List::of(list, b"keys");
        let keys = list.names();
        if crate::near::nearest(keys, word).is_some() {
            self.tell_unknown(b"key", word, keys);
        } else {
            self.tell_unknown(b"goal state", word, goals);
        }
    }

    /// Tells that a word before a colon names no goal state, or no key where only a key is near.
    pub fn tell_no_key(&mut self, word: &[u8], goals: Names<'_>)
        ensures counted { Counts self.old self.new }
        ensures told { is_full self.old ≡ false → Misnamed self.old.told self.old.number word.now self.new.told }
    {
        if crate::near::nearest(goals, word).is_some() {
            self.tell_unknown(b"goal state", word, goals);
        } else {
            self.tell_key_or(
                word,
                goals,
                b"keys: states actions facts goal-states start first final goal",
            );
        }
    }

    /// Whether a fault was told or counted.
    pub fn is_faulty(&self) -> bool
        ensures { result ≡ (ltb 0 self.now.told.at || ltb 0 self.now.more) }
    {
        0 < self.told.at || 0 < self.more
    }

    /// Tells how many faults more there are, if any, and answers how many bytes are told.
    pub fn finish(&mut self) -> usize
        ensures more { Puts self.old.told (more_line self.old.more) self.new.told }
        ensures end { result ≡ self.new.told.at }
    {
        if self.more == 0 {
            return self.told.at;
        }
        self.told.put_word(b"and ");
        self.told.put_number(self.more);
        self.told.put_word(b" more\n");
        self.told.at
    }
}

// A byte of a word as it is shown: what is no plain letter is shown as a question mark.
fn shown(byte: u8) -> u8
    ensures { result ≡ shown byte }
{
    match byte {
        33..=126 => byte,
        _ => b'?',
    }
}

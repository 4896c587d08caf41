// Text put together in a lent buffer: bytes, words, numbers, and the lines that the programs print.
#![tactic(auto)]

ghost use Rattle.std.specs.Prelude.{[], ◌∷◌, ◌++◌, map, ◌≡◌};
ghost use Rattle.rules.specs.Answers.{value_number, refusal_fault};
ghost use Rattle.text.specs.Puts.{Puts};
ghost use Rattle.text.specs.Lines.{decimal, value_word, action_word, rest_of_line, entry_line, start_line};
ghost use Rattle.text.specs.Lines.{names_record, record_named, refusal_line};

use rules::answer::{Refusal, Value};

/// Text in a lent buffer: the next byte goes to the position `at`. What there is no room for is left out.
#[derive(Drop)]
pub struct Line<'a> {
    pub bytes: &'a mut [u8],
    pub at: usize,
}

impl Line<'_> {
    pub fn put(&mut self, byte: u8)
        ensures { Puts self.old (byte ∷ []) self.new }
    {
        if self.at < self.bytes.len() {
            self.bytes[self.at] = byte;
            self.at += 1;
        }
    }

    pub fn put_word(&mut self, word: &[u8])
        ensures { Puts self.old word.now self.new }
    {
        for &byte in word {
            self.put(byte);
        }
    }

    pub fn put_number(&mut self, n: u32)
        ensures { Puts self.old (decimal n) self.new }
    {
        let mut digits = [0u8; 20];
        let k = io::decimal(u64::from(n), &mut digits);
        self.put_word(&digits[..k]);
    }

    pub fn put_value(&mut self, value: Value)
        ensures { Puts self.old (value_word (value_number value)) self.new }
    {
        match value {
            Value::Losing => self.put_word(b"losing"),
            Value::Pending => self.put_word(b"pending"),
            Value::Winning => self.put_word(b"winning"),
        }
    }

    /// The action, or "-" where none is named.
    pub fn put_action(&mut self, action: u8)
        ensures { Puts self.old (action_word action) self.new }
    {
        if action == 255 {
            self.put(b'-');
        } else {
            self.put_number(u32::from(action));
        }
    }

    // A state and a goal state, a space between them.
    fn put_state_and_goal(&mut self, state: u32, goal: u32)
        ensures { Puts self.old (decimal state ++ (32 ∷ decimal goal)) self.new }
    {
        self.put_number(state);
        self.put(b' ');
        self.put_number(goal);
    }

    /// The line of a place.
    pub fn put_entry(&mut self, state: u32, goal: u32, value: Value, action: u8, number: u16)
        ensures { Puts self.old (entry_line state goal (value_number value) action number) self.new }
    {
        self.put_state_and_goal(state, goal);
        self.put(b' ');
        self.put_value(value);
        self.put(b' ');
        self.put_action(action);
        self.put(b' ');
        self.put_number(u32::from(number));
        self.put(b'\n');
    }

    /// The first line of a listing.
    pub fn put_start(&mut self, state: u32, goal: u32, value: Value)
        ensures { Puts self.old (start_line state goal (value_number value)) self.new }
    {
        self.put_word(b"start ");
        self.put_state_and_goal(state, goal);
        self.put(b' ');
        self.put_value(value);
        self.put(b'\n');
    }

    // The rest of a refusal's line: the record that is named, if one is.
    fn put_record(&mut self, why: Refusal)
        ensures { Puts self.old (rest_of_line (map decimal (record_named (refusal_fault why)))) self.new }
    {
        if names_record(why) {
            self.put(b' ');
            self.put_number(why.record());
        }
        self.put(b'\n');
    }

    /// The line of a refusal.
    pub fn put_refusal(&mut self, why: Refusal)
        ensures { Puts self.old (refusal_line (refusal_fault why)) self.new }
    {
        self.put_word(b"refused ");
        self.put_number(why.number());
        self.put_record(why);
    }
}

fn names_record(why: Refusal) -> bool
    ensures { result ≡ names_record (refusal_fault why) }
{
    matches!(why, Refusal::Field(_) | Refusal::Order(_))
}

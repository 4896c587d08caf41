// Names put in a line: that of a table, and those of a place.
ghost use Rattle.std.specs.Prelude.{◌≡◌};
ghost use Rattle.text.specs.Puts.{Puts};
ghost use Rattle.telling.specs.Lines.{named, place_text};

use lines::names::{Names, Span};
use text::Line;

// Where a table says that names stand in a text. It may name places that don't lie there: nothing is told of these.
#[derive(Clone, Copy, Debug)]
pub struct Table<'a> {
    pub text: &'a [u8],
    pub spans: &'a [Span],
}

impl<'a> Table<'a> {
    // The table of names that all lie in their text.
    pub fn of(names: Names<'a>) -> Table<'a>
        ensures { (result.text.now ≡ names.entry.text.now) × (result.spans.now ≡ names.entry.spans.now) }
    {
        Table {
            text: names.text,
            spans: names.spans,
        }
    }
}

// Name k of a table, or nothing where it does not lie in the text.
pub fn put_name(line: &mut Line<'_>, table: Table<'_>, k: usize)
    ensures { Puts line.old (named table.entry k) line.new }
{
    if k < table.spans.len() {
        let s = table.spans[k];
        if s.start <= s.end && s.end <= table.text.len() {
            line.put_word(&table.text[s.start..s.end]);
        }
    }
}

// A place: its state and its goal state, something between them.
pub fn put_place(
    line: &mut Line<'_>,
    states: Table<'_>,
    goals: Table<'_>,
    s: usize,
    q: usize,
    between: &[u8],
)
    ensures { Puts line.old
        (place_text (named states.entry s) between.now (named goals.entry q))
        line.new }
{
    put_name(line, states, s);
    line.put_word(between);
    put_name(line, goals, q);
}

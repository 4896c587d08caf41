// A plan's entry, in four bytes: the value, the action, and the number in two, low byte first.
ghost use Rattle.std.specs.Prelude.{◌≡◌, ◌+◌, ◌*◌, ◌≤◌, length};
ghost use Rattle.rules.specs.Plan.{entry, blank, due, Wrote};
ghost use Rattle.rules.specs.Answers.{ShapeOf};

use crate::answer::Value;
use crate::bytes::{put_word_at, word_at};
use game::entry::Entry;

// Writes the entry i.
pub fn write_entry(plan: &mut [u8], i: usize, e: Entry)
    requires { 4 * i + 4 ≤ length plan.old }
    ensures { Wrote i e plan.old plan.new }
{
    let at = 4 * i;
    plan[at] = e.value;
    plan[at + 1] = e.action;
    put_word_at(plan, at + 2, e.number);
}

// Reads the entry i.
pub fn read_entry(plan: &[u8], i: usize) -> Entry
    requires { 4 * i + 4 ≤ length plan.now }
    ensures { result ≡ entry plan.now i }
{
    let at = 4 * i;
    Entry {
        value: plan[at],
        action: plan[at + 1],
        number: word_at(plan, at + 2),
    }
}

// Whether an entry names no action.
fn is_blank(e: Entry) -> bool
    ensures { result ≡ blank e }
{
    e.action == 255 && e.number == 0
}

// Whether an entry names an action and a number, each in its range.
fn is_due(e: Entry, actions: u8, places: usize) -> bool
    ensures { result ≡ due actions places e }
{
    e.action < actions && 1 <= e.number && (e.number as usize) < places
}

// The value of an entry that has one of the four shapes.
pub fn shape_of(e: Entry, actions: u8, places: usize) -> Option<Value>
    ensures { ShapeOf actions places e result }
{
    let value = Value::try_from(e.value).ok()?;
    let shaped = match value {
        Value::Losing => is_blank(e),
        Value::Pending => is_due(e, actions, places),
        Value::Winning => is_blank(e) || is_due(e, actions, places),
    };
    if shaped { Some(value) } else { None }
}

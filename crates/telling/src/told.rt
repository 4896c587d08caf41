// A place told in words: what the plan says there, and why it is not winning.
ghost use Rattle.std.specs.Prelude.{◌+◌, ◌*◌, ◌/◌, ◌%◌, ◌≤◌, ◌<◌, length};
ghost use Rattle.rules.specs.Bytes.{said};
ghost use Rattle.rules.specs.Job.{places};
ghost use Rattle.rules.specs.Plan.{entry};
ghost use Rattle.job.specs.Layout.{Fit};
ghost use Rattle.text.specs.Puts.{Puts};
ghost use Rattle.telling.specs.Lines.{named, comma, place_text, moves_text, advice_text, spoilt_text, spoiler_line, outlook_text};
ghost use Rattle.telling.specs.Told.{told_entry, told_spoiler, told_action, told_actions, told_why, told_place};

use crate::names::{Table, put_name, put_place};
use crate::shown::Shown;
use crate::spoil::{entry_entered, worst};
use game::entry::Entry;
use rules::answer::Value;
use text::Line;

// So many moves.
fn put_moves(line: &mut Line<'_>, n: u16)
    ensures { Puts line.old (moves_text n) line.new }
{
    if n == 1 {
        line.put_word(b"one move");
    } else {
        line.put_number(u32::from(n));
        line.put_word(b" moves");
    }
}

// What the plan says at a place, by its entry.
fn put_advice(line: &mut Line<'_>, actions: Table<'_>, e: Entry)
    ensures { Puts line.old
        (advice_text (named actions.entry e.action) e)
        line.new }
{
    match (Value::try_from(e.value), e.named()) {
        (Ok(Value::Losing), _) => line.put_word(b"lost"),
        (_, None) => line.put_word(b"the goal is met"),
        (Ok(Value::Pending), Some(action)) => {
            put_name(line, actions, usize::from(action));
            line.put_word(b"; with luck ");
            put_moves(line, e.number);
            line.put_word(b" from safety");
        }
        (_, Some(action)) => {
            put_name(line, actions, usize::from(action));
            line.put_word(b"; safe, and at most ");
            put_moves(line, e.number);
            line.put_word(b" from the goal");
        }
    }
}

// How a place is told that spoils an action, by its value.
// The value is a number, not a `Value`: it comes from any plan, and every number is told.
fn put_spoilt(line: &mut Line<'_>, value: u8)
    ensures { Puts line.old (spoilt_text value) line.new }
{
    match Value::try_from(value) {
        Ok(Value::Losing) => line.put_word(b", where all is lost\n"),
        _ => line.put_word(b", which is not safe\n"),
    }
}

// Why an action is not sure: it may lead to state t and goal state g, a place that has this value.
fn put_outcome(line: &mut Line<'_>, shown: Shown<'_>, action: usize, t: usize, g: usize, value: u8)
    ensures { Puts line.old
        (spoiler_line (named shown.entry.actions action)
        (place_text (named shown.entry.states t) comma (named shown.entry.goals g)) value)
        line.new }
{
    line.put_word(b"    ");
    put_name(line, shown.actions, action);
    line.put_word(b" is not sure: it may lead to ");
    put_place(line, shown.states, shown.goals, t, g, b", ");
    put_spoilt(line, value);
}

// The same by record k, seen from goal state q.
fn put_spoiler(line: &mut Line<'_>, shown: Shown<'_>, q: usize, k: usize)
    requires fit { Fit shown.job.now shown.layout }
    requires job_in_bounds { 4 * places (said shown.job.now) ≤ length shown.plan.now }
    requires q_lt_goals { (q < shown.layout.goals) × (k < shown.layout.records) }
    ensures { Puts line.old
        (told_spoiler (said shown.entry.job.now) shown.entry.plan.now q k
        (named shown.entry.states) (named shown.entry.actions)
        (named shown.entry.goals))
        line.new }
{
    let m = job::ask::move_at(shown.job, shown.layout, k);
    let t = usize::from(m.outcome);
    let e = entry_entered(shown.job, shown.layout, shown.plan, q, t);
    let g = job::ask::next_goal(shown.job, shown.layout, q, t);
    put_outcome(line, shown, usize::from(m.action), t, g, e.value);
}

// Why action a is not sure at the place of state s and goal state q, if something spoils it.
fn put_action(line: &mut Line<'_>, shown: Shown<'_>, s: usize, q: usize, a: usize)
    requires fit { Fit shown.job.now shown.layout }
    requires job_in_bounds { 4 * places (said shown.job.now) ≤ length shown.plan.now }
    requires q_lt_goals { q < shown.layout.goals }
    ensures { Puts line.old
        (told_action (said shown.entry.job.now) shown.entry.plan.now s q
        (named shown.entry.states) (named shown.entry.actions)
        (named shown.entry.goals) a)
        line.new }
{
    if let Some(k) = worst(shown.job, shown.layout, shown.plan, s, q, a) {
        put_spoiler(line, shown, q, k);
    }
}

// Why each action is not sure that something spoils.
fn put_why(line: &mut Line<'_>, shown: Shown<'_>, s: usize, q: usize)
    requires fit { Fit shown.job.now shown.layout }
    requires job_in_bounds { 4 * places (said shown.job.now) ≤ length shown.plan.now }
    requires q_lt_goals { q < shown.layout.goals }
    ensures { Puts line.old
        (told_actions (said shown.entry.job.now) shown.entry.plan.now s q
        (named shown.entry.states) (named shown.entry.actions)
        (named shown.entry.goals) shown.entry.layout.actions)
        line.new }
{
    for a in 0..usize::from(shown.layout.actions) {
        put_action(line, shown, s, q, a);
    }
}

// What the plan says at a place.
fn put_head(line: &mut Line<'_>, shown: Shown<'_>, s: usize, q: usize, e: Entry)
    ensures { Puts line.old
        (told_entry s q e (named shown.entry.states) (named shown.entry.actions)
        (named shown.entry.goals))
        line.new }
{
    put_place(line, shown.states, shown.goals, s, q, b", ");
    line.put_word(b": ");
    put_advice(line, shown.actions, e);
    line.put(b'\n');
}

// What the plan says at place i: its own entry there.
fn tell_head(line: &mut Line<'_>, shown: Shown<'_>, i: usize)
    requires { (1 ≤ shown.layout.goals) × (4 * i + 4 ≤ length shown.plan.now) }
    ensures { Puts line.old
        (told_entry (i / shown.entry.layout.goals) (i % shown.entry.layout.goals) (entry shown.entry.plan.now i)
        (named shown.entry.states) (named shown.entry.actions)
        (named shown.entry.goals))
        line.new }
{
    let own = rules::entry::read_entry(shown.plan, i);
    put_head(
        line,
        shown,
        i / shown.layout.goals,
        i % shown.layout.goals,
        own,
    );
}

// Why place i is not winning: what spoils each action, or that all is lost.
fn tell_why(line: &mut Line<'_>, shown: Shown<'_>, i: usize)
    requires fit { Fit shown.job.now shown.layout }
    requires job_in_bounds { 4 * places (said shown.job.now) ≤ length shown.plan.now }
    requires i_in_bounds { 4 * i + 4 ≤ length shown.plan.now }
    ensures { Puts line.old
        (told_why (said shown.entry.job.now) shown.entry.plan.now (i / shown.entry.layout.goals) (i % shown.entry.layout.goals) (entry shown.entry.plan.now i)
        (named shown.entry.states) (named shown.entry.actions)
        (named shown.entry.goals))
        line.new }
{
    let e = rules::entry::read_entry(shown.plan, i);
    match Value::try_from(e.value) {
        Ok(Value::Losing) => {
            line.put_word(b"    nothing that is open here can lead to the goal\n")
        }
        Ok(Value::Pending) => put_why(line, shown, i / shown.layout.goals, i % shown.layout.goals),
        _ => {}
    }
}

// All that is told of place i.
pub fn tell_place(line: &mut Line<'_>, shown: Shown<'_>, i: usize)
    requires fit { Fit shown.job.now shown.layout }
    requires job_in_bounds { 4 * places (said shown.job.now) ≤ length shown.plan.now }
    requires i_in_bounds { 4 * i + 4 ≤ length shown.plan.now }
    ensures { Puts line.old
        (told_place (said shown.entry.job.now) shown.entry.plan.now i
        (named shown.entry.states) (named shown.entry.actions)
        (named shown.entry.goals))
        line.new }
{
    tell_head(line, shown, i);
    tell_why(line, shown, i);
}

// What can be said of the whole, by the value of the start.
// The value is a number here too: it answers for every one.
pub fn put_outlook(line: &mut Line<'_>, value: u8)
    ensures { Puts line.old (outlook_text value) line.new }
{
    match Value::try_from(value) {
        Ok(Value::Winning) => line.put_word(b"From the start the goal is sure.\n"),
        Ok(Value::Pending) => {
            line.put_word(b"From the start the goal can be hoped for, and is not sure.\n")
        }
        _ => line.put_word(b"From the start all is lost.\n"),
    }
}

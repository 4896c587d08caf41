// Which class an entry of a bundle falls in: the first number that refuses it, or the value and the number of its starting place.
ghost use Rattle.std.specs.Prelude.{◌≡◌, ◌≤◌, min, length, MatchResult};
ghost use Rattle.totals.specs.Classes.{entry_room, line, winning_number, pending_number, refused_line, started_class, Falls, RefusedFor, FallsAs};

use game::entry::Entry;
use rules::answer::{Refusal, Value};

// How much of an entry is taken in: more than the longest job, so that a longer entry is refused.
pub const ENTRY_ROOM: usize = 49152;

// The longest plan.
const PLAN_ROOM: usize = 4 * sets::places::ROOM;

// No Result: of the four cases none is an error, and the report speaks of a refusal by its number.
#[derive(Clone, Copy, Debug, PartialEq, Eq)]
pub enum Class {
    Winning(u16),
    Pending(u16),
    Losing,
    Refused(u32),
}

// The line that counts the jobs refused by this number.
fn line_refused(number: u32) -> usize
    ensures { result ≡ refused_line number }
{
    match number {
        0..=6 => number as usize + 2,
        12 => 9,
        _ => 10,
    }
}

impl Class {
    // The line of the report that counts the class.
    pub fn line(self) -> usize
        ensures { result ≡ line self }
    {
        match self {
            Class::Winning(_) => 0,
            Class::Pending(_) => 1,
            Class::Losing => 2,
            Class::Refused(number) => line_refused(number),
        }
    }

    // What the class adds to the sum of winning starting numbers.
    pub fn winning_number(self) -> u32
        ensures value { result ≡ winning_number self }
        ensures upper_bound { result ≤ 65535 }
    {
        match self {
            Class::Winning(number) => u32::from(number),
            _ => 0,
        }
    }

    // What it adds to the sum of pending ones.
    pub fn pending_number(self) -> u32
        ensures value { result ≡ pending_number self }
        ensures upper_bound { result ≤ 65535 }
    {
        match self {
            Class::Pending(number) => u32::from(number),
            _ => 0,
        }
    }
}

// The class of a job whose plan has this entry for the starting place.
fn class_started(e: Entry) -> Class
    ensures { result ≡ started_class e }
{
    match Value::try_from(e.value) {
        Ok(Value::Losing) => Class::Losing,
        Ok(Value::Pending) => Class::Pending(e.number),
        _ => Class::Winning(e.number),
    }
}

// The class of a job that is read and planned, or why it is refused.
fn class_read(job: &[u8]) -> Result<Class, Refusal>
    requires { length job.now ≤ entry_room }
    ensures { MatchResult result (Falls job.now) (RefusedFor job.now) }
{
    let l = job::accept::read(job)?;
    let mut own = [0u8; PLAN_ROOM];
    labelling::plan::plan(job, &mut own)?;
    let at = job::ask::place_entered(job, l, l.first_goal, l.first);
    let e = rules::entry::read_entry(&own, at.entry_number(l.goals as u16));
    Ok(class_started(e))
}

// The class of an entry of this length, from its first bytes, as many as there is room for: of a longer one the bytes do not count.
pub fn class_of(first: &[u8], size: u64) -> Class
    requires { length first.now ≡ min size entry_room }
    ensures { FallsAs first.now size result }
{
    if (ENTRY_ROOM as u64) < size {
        return Class::Refused(Refusal::Contents.number());
    }
    match class_read(first) {
        Ok(class) => class,
        Err(why) => Class::Refused(why.number()),
    }
}

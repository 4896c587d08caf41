// A place for which an action is found joins a set and its queue, and its entry names the lowest of the actions found.
ghost use Rattle.std.specs.Prelude.{◌≡◌, ℕ, ◌+◌, ◌*◌, ◌≤◌, ◌<◌, length};
ghost use Rattle.rules.specs.Answers.{value_number};
ghost use Rattle.sets.specs.Sets.{set_words, set_room, member};
ghost use Rattle.backward.specs.Queue.{Queue, Joined};
ghost use Rattle.backward.specs.Notes.{Noted, only};

use game::entry::Entry;
use rules::answer::Value;
use sets::places::{PlaceSet, ROOM};

// The action is found for the place whose entry is x: the place joins, unless it is known already, and its entry names the lowest action
// found. Answers how long the queue then is.
pub fn propose(
    new: &mut PlaceSet,
    plan: &mut [u8],
    queue: &mut [u16; ROOM],
    known: &PlaceSet,
    tail: usize,
    x: usize,
    action: u8,
    value: Value,
    number: u16,
) -> usize
    requires len { length new.old.words ≡ set_words }
    requires x_lt_set_room { x < set_room }
    requires x_in_bounds { 4 * x + 4 ≤ length plan.old }
    requires queue { Queue (member new.old.words) queue.old tail }
    ensures { ((n m : ℕ) → x < n → action < m → Noted n m (value_number value) number (member known.now.words) (only x action)
        new.old.words plan.old new.new.words plan.new)
        × Joined queue.old tail new.new.words queue.new result }
{
    if known.has(x) {
        return tail;
    }
    let entry = Entry {
        value: value.number(),
        action,
        number,
    };
    if new.has(x) {
        let e = rules::entry::read_entry(plan, x);
        if e.action <= action {
            return tail;
        }
        rules::entry::write_entry(plan, x, entry);
        return tail;
    }
    queue[tail] = x as u16;
    new.put(x);
    rules::entry::write_entry(plan, x, entry);
    tail + 1
}

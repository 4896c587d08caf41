// The queue: the places that have joined a set, in the order in which they joined. Each is taken from it once.
ghost use Rattle.std.specs.Prelude.{◌≡◌, false, ℕ, ◌≤◌, ◌<◌, length, get_or};
ghost use Rattle.sets.specs.Sets.{set_words, set_room, member};
ghost use Rattle.backward.specs.Queue.{queued, Queue};

use sets::places::{PlaceSet, ROOM};

// The places of the set, all below n, become the queue; tells how many they are.
pub fn gather(queue: &mut [u16; ROOM], set: &PlaceSet, n: usize) -> usize
    requires queue_len { length queue.old ≡ set_room }
    requires n_le_set_room { n ≤ set_room }
    requires by_index { (x : ℕ) → n ≤ x → member set.now.words x ≡ false }
    ensures { Queue (member set.now.words) queue.new result }
{
    let mut tail: usize = 0;
    for x in 0..n {
        if set.has(x) {
            queue[tail] = x as u16;
            tail += 1;
        }
    }
    tail
}

// The known places were those of the queue before `from`, and become those before `to`.
pub fn learn(known: &mut PlaceSet, queue: &[u16; ROOM], from: usize, to: usize)
    requires known_len { length known.old.words ≡ set_words }
    requires from_le_to { from ≤ to }
    requires to_le_set_room { to ≤ set_room }
    requires by_index { (i : ℕ) → i < to → get_or queue.now i 0 < set_room }
    requires by_index_2 { (x : ℕ) → member known.old.words x ≡ queued queue.now from x }
    ensures { (length known.new.words ≡ set_words)
        × ((x : ℕ) → member known.new.words x ≡ queued queue.now to x) }
{
    for i in from..to {
        known.put(queue[i] as usize);
    }
}

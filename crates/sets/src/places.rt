// A set of places, by value: bit i % 64 of word i / 64 tells of the place whose entry is i.
ghost use Rattle.std.specs.Prelude.{◌≡◌, false, ◌&&◌, ℕ, ◌+◌, ◌*◌, ◌/◌, ◌^◌, ◌<◌, ◌≤◌, ltb};
ghost use Rattle.std.specs.Int.Count.{ones};
ghost use Rattle.sets.specs.Sets.{set_words, set_room, member, count, PutIn};

// How many words a set of a job's places has, and how many places it has room for.
pub const WORDS: usize = 256;

pub const ROOM: usize = 64 * WORDS;

// A set of the places whose entries lie below 64 * N.
#[derive(Clone, Copy, Debug, PartialEq, Eq)]
pub struct Places<const N: usize> {
    pub words: [u64; N],
}

// A set of the places of a job.
pub type PlaceSet = Places<WORDS>;

impl<const N: usize> Places<N> {
    // The set with no place.
    pub fn empty() -> Places<N>
        ensures { (j : ℕ) → member result.words j ≡ false }
    {
        Places { words: [0u64; N] }
    }

    // Whether the set has the place i. The set is lent: an inner loop copies none.
    pub fn has(&self, i: usize) -> bool
        ensures { result ≡ (ltb i (64 * N) && member self.now.words i) }
    {
        i / 64 < N && (self.words[i / 64] >> (i % 64)) % 2 == 1
    }

    // Adds the place i; a set with no room for it stays as it is.
    pub fn put(&mut self, i: usize)
        ensures { PutIn N self.old.words i self.new.words }
    {
        let w = i / 64;
        if w < N {
            self.words[w] = (1 << (i % 64)) | self.words[w];
        }
    }

    // How many places the set has in its first words.
    pub fn len_in(&self, words: usize) -> usize
        requires in_set { words ≤ N }
        requires counted { 64 * words < 2 ^ 64 }
        ensures { result ≡ count (member self.now.words) (64 * words) }
    {
        let mut size: usize = 0;
        for w in 0..words {
            size += ones_of(self.words[w]);
        }
        size
    }
}

// How many words hold the places below n.
pub fn words_for(n: usize) -> usize
    requires { n ≤ set_room }
    ensures { (n ≤ 64 * result) × (result ≤ set_words) × (result ≡ (n + 63) / 64) }
{
    prove!(n <= ROOM);
    (n + 63) / 64
}

// How many bits of a word are set. A word that is lent is passed here by value, which tells that it has 64 bits.
pub fn ones_of(word: u64) -> usize
    ensures { (result ≡ ones word) × (word < 2 ^ 64) }
{
    u64::count_ones(word) as usize
}

// The contents of a bundle, judged before any entry is read.
ghost use Rattle.std.specs.Prelude.{◌≡◌, ◌+◌, ◌*◌, ◌≤◌, ◌<◌, eqb, length};
ghost use Rattle.totals.specs.Bundle.{double, entries, offset, size, contents_size, entries_counted, in_order, contents_fit};

use rules::bytes::word_at;

// The most entries that a bundle has, and the longest contents.
pub const MOST: usize = 64;

pub const CONTENTS_ROOM: usize = 514;

// The number of four bytes at a place, low byte first.
fn double_at(b: &[u8], at: usize) -> u64
    requires { at + 4 ≤ length b.now }
    ensures value { result ≡ double b.now at }
    ensures upper_bound { result < 4294967296 }
{
    u64::from(word_at(b, at)) + 65536 * u64::from(word_at(b, at + 2))
}

// The length of entry i.
pub fn size_of(contents: &[u8], i: usize) -> u64
    requires i_in_bounds { contents_size (i + 1) ≤ length contents.now }
    requires i_bound { i < 64 }
    ensures value { result ≡ size contents.now i }
    ensures upper_bound { result < 4294967296 }
{
    double_at(contents, 6 + 8 * i)
}

// Whether entry i begins where it is due, at this number.
fn begins(contents: &[u8], i: usize, at: u64) -> bool
    requires i_in_bounds { contents_size (i + 1) ≤ length contents.now }
    requires i_bound { i < 64 }
    ensures { result ≡ eqb (offset contents.now i) at }
{
    double_at(contents, 2 + 8 * i) == at
}

// Whether each of n entries begins where it is due. Offsets and lengths are added as plain numbers, which a u64 holds.
fn follow_one_another(contents: &[u8], n: usize) -> bool
    requires n_bound { n ≤ 64 }
    requires n_value { n ≡ entries contents.now }
    requires n_in_bounds { contents_size n ≤ length contents.now }
    ensures { result ≡ in_order contents.now }
{
    let mut at = (2 + 8 * n) as u64;
    for i in 0..n {
        if !begins(contents, i, at) {
            return false;
        }
        at += size_of(contents, i);
    }
    true
}

// How many entries the first two bytes count, or 0 where there are fewer bytes or too many entries.
pub fn entries_counted(first: &[u8]) -> usize
    ensures value { result ≡ entries_counted first.now }
    ensures upper_bound { result ≤ 64 }
{
    if first.len() < 2 {
        return 0;
    }
    let n = usize::from(word_at(first, 0));
    if MOST < n { 0 } else { n }
}

// Whether these bytes, the whole of them, are the contents of a good bundle.
pub fn contents_fit(contents: &[u8]) -> bool
    ensures { result ≡ contents_fit contents.now }
{
    let n = entries_counted(contents);
    n != 0 && contents.len() == 2 + 8 * n && follow_one_another(contents, n)
}

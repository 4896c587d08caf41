// The name that a misspelt word may stand for: the nearest of those that begin or end like it and leave two letters at most of either.
ghost use Rattle.std.specs.Prelude.{◌+◌, ◌≤◌, ◌<◌, length, IfSome};
ghost use Rattle.lines.specs.Tables.{count_of};

use lines::names::Names;

// How many letters two words begin with alike.
fn alike_front(a: &[u8], b: &[u8]) -> usize
    ensures { (result ≤ length a.now) × (result ≤ length b.now) }
{
    let n = a.len().min(b.len());
    for p in 0..n {
        if a[p] != b[p] {
            return p;
        }
    }
    n
}

// How many letters two words end with alike, beside the p that they begin with.
fn alike_back(a: &[u8], b: &[u8], p: usize) -> usize
    requires { (p ≤ length a.now) × (p ≤ length b.now) }
    ensures { (p + result ≤ length a.now) × (p + result ≤ length b.now) }
{
    let n = a.len().min(b.len()) - p;
    for q in 0..n {
        if a[a.len() - 1 - q] != b[b.len() - 1 - q] {
            return q;
        }
    }
    n
}

// How many letters two words leave of both together, beside those that they begin with alike and then those that they end with alike; none where
// they begin and end otherwise, or where one leaves more than two.
fn apart(a: &[u8], b: &[u8]) -> Option<usize> {
    let p = alike_front(a, b);
    let q = alike_back(a, b, p);
    let x = a.len() - p - q;
    let y = b.len() - p - q;
    if p + q == 0 || 2 < x || 2 < y {
        return None;
    }
    Some(x + y)
}

/// The name that leaves the fewest letters beside the word, the first of these; none where no name is near.
pub fn nearest(names: Names<'_>, word: &[u8]) -> Option<usize>
    ensures { IfSome result (λ k. k < count_of names.entry) }
{
    let mut best = None;
    let mut least: usize = 5;
    for k in 0..names.len() {
        if let Some(left) = apart(names.get(k), word) {
            if left < least {
                least = left;
                best = Some(k);
            }
        }
    }
    best
}

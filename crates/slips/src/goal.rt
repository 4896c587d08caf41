// Slips judged, and the Goal body written from them.
ghost use Rattle.std.specs.Prelude.{◌≡◌, ◌&&◌, ◌*◌, ◌%◌, ◌≤◌, leb, eqb, length};
ghost use Rattle.game.specs.Below.{every_below};
ghost use Rattle.slips.specs.Writing.{in_kind, in_kind_at, written_refusal, written_length, Writing};

use crate::kind::Kind;
use rules::answer::Refusal;

// Whether so many bytes are one, two or three clauses.
fn is_counted(n: usize) -> bool
    ensures { result ≡ (eqb (n % 3) 0 && (leb 3 n && leb n 9)) }
{
    n % 3 == 0 && 3 <= n && n <= 9
}

// Whether a clause has a kind, propositions below p, and b like a where there is no b.
fn is_in_kind(p: usize, kind: u8, a: u8, b: u8) -> bool
    ensures { result ≡ in_kind p kind a b }
{
    match Kind::try_from(kind) {
        Ok(kind) => usize::from(a) < p && usize::from(b) < p && (kind.has_second() || b == a),
        Err(_) => false,
    }
}

// Whether each of n clauses is so.
fn all_in_kind(s: &[u8], n: usize, p: usize) -> bool
    requires { 3 * n ≤ length s.now }
    ensures { result ≡ every_below n (in_kind_at s.now p) }
{
    for i in 0..n {
        let at = 3 * i;
        if !is_in_kind(p, s[at], s[at + 1], s[at + 2]) {
            return false;
        }
    }
    true
}

// Writes the Goal body of slips for P propositions.
pub fn write_goal(out: &mut [u8], s: &[u8], p: usize) -> Result<usize, Refusal>
    ensures { Writing s.now p out.old (written_refusal result) (written_length result) out.new }
{
    if !is_counted(s.len()) {
        return Err(Refusal::NoClauses);
    }
    if 6 < p {
        return Err(Refusal::Clause);
    }
    let n = s.len() / 3;
    if !all_in_kind(s, n, p) {
        return Err(Refusal::Clause);
    }
    let w = crate::body::width(p);
    let q = crate::body::power(n);
    let size = q * w + q;
    if out.len() < size {
        return Err(Refusal::Room);
    }
    crate::body::write_body(out, s, n, p, size);
    Ok(size)
}

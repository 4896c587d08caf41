// The Goal body of several clauses, byte by byte: the next goal states, and then the marks.
ghost use Rattle.std.specs.Prelude.{◌≡◌, ◌^◌, ◌≤◌, length};
ghost use Rattle.slips.specs.Clauses.{steps, finals};
ghost use Rattle.slips.specs.Writing.{clauses_from};
ghost use Rattle.slips.specs.Filling.{StateLeft, ByteLeft, BodyLeft, body_byte, Filled};

use crate::clause::{final_one, next_one};
use crate::kind::Kind;

// 3 to the n: how many goal states n clauses have.
pub fn power(n: usize) -> usize
    requires { n ≤ 3 }
    ensures { result ≡ 3 ^ n }
{
    // a table, and no power: the body's bytes ask it for each clause
    match n {
        0 => 1,
        1 => 3,
        2 => 9,
        _ => 27,
    }
}

// 2 to the p: how many labels p propositions have.
pub fn width(p: usize) -> usize
    requires { p ≤ 6 }
    ensures { result ≡ 2 ^ p }
{
    1 << p
}

// The next goal state of the clauses that are left, the first of them at a byte.
fn next_state(s: &[u8], at: usize, left: usize, q: usize, l: u8) -> usize
    requires { StateLeft s.now at left q }
    ensures { result ≡ steps (clauses_from s.now at left) q l }
{
    if left == 0 {
        return 0;
    }
    let w = power(left - 1);
    let first = next_one(Kind::of(s[at]), s[at + 1], s[at + 2], q / w, l);
    let others = next_state(s, at + 3, left - 1, q % w, l);
    first * w + others
}

// Whether a goal state of the clauses that are left is final.
fn final_state(s: &[u8], at: usize, left: usize, q: usize) -> bool
    requires { StateLeft s.now at left q }
    ensures { result ≡ finals (clauses_from s.now at left) q }
{
    if left == 0 {
        return true;
    }
    let w = power(left - 1);
    final_one(Kind::of(s[at]), q / w) && final_state(s, at + 3, left - 1, q % w)
}

// The byte y of the Goal body.
fn body_byte(s: &[u8], n: usize, p: usize, y: usize) -> u8
    requires { ByteLeft s.now n p y }
    ensures { result ≡ body_byte (clauses_from s.now 0 n) p y }
{
    let w = width(p);
    let rows = power(n) * w;
    if y < rows {
        return next_state(s, 0, n, y / w, (y % w) as u8) as u8;
    }
    u8::from(final_state(s, 0, n, y - rows))
}

// Writes the Goal body of n clauses, so many bytes.
pub fn write_body(out: &mut [u8], s: &[u8], n: usize, p: usize, size: usize)
    requires { BodyLeft s.now n p size (length out.old) }
    ensures { Filled size (body_byte (clauses_from s.now 0 n) p) out.old out.new }
{
    for y in 0..size {
        out[y] = body_byte(s, n, p, y);
    }
}

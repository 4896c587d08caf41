// One clause: its next goal state under a label, and whether a goal state is final.
ghost use Rattle.std.specs.Prelude.{◌≡◌, cond, not, ◌&&◌, ℕ, eqb};
ghost use Rattle.slips.specs.Clauses.{step, final};
ghost use Rattle.slips.specs.Writing.{clause_in};

use crate::kind::Kind;

// Existence and absence: 1 once a is seen.
fn seen(q: usize, a: bool) -> usize
    ensures { result ≡ cond (eqb q 0 && a) 1 q }
{
    if q == 0 && a { 1 } else { q }
}

// Response: 1 while b is owed.
fn owed(q: usize, a: bool, b: bool) -> usize
    ensures { result ≡ cond (eqb q 0) (cond (a && not b) 1 0) (cond (eqb q 1 && b) 0 q) }
{
    match q {
        0 => usize::from(a && !b),
        1 if b => 0,
        _ => q,
    }
}

// Precedence: 1 once a is seen, also together with b, 2 once b came first.
fn which_first(q: usize, a: bool, b: bool) -> usize
    ensures { result ≡ cond (eqb q 0) (cond a 1 (cond b 2 0)) q }
{
    if q != 0 {
        return q;
    }
    if a {
        1
    } else if b {
        2
    } else {
        0
    }
}

// The next goal state of one clause, under the label l.
#[tactic(auto, unfolding(crate::specs::Clauses::step))]
pub fn next_one(kind: Kind, a: u8, b: u8, q: usize, l: u8) -> usize
    ensures { result ≡ step (clause_in kind a b) q l }
{
    let has_a = sets::label::has_proposition(l, a);
    let has_b = sets::label::has_proposition(l, b);
    match kind {
        Kind::Existence | Kind::Absence => seen(q, has_a),
        Kind::Response => owed(q, has_a, has_b),
        Kind::Precedence => which_first(q, has_a, has_b),
    }
}

// Whether a goal state of one clause is final.
pub fn final_one(kind: Kind, q: usize) -> bool
    ensures { (a b : ℕ) → result ≡ final (clause_in kind a b) q }
{
    match kind {
        Kind::Existence => q == 1,
        Kind::Absence | Kind::Response => q == 0,
        Kind::Precedence => q < 2,
    }
}

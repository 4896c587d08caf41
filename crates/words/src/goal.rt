// The goal that a text says, as a body in bytes: from its clauses, or from its table.
ghost use Rattle.std.specs.Prelude.{◌≡◌, ◌≤◌, length};
ghost use Rattle.lines.specs.Tables.{names_of, count_of};
ghost use Rattle.words.specs.Within.{Slipped, Aims};

use lines::names::Names;

/// What is written of a goal: how many bytes its body has, how many goal states, and which is the first.
#[derive(Clone, Copy, Debug, PartialEq, Eq)]
pub struct Aim {
    pub size: usize,
    pub goals: usize,
    pub first: usize,
}

// How many goal states slips of so many bytes have.
fn goals_of(bytes: usize) -> usize {
    match bytes {
        3 => 3,
        6 => 9,
        _ => 27,
    }
}

// Writes the body of slips; none where clauses are no slips.
fn write_slips(body: &mut [u8], slip: &[u8], f: usize) -> Option<Aim>
    requires { length body.old ≡ 2080 }
    ensures { Slipped slip.now f body.new result }
{
    let goals = goals_of(slip.len());
    match slips::goal::write_goal(body, slip, f) {
        Ok(size) => Some(Aim {
            size,
            goals,
            first: 0,
        }),
        Err(_) => None,
    }
}

/// Writes the body of the goal that a text says; none where its clauses are no slips. A slip has room for one clause more than a goal may
/// have, by which too many are known.
pub fn write_goal(body: &mut [u8], text: &[u8], facts: Names<'_>, goals: Names<'_>) -> Option<Aim>
    requires few { (count_of facts ≤ 6) × (count_of goals ≤ 32) }
    requires body_len { length body.old ≡ 2080 }
    ensures { Aims (names_of facts.entry) (names_of goals.entry) text.now (count_of facts.entry) body.new result }
{
    let f = facts.len();
    let g = goals.len();
    let mut slip = [0u8; 12];
    let k = aims::clauses(&mut slip, text, facts);
    if k == 0 {
        let size = rows::table::write_table(body, text, facts, goals);
        let first = aims::given(text, b"first", goals).unwrap_or(g);
        return Some(Aim {
            size,
            goals: g,
            first,
        });
    }
    if 12 <= k {
        return None;
    }
    write_slips(body, &slip[..k], f)
}

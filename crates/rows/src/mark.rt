// The marks of a goal's table: which goal states a text calls final.
ghost use Rattle.std.specs.Prelude.{◌≡◌, ◌<◌};
ghost use Rattle.lines.specs.Words.{lines};
ghost use Rattle.lines.specs.Steps.{words_left};
ghost use Rattle.lines.specs.Tables.{names_of, count_of};
ghost use Rattle.lines.specs.Says.{names_some};
ghost use Rattle.rows.specs.Rows.{final_line, final_said};

use lines::line::{Lines, Words};
use lines::names::Names;

// Whether some word of a line names goal state q.
fn names_goal(line: Words<'_>, goals: Names<'_>, q: usize) -> bool
    requires { q < count_of goals }
    ensures { result ≡ names_some (names_of goals.entry) 0 q (words_left line.entry) }
{
    for word in line {
        if goals.find(word.bytes()) == Some(q) {
            return true;
        }
    }
    false
}

// Whether a line calls goal state q final.
#[tactic(auto, unfolding(lines::specs::Says::some_of))]
fn final_line(line: Words<'_>, goals: Names<'_>, q: usize) -> bool
    requires { q < count_of goals }
    ensures { result ≡ final_line (names_of goals.entry) q (words_left line.entry) }
{
    match line.after_key(b"final") {
        Some(rest) => names_goal(rest, goals, q),
        None => false,
    }
}

// Whether some line of the text calls goal state q final.
#[tactic(auto, unfolding(crate::specs::Rows::final_said, lines::specs::Says::some_of))]
pub fn is_final(text: &[u8], goals: Names<'_>, q: usize) -> bool
    requires { q < count_of goals }
    ensures { result ≡ final_said (names_of goals.entry) (lines text.now) q }
{
    for line in Lines::of(text) {
        if final_line(line, goals, q) {
            return true;
        }
    }
    false
}

// The body of a goal's table, byte by byte: the next goal states, and then the marks.
ghost use Rattle.std.specs.Prelude.{◌≡◌, ◌+◌, ◌*◌, ◌^◌, ◌≤◌, ◌<◌, length};
ghost use Rattle.lines.specs.Words.{lines};
ghost use Rattle.lines.specs.Tables.{names_of, count_of};
ghost use Rattle.slips.specs.Filling.{Filled};
ghost use Rattle.rows.specs.Cells.{table_byte, TableWritten};

use lines::names::Names;

// How many labels so many facts have. That of slips is the same, but stands in a module of its own crate alone.
fn width(f: usize) -> usize
    requires { f ≤ 6 }
    ensures { result ≡ 2 ^ f }
{
    1 << f
}

// The byte y of the body.
fn table_byte(text: &[u8], facts: Names<'_>, goals: Names<'_>, y: usize) -> u8
    requires few { (count_of facts ≤ 6) × (count_of goals ≤ 32) }
    requires inside { y < count_of goals * 2 ^ count_of facts + count_of goals }
    ensures { result ≡ table_byte (names_of facts.entry) (names_of goals.entry) (lines text.now) (count_of facts.entry) y }
{
    let f = facts.len();
    let g = goals.len();
    let w = width(f);
    let rows = g * w;
    if y < rows {
        return crate::row::next_said(text, facts, goals, y / w, (y % w) as u8) as u8;
    }
    u8::from(crate::mark::is_final(text, goals, y - rows))
}

// Writes the body's first bytes, so many as it has.
fn fill(body: &mut [u8], text: &[u8], facts: Names<'_>, goals: Names<'_>, size: usize)
    requires few { (count_of facts ≤ 6) × (count_of goals ≤ 32) }
    requires size_value { (size ≡ count_of goals * 2 ^ count_of facts + count_of goals) × (size ≤ length body.old) }
    ensures { Filled size
        (table_byte (names_of facts.entry) (names_of goals.entry) (lines text.now) (count_of facts.entry))
        body.old body.new }
{
    for y in 0..size {
        body[y] = table_byte(text, facts, goals, y);
    }
}

// Writes the body of the table that the text says, and answers how many bytes it has: 32 goal states and 64 labels make 2,080 at most.
pub fn write_table(body: &mut [u8], text: &[u8], facts: Names<'_>, goals: Names<'_>) -> usize
    requires few { (count_of facts ≤ 6) × (count_of goals ≤ 32) }
    requires in_bounds { 2080 ≤ length body.old }
    ensures { TableWritten text.now facts.entry goals.entry body.old body.new result }
{
    let f = facts.len();
    let g = goals.len();
    let w = width(f);
    let size = g * w + g;
    fill(body, text, facts, goals, size);
    size
}

// The bytes of a job, in the old form where it fits and in the tall one otherwise.
ghost use Rattle.std.specs.Prelude.{◌≡◌, ◌||◌, ltb, ◌*◌, ◌≤◌, ◌<◌, length};

use crate::moves::Said;
use lines::says::{Facts, Moves};
use text::Line;

/// How many moves the set has, counted up to one more than a job may have.
pub fn count(moves: &Moves) -> usize {
    Said::of(moves).take(8193).count()
}

/// What a job is made of, in numbers.
#[derive(Clone, Copy, Debug, PartialEq, Eq)]
pub struct Sizes {
    // a truth and no form of the job's: this crate rests on nothing of the job
    pub tall: bool,
    pub states: usize,
    pub actions: usize,
    pub facts: usize,
    pub goals: usize,
    pub start: usize,
    pub first: usize,
    pub moves: usize,
    pub goal: usize,
}

fn put_byte(line: &mut Line<'_>, x: usize) {
    line.put((x % 256) as u8);
}

// A number of two bytes, low byte first.
fn put_two(line: &mut Line<'_>, x: usize) {
    put_byte(line, x);
    put_byte(line, x / 256);
}

// A number of one byte, or of two in the tall form.
fn put_wide(line: &mut Line<'_>, tall: bool, x: usize) {
    put_byte(line, x);
    if tall {
        put_byte(line, x / 256);
    }
}

// A body's place in the contents: where it begins, and how long it is.
fn put_place(line: &mut Line<'_>, start: usize, size: usize) {
    put_two(line, start);
    put_two(line, size);
}

// The contents: the places of the four bodies.
fn put_contents(line: &mut Line<'_>, z: Sizes, counts: usize, moves: usize)
    requires { (counts ≤ 8) × (z.states ≤ 512) × (moves ≤ 40960) }
{
    let second = 16 + counts;
    let third = second + z.states;
    let fourth = third + moves;
    put_place(line, 16, counts);
    put_place(line, second, z.states);
    put_place(line, third, moves);
    put_place(line, fourth, z.goal);
}

fn put_counts(line: &mut Line<'_>, z: Sizes) {
    put_wide(line, z.tall, z.states);
    put_byte(line, z.actions);
    put_byte(line, z.facts);
    put_byte(line, z.goals);
    put_wide(line, z.tall, z.start);
    put_byte(line, z.first);
}

fn put_record(line: &mut Line<'_>, tall: bool, i: usize) {
    put_wide(line, tall, i / 8192);
    put_byte(line, i / 512 % 16);
    put_wide(line, tall, i % 512);
}

// The records of the moves, in ascending order.
fn put_records(line: &mut Line<'_>, tall: bool, moves: &Moves) {
    for i in Said::of(moves) {
        put_record(line, tall, i);
    }
}

// How many bytes the records of n moves have.
fn moves_size(tall: bool, n: usize) -> usize
    requires { n ≤ 8192 }
    ensures { result ≤ 40960 }
{
    if tall { 5 * n } else { 3 * n }
}

fn counts_size(tall: bool) -> usize
    ensures { result ≤ 8 }
{
    if tall { 8 } else { 6 }
}

/// Whether a job of so many states and moves is tall.
pub fn is_tall(states: usize, moves: usize) -> bool
    ensures { result ≡ (ltb 128 states || ltb 4096 moves) }
{
    128 < states || 4096 < moves
}

/// Writes a job and answers where it ends.
pub fn write(out: &mut [u8], z: Sizes, labels: &Facts, moves: &Moves, goal: &[u8]) -> usize
    requires states_bound { (z.states ≤ 512) × (z.moves ≤ 8192) }
    requires goal_bound { z.goal ≤ length goal.now }
{
    let size = moves_size(z.tall, z.moves);
    let mut line = Line { bytes: out, at: 0 };
    put_contents(&mut line, z, counts_size(z.tall), size);
    put_counts(&mut line, z);
    line.put_word(&labels.bytes[..z.states]);
    put_records(&mut line, z.tall, moves);
    line.put_word(&goal[..z.goal]);
    line.at
}

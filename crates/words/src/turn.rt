// A text in words turned into a job, or into lines that tell its faults.
ghost use Rattle.std.specs.Prelude.{◌≡◌, true, ◌||◌, ltb, ◌≤◌, length, Err};
ghost use Rattle.job.specs.Layout.{Fit};
ghost use Rattle.job.specs.Forms.{named_form};
ghost use Rattle.lines.specs.Words.{lines};
ghost use Rattle.lines.specs.Tables.{names_of};
ghost use Rattle.whole.specs.Whole.{whole};
ghost use Rattle.words.specs.Turned.{Answers, Told, state_names, action_names, fact_names, goal_names};
ghost use Rattle.words.specs.Within.{Counted, Same, Sames, Sounds};

use crate::goal::Aim;
use faults::fault::Report;
use job::form::Form;
use job::layout::Layout;
use laid::whole::Sizes;
use lines::names::{List, Names, Span};
use lines::says::{Facts, Moves};
use phrases::tables::Tables;
use text::Line;

/// A text has faults, of which so many bytes are told.
#[derive(Clone, Copy, Debug, PartialEq, Eq)]
pub struct Faults {
    pub told: usize,
}

// Tells that a fault lies in this program, and not in the text.
fn blame(told: &mut [u8]) -> Faults
    ensures { Told (length told.old) (Err result) }
{
    let mut line = Line { bytes: told, at: 0 };
    line.put_word(b"the job that was written does not read as the text; please report this text\n");
    Faults { told: line.at }
}

// Whether a job has so many states, actions, facts and goal states.
fn has_counts(l: Layout, z: Sizes) -> bool
    ensures { result ≡ true → Counted l z }
{
    l.states == z.states
        && usize::from(l.actions) == z.actions
        && usize::from(l.propositions) == z.facts
        && l.goals == z.goals
}

// Whether a job has the old form where that fits, and the tall one otherwise.
fn is_form(l: Layout) -> bool
    ensures { result ≡ true → l.form ≡ named_form (ltb 128 l.states || ltb 4096 l.records) }
{
    let tall = laid::whole::is_tall(l.states, l.records);
    match l.form {
        Form::Old => !tall,
        Form::Tall => tall,
    }
}

// Whether a job that was read is the one that was meant.
fn is_meant(job: &[u8], l: Layout, z: Sizes, body: &[u8], labels: &Facts, moves: &Moves) -> bool
    requires { Fit job.now l }
    ensures { result ≡ true → Same z labels.now.bytes moves.now.bytes body.now job.now }
{
    has_counts(l, z)
        && is_form(l)
        && meant::goal::is_start(l, z.start)
        && meant::goal::is_goal(job, l, body, z.goal, z.first)
        && meant::is_right(job, l, labels, moves)
}

// Whether the bytes are a job, and the one that was meant.
fn is_job(job: &[u8], z: Sizes, body: &[u8], labels: &Facts, moves: &Moves) -> bool
    ensures { result ≡ true → Same z labels.now.bytes moves.now.bytes body.now job.now }
{
    match job::accept::read(job) {
        Ok(l) => is_meant(job, l, z, body, labels, moves),
        Err(_) => false,
    }
}

// Writes the job with these numbers; nothing where it has no room.
fn write_job(out: &mut [u8], z: Sizes, body: &[u8], labels: &Facts, moves: &Moves) -> usize
    requires { z.states ≤ 512 }
{
    if 8192 < z.moves || body.len() < z.goal {
        return 0;
    }
    laid::whole::write(out, z, labels, moves, body)
}

// Writes a job, reads it again, and answers it if it is right.
fn finish(
    out: &mut [u8],
    told: &mut [u8],
    z: Sizes,
    body: &[u8],
    labels: &Facts,
    moves: &Moves,
) -> Result<usize, Faults>
    requires { z.states ≤ 512 }
    ensures { Sames z labels.now.bytes moves.now.bytes body.now out.new result }
{
    let n = write_job(out, z, body, labels, moves);
    if out.len() < n {
        return Err(blame(told));
    }
    if is_job(&out[..n], z, body, labels, moves) {
        return Ok(n);
    }
    Err(blame(told))
}

// Turns a text without faults, of whose lines no word is skipped and which has n moves.
fn turn_whole(
    out: &mut [u8],
    told: &mut [u8],
    text: &[u8],
    names: Tables<'_>,
    labels: &Facts,
    moves: &Moves,
    n: usize,
) -> Result<usize, Faults>
    requires { whole (names_of names.states) (names_of names.actions) (names_of names.facts) (lines text.now) ≡ true }
    ensures { Sounds (names_of names.entry.states) (names_of names.entry.actions) (names_of names.entry.facts)
        (names_of names.entry.goals) text.now labels.now.bytes moves.now.bytes out.new result }
{
    let states = names.states.len();
    let actions = names.actions.len();
    let facts = names.facts.len();
    let start = aims::given(text, b"start", names.states).unwrap_or(states);
    let mut body = [0u8; 2080];
    let Some(aim) = crate::goal::write_goal(&mut body, text, names.facts, names.goals) else {
        return Err(blame(told));
    };
    let z = Sizes {
        tall: laid::whole::is_tall(states, n),
        states,
        actions,
        facts,
        goals: aim.goals,
        start,
        first: aim.first,
        moves: n,
        goal: aim.size,
    };
    finish(out, told, z, &body, labels, moves)
}

// Tells the faults, or writes the job.
fn turn_said(
    out: &mut [u8],
    told: &mut [u8],
    text: &[u8],
    names: Tables<'_>,
    labels: &Facts,
    moves: &Moves,
) -> Result<usize, Faults>
    ensures { Sounds (names_of names.entry.states) (names_of names.entry.actions) (names_of names.entry.facts)
        (names_of names.entry.goals) text.now labels.now.bytes moves.now.bytes out.new result }
{
    let n = laid::whole::count(moves);
    let mut report = Report::new(told);
    each_line::line::check_lines(&mut report, text, names);
    laid::lack::check_whole(
        &mut report,
        names.states.len(),
        names.actions.len(),
        names.goals.len(),
        n,
    );
    if report.is_faulty() {
        return Err(Faults {
            told: report.finish(),
        });
    }
    if !whole::is_whole(text, names.states, names.actions, names.facts) {
        return Err(blame(told));
    }
    turn_whole(out, told, text, names, labels, moves, n)
}

// The same from the names that the text lists.
fn turn_named(
    out: &mut [u8],
    told: &mut [u8],
    text: &[u8],
    names: Tables<'_>,
) -> Result<usize, Faults>
    ensures { Answers (names_of names.entry.states) (names_of names.entry.actions) (names_of names.entry.facts)
        (names_of names.entry.goals) text.now out.new result }
{
    let busy = Names {
        text: b"busy",
        spans: &[Span { start: 0, end: 4 }],
    };
    let mut labels = Facts { bytes: [0; 512] };
    lines::says::facts(&mut labels, text, names.states, names.facts, 0);
    lines::says::facts(&mut labels, text, names.states, busy, 7);
    let mut moves = Moves { bytes: [0; 524288] };
    lines::says::moves(&mut moves, text, names.states, names.actions);
    turn_said(out, told, text, names, &labels, &moves)
}

// The same from the text alone.
fn turn_text(out: &mut [u8], told: &mut [u8], text: &[u8]) -> Result<usize, Faults>
    ensures { Answers (state_names text.now) (action_names text.now) (fact_names text.now)
        (goal_names text.now) text.now out.new result }
{
    let states: List<512> = List::of(text, b"states");
    let actions: List<16> = List::of(text, b"actions");
    let facts: List<6> = List::of(text, b"facts");
    let goals: List<32> = List::of(text, b"goal-states");
    let names = Tables {
        states: states.names(),
        actions: actions.names(),
        facts: facts.names(),
        goals: goals.names(),
    };
    turn_named(out, told, text, names)
}

// What is told of faults; where nothing is told, or more than there is room for, the fault would lie in this program.
fn tell(told: &mut [u8], faults: Faults) -> Faults
    ensures { Told (length told.old) (Err result) }
{
    if (1..=told.len()).contains(&faults.told) {
        return faults;
    }
    blame(told)
}

/// Turns a text into a job in the output, and answers how many bytes the job has, or tells the text's faults.
pub fn turn(out: &mut [u8], told: &mut [u8], text: &[u8]) -> Result<usize, Faults>
    ensures answers { Answers (state_names text.now) (action_names text.now) (fact_names text.now)
        (goal_names text.now) text.now out.new result }
    ensures told { Told (length told.old) result }
{
    match turn_text(out, told, text) {
        Ok(n) => Ok(n),
        Err(faults) => Err(tell(told, faults)),
    }
}
